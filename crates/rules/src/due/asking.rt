// What the rule Due answers.
ghost use Rattle.rules.specs.Meanings.{due_asks, due_count};
ghost use Rattle.rules.specs.Laws.{due_keeps};
ghost use Rattle.sets.specs.Orders.{members};
ghost use Rattle.std.specs.Prelude.{◌≡◌, map, count_ones, slice_index};

use super::Due;
use crate::answer::Answer;
use crate::next::unfinished;
use crate::rule::Rule;
use sets::{OrderSet, SheetSet};

impl Rule for Due {
    ghost count = { due_count };

    ghost asks = { due_asks };

    ghost keeps = { λ r. due_keeps r };

    fn sheets(&self) -> u8 {
        self.rows.count()
    }

    // The orders due before this step that are not finished yet.
    fn ask(&self, done: SheetSet, next: u8) -> Answer {
        let figure = unfinished(&self.rows, done, next).map(|left| self.late(done).common(left));
        Answer { figure }
    }
}

impl Due {
    // The orders that count as late after those sheets; none where there are more than any job has.
    fn late(&self, done: SheetSet) -> OrderSet
        ensures value { members result ≡ slice_index (map members self.now.overdue) (count_ones done.bits) }
    {
        self.overdue
            .get(usize::from(done.count()))
            .copied()
            .unwrap_or(OrderSet::empty())
    }
}

// The rule Open: how many orders have an open stack in a step.
ghost use Rattle.job.specs.Jobs.{content_of};
ghost use Rattle.rules.specs.Meanings.{open_asks, open_count};
ghost use Rattle.sequences.specs.JobCosts.{CountsOpen};
ghost use Rattle.sequences.specs.StepRules.{open_rule};
ghost use Rattle.sets.specs.RowLists.{rows_of};
ghost use Rattle.std.specs.Prelude.{◌≡◌, length};
ghost use Rattle.rules.specs.Laws.{open_keeps};

use crate::answer::Answer;
use crate::next::unfinished;
use crate::rule::Rule;
use job::Job;
use sets::{Rows, SheetSet};

#[derive(Drop)]
pub struct Open {
    rows: Rows,
}

impl Open {
    pub fn new(rows: Rows) -> Open
        ensures count { open_count result ≡ length (rows_of rows) }
        ensures asks { open_asks result ≡ open_rule (rows_of rows) }
    {
        Open { rows }
    }

    pub fn of(job: &Job) -> Open
        ensures count { open_count result ≡ length (content_of job.now).rows }
        ensures asks { open_asks result ≡ open_rule (content_of job.now).rows }
        ensures steps { CountsOpen (open_asks result) (content_of job.now) }
    {
        Open::new(job.rows())
    }
}

impl Rule for Open {
    ghost count = { open_count };

    ghost asks = { open_asks };

    ghost keeps = { λ r. open_keeps r };

    fn sheets(&self) -> u8 {
        self.rows.count()
    }

    // The orders that are begun once the next sheet is cut, and were not finished before.
    fn ask(&self, done: SheetSet, next: u8) -> Answer {
        let figure = unfinished(&self.rows, done, next).map(|left| {
            let begun = self.rows.reach(done.with(next));
            begun.common(left)
        });
        Answer { figure }
    }
}

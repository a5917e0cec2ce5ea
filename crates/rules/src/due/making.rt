// The rule Due of a job.
ghost use Rattle.std.specs.Prelude.{◌≡◌, length};
ghost use Rattle.job.specs.Jobs.{content_of};
ghost use Rattle.rules.specs.DueSets.{DueBefore, overdue_rule};
ghost use Rattle.rules.specs.Meanings.{due_asks, due_count};
ghost use Rattle.sequences.specs.StepRules.{due_rule};
ghost use Rattle.sets.specs.Orders.{members};
ghost use Rattle.sets.specs.RowLists.{rows_of};

use super::Due;
use job::Job;
use sets::{OrderSet, Rows};
use std::array;

impl Due {
    // From the orders that count as late in each step, entry t for the step that has t sheets done.
    pub fn new(rows: Rows, overdue: [OrderSet; 16]) -> Due
        ensures count { due_count result ≡ length (rows_of rows) }
        ensures asks { due_asks result ≡ overdue_rule (rows_of rows) overdue }
    {
        Due { rows, overdue }
    }

    pub fn of(job: &Job) -> Due
        ensures count { due_count result ≡ length (content_of job.now).rows }
        ensures asks { due_asks result ≡ due_rule (content_of job.now).rows (content_of job.now).dues }
    {
        let overdue = array::from_fn(|done| due_before(job, done + 1));
        Due::new(job.rows(), overdue)
    }
}

// The orders with a due step below this one.
fn due_before(job: &Job, step: usize) -> OrderSet
    ensures value { DueBefore (content_of job.now).dues step (members result) }
{
    let mut orders = OrderSet::empty();
    for order in 0..job.orders() {
        if job.due(order).is_some_and(|due| usize::from(due) < step) {
            orders = orders.with(order);
        }
    }
    orders
}

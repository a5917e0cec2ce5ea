// The rule Due: how many orders are late in a step.
ghost use Rattle.std.specs.Prelude.{◌≡◌, length};

use sets::{OrderSet, Rows};

pub mod asking;
mod making;

#[derive(Drop)]
pub struct Due {
    rows: Rows,
    // entry t: the orders due before step t + 1, which has t sheets done
    overdue: [OrderSet; 16],
    ghost whole: { length overdue ≡ 16 },
}

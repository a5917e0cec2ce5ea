// The rows of a job: for each of its 1 to 16 sheets, the set of orders that it serves.
ghost use Rattle.std.specs.Prelude.{◌≡◌, ◌≤◌, length};

use crate::orders::OrderSet;

mod making;
mod reading;

#[derive(Clone, Copy, Debug)]
pub struct Rows {
    count: u8,
    // those from `count` on are not in use
    rows: [OrderSet; 16],
    ghost some: { 1 ≤ count },
    ghost few: { count ≤ 16 },
    ghost whole: { length rows ≡ 16 },
}

// A job has no room for one sheet more.
#[derive(Clone, Copy, Debug, PartialEq, Eq)]
pub struct TooManySheets;

// What every rule that counts orders asks of a step.
ghost use Rattle.std.specs.Prelude.{◌≡◌, cond, length, None, Some, option_map};
ghost use Rattle.sequences.specs.StepRules.{is_next, undone};
ghost use Rattle.sets.specs.Orders.{members};
ghost use Rattle.sets.specs.Reach.{reach};
ghost use Rattle.sets.specs.RowLists.{rows_of};

use sets::{OrderSet, Rows, SheetSet};

// The orders that still have a sheet to come, the next one included; none where the next cannot come after those done.
pub(crate) fn unfinished(rows: &Rows, done: SheetSet, next: u8) -> Option<OrderSet>
    ensures value { option_map members result ≡ cond (is_next (length (rows_of rows.now)) done.bits next) (Some (reach (rows_of rows.now) (undone (length (rows_of rows.now)) done.bits))) None }
{
    is_next(rows, done, next).then(|| rows.reach(undone(rows, done)))
}

// Whether the sheet can come next after those done.
fn is_next(rows: &Rows, done: SheetSet, next: u8) -> bool
    ensures value { result ≡ is_next (length (rows_of rows.now)) done.bits next }
{
    let n = rows.count();
    next < n && !done.has(next) && done.is_below(n)
}

// The sheets not done, of a done set with no sheet that the rows lack.
fn undone(rows: &Rows, done: SheetSet) -> SheetSet
    ensures value { result.bits ≡ undone (length (rows_of rows.now)) done.bits }
{
    let all = (1u32 << rows.count()) - 1;
    SheetSet {
        bits: all.saturating_sub(done.bits),
    }
}

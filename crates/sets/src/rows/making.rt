// Making the rows of a job, one sheet after the other.
ghost use Rattle.sets.specs.Orders.{members};
ghost use Rattle.sets.specs.RowLists.{rows_of};
ghost use Rattle.std.specs.Prelude.{◌≡◌, [], ◌∷◌, ◌++◌, length, if◌then◌else◌, is_ok, nat_lt};

use super::{Rows, TooManySheets};
use crate::orders::OrderSet;

// How many sheets a job has at most.
const MOST: u8 = 16;

impl Rows {
    // The rows of a job with one sheet.
    pub fn first(row: OrderSet) -> Rows
        ensures value { rows_of result ≡ members row ∷ [] }
    {
        let mut rows = [OrderSet::empty(); 16];
        rows[0] = row;
        Rows { count: 1, rows }
    }

    // One sheet more; nothing is changed where there are 16 already.
    pub fn add(&mut self, row: OrderSet) -> Result<(), TooManySheets>
        ensures value { is_ok result ≡ nat_lt (length (rows_of self.old)) 16 }
        ensures after { rows_of self.new ≡ (if is_ok result then rows_of self.old ++ members row ∷ [] else rows_of self.old) }
    {
        if self.count >= MOST {
            return Err(TooManySheets);
        }
        self.rows[self.count as usize] = row;
        self.count += 1;
        Ok(())
    }
}

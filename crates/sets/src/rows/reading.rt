// What the rows of a job say: how many sheets there are, the row of each, and the reach of a set.
ghost use Rattle.sets.specs.Bits.{has};
ghost use Rattle.sets.specs.Orders.{members};
ghost use Rattle.sets.specs.Reach.{reach, Serves};
ghost use Rattle.sets.specs.RowLists.{rows_of};
ghost use Rattle.std.specs.Prelude.{◌≡◌, ℕ, ◌≤◌, length, Decides, slice_index};

use super::Rows;
use crate::orders::OrderSet;
use crate::sheets::SheetSet;

impl Rows {
    // How many sheets there are: at least one, and at most 16.
    pub fn count(&self) -> u8
        ensures value { result ≡ length (rows_of self.now) }
        ensures some { 1 ≤ result }
        ensures few { result ≤ 16 }
    {
        self.count
    }

    // The row of a sheet; no orders where there is no such sheet.
    pub fn row(&self, sheet: u8) -> OrderSet
        ensures value { members result ≡ slice_index (rows_of self.now) sheet }
    {
        if sheet < self.count {
            self.rows[sheet as usize]
        } else {
            OrderSet::empty()
        }
    }

    // The union of the rows of the sheets in the set; a sheet that the job lacks adds none.
    pub fn reach(&self, set: SheetSet) -> OrderSet
        ensures value { members result ≡ reach (rows_of self.now) set.bits }
        ensures members { (j : ℕ) → Decides (has (members result) j) (Serves (rows_of self.now) set.bits j) }
    {
        let mut reached = OrderSet::empty();
        for sheet in 0..self.count {
            if set.has(sheet) {
                reached = reached.union(self.row(sheet));
            }
        }
        reached
    }
}

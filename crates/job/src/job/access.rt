// What the file of a job says. Every accessor answers for every number: past the last sheet or order there is nothing.
ghost use Rattle.job.specs.Jobs.{content_of, file_of};
ghost use Rattle.sets.specs.Orders.{members};
ghost use Rattle.sets.specs.RowLists.{rows_of};
ghost use Rattle.std.specs.Prelude.{◌≡◌, [], length, None, slice_index, slice_index_or};

use super::Job;
use jobfile::JobFile;
use sets::{OrderSet, Rows};

impl Job {
    fn file(&self) -> JobFile<'_>
        ensures value { result ≡ file_of self.now }
    {
        JobFile::new(&self.file)
    }

    // How many sheets there are.
    pub fn sheets(&self) -> u8
        ensures value { result ≡ length (content_of self.now).rows }
    {
        self.file().sheets() as u8
    }

    // How many orders there are.
    pub fn orders(&self) -> u16
        ensures value { result ≡ length (content_of self.now).labels }
    {
        self.file().orders()
    }

    // The orders that a sheet serves.
    pub fn row(&self, sheet: u8) -> OrderSet
        ensures value { members result ≡ slice_index (content_of self.now).rows sheet }
    {
        if sheet < self.sheets() {
            self.file().row(u16::from(sheet))
        } else {
            OrderSet::empty()
        }
    }

    // The rows of all sheets. A job has at most 16, so there is room for each.
    pub fn rows(&self) -> Rows
        ensures value { rows_of result ≡ (content_of self.now).rows }
    {
        let mut rows = Rows::first(self.row(0));
        for sheet in 1..self.sheets() {
            let _ = rows.add(self.row(sheet));
        }
        rows
    }

    // The step by which an order is to be finished, if it has one.
    pub fn due(&self, order: u16) -> Option<u8>
        ensures value { result ≡ slice_index_or (content_of self.now).dues order None }
    {
        if order >= self.orders() {
            return None;
        }
        let step = self.file().order_record(order).due_step;
        if step == 0 { None } else { Some(step as u8) }
    }

    // The label of an order, a part of the file.
    pub fn label(&self, order: u16) -> &[u8]
        ensures value { result.now ≡ slice_index_or (content_of self.now).labels order [] }
    {
        if order < self.orders() {
            self.file().label(order)
        } else {
            &[]
        }
    }
}

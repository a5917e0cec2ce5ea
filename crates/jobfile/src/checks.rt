// The checks of a job file, in the order in which they are made.
ghost use Rattle.jobfile.specs.Check.{Check, in_turn, verdict};
ghost use Rattle.jobfile.specs.Tests.{between, inside, label_fits, printable, served, taken};
ghost use Rattle.jobfile.specs.Checks.{checks, file_checks, order_checks, sheet_checks};
ghost use Rattle.faults.specs.declared.job.JobFault.{JobFault};
ghost use Rattle.std.specs.List.{list_all};
ghost use Rattle.std.specs.Prelude.{◌≡◌, ℕ, ◌<◌, List};

use crate::bytes::{JobFile, RECORD_BYTES, RECORDS_AT, ROW_BYTES, ROWS_AT};
use faults::{FileFault, JobFault};

const HEADER_BYTES: usize = 12;

const EDITION_AT: u32 = 0;

const LENGTH_AT: u32 = 10;

const EDITION: u16 = 1;

const MOST_SHEETS: u16 = 16;

const MOST_ORDERS: u16 = 64;

const MOST_LABEL_BYTES: u16 = 16;

const FIRST_PRINTABLE: u8 = 33;

const LAST_PRINTABLE: u8 = 126;

impl JobFile<'_> {
    // All checks, one after another.
    pub fn check(&self) -> Result<(), JobFault>
        ensures value { result ≡ verdict (checks self.now) }
    {
        self.check_file()?;
        in_turn(self.sheets(), |sheet| self.check_sheet(sheet))?;
        in_turn(self.orders(), |order| self.check_order(order))
    }

    // The header, and where rows and records lie.
    fn check_file(&self) -> Result<(), FileFault>
        ensures value { result ≡ verdict (file_checks self.now) }
    {
        let bytes = self.bytes.len();
        if bytes < HEADER_BYTES {
            return Err(FileFault::Short { bytes });
        }
        let edition = self.field(EDITION_AT);
        if edition != EDITION {
            return Err(FileFault::Edition { edition });
        }
        if usize::from(self.field(LENGTH_AT)) != bytes {
            return Err(FileFault::Length { bytes });
        }
        let sheets = self.sheets();
        if !is_count(sheets, MOST_SHEETS) {
            return Err(FileFault::Sheets { sheets });
        }
        let orders = self.orders();
        if !is_count(orders, MOST_ORDERS) {
            return Err(FileFault::Orders { orders });
        }
        if !self.is_inside(self.field(ROWS_AT), ROW_BYTES * u32::from(sheets)) {
            return Err(FileFault::RowsOutside);
        }
        if !self.is_inside(self.field(RECORDS_AT), RECORD_BYTES * u32::from(orders)) {
            return Err(FileFault::RecordsOutside);
        }
        Ok(())
    }

    // Whether so many bytes from an offset on lie between the header and the end.
    fn is_inside(&self, at: u16, size: u32) -> bool
        ensures value { result ≡ inside self.now at size }
    {
        let at = usize::from(at);
        at >= HEADER_BYTES && at + size as usize <= self.bytes.len()
    }

    fn check_sheet(&self, sheet: u16) -> Result<(), JobFault>
        ensures value { result ≡ verdict (sheet_checks self.now sheet) }
    {
        let row = self.row(sheet);
        if row.is_empty() {
            return Err(JobFault::EmptyRow { sheet });
        }
        if !row.is_below(self.orders()) {
            return Err(JobFault::StrangeOrder { sheet });
        }
        Ok(())
    }

    fn check_order(&self, order: u16) -> Result<(), JobFault>
        ensures value { result ≡ verdict (order_checks self.now order) }
    {
        if !self.is_served(order) {
            return Err(JobFault::Unserved { order });
        }
        if self.order_record(order).due_step > self.sheets() {
            return Err(JobFault::DueTooLate { order });
        }
        if !self.label_fits(order) {
            return Err(JobFault::LabelOutside { order });
        }
        if !is_printable(self.label(order)) {
            return Err(JobFault::LabelUnprintable { order });
        }
        if self.is_taken(order) {
            return Err(JobFault::LabelTaken { order });
        }
        Ok(())
    }

    // Whether some sheet serves the order.
    fn is_served(&self, order: u16) -> bool
        ensures value { result ≡ served self.now order }
    {
        (0..self.sheets()).any(|sheet| self.row(sheet).has(order))
    }

    // Whether the label has a length that labels can have, and lies inside.
    fn label_fits(&self, order: u16) -> bool
        ensures value { result ≡ label_fits self.now order }
    {
        let record = self.order_record(order);
        let bytes = record.label_bytes;
        is_count(bytes, MOST_LABEL_BYTES) && self.is_inside(record.label_at, u32::from(bytes))
    }

    // Whether an earlier order has the same label.
    fn is_taken(&self, order: u16) -> bool
        ensures value { result ≡ taken self.now order }
    {
        (0..order).any(|earlier| self.label(earlier) == self.label(order))
    }
}

// Whether there can be so many: at least one, and at most as many as given.
fn is_count(count: u16, most: u16) -> bool
    ensures value { result ≡ between 1 most count }
{
    (1..=most).contains(&count)
}

// Each sheet or order in rising number, until one fails.
fn in_turn<F: Fn(u16) -> Result<(), JobFault>>(count: u16, check: F) -> Result<(), JobFault>
    requires { F.IsAlwaysCallable check }
    ensures value { (checks : ℕ → List (Check JobFault)) → ((n : ℕ) (r : _) → n < count → F.post check n r → r ≡ verdict (checks n)) → result ≡ verdict (in_turn checks 0 count) }
{
    for n in 0..count {
        check(n)?;
    }
    Ok(())
}

// Whether every byte can stand in a label.
fn is_printable(label: &[u8]) -> bool
    ensures value { result ≡ list_all printable label.now }
{
    for byte in label {
        if !is_label_byte(*byte) {
            return false;
        }
    }
    true
}

fn is_label_byte(byte: u8) -> bool
    ensures value { result ≡ printable byte }
{
    (FIRST_PRINTABLE..=LAST_PRINTABLE).contains(&byte)
}

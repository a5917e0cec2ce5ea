// What stands in a file, by its offset. Every method answers for every offset: a byte past the end counts as 0.
ghost use Rattle.jobfile.specs.Fields.{due_step, field, label, label_at, label_bytes, orders, row, sheets};
ghost use Rattle.sets.specs.Orders.{members};
ghost use Rattle.std.specs.Prelude.{◌≡◌, ℕ, List, take, drop, slice_index};

use sets::OrderSet;
use std::marker::Model;

pub const ROW_BYTES: u32 = 8;

pub const RECORD_BYTES: u32 = 6;

pub const SHEETS_AT: u32 = 2;

pub const ORDERS_AT: u32 = 4;

pub const ROWS_AT: u32 = 6;

pub const RECORDS_AT: u32 = 8;

// What may be a job file. To a contract it is the list of its bytes.
#[derive(Debug, Drop)]
pub struct JobFile<'a> {
    pub(crate) bytes: &'a [u8],
}

impl<'a> Model for JobFile<'a> {
    ghost Value = { List ℕ };

    ghost view = { λ file. file.bytes.now };
}

// The record of an order.
#[derive(Clone, Copy, Debug, PartialEq, Eq)]
pub struct OrderRecord {
    // 0 for none
    pub due_step: u16,
    pub label_at: u16,
    pub label_bytes: u16,
}

impl<'a> JobFile<'a> {
    pub fn new(bytes: &'a [u8]) -> JobFile<'a>
        ensures value { result ≡ bytes.now }
    {
        JobFile { bytes }
    }

    // The bytes from an offset on, as many as asked for or as there are.
    fn part(&self, at: usize, size: usize) -> &'a [u8]
        ensures value { result.now ≡ take size (drop at self.now) }
    {
        let from = at.min(self.bytes.len());
        let rest = &self.bytes[from..];
        &rest[0..size.min(rest.len())]
    }

    fn byte(&self, at: usize) -> u8
        ensures value { result ≡ slice_index self.now at }
    {
        self.bytes.get(at).copied().unwrap_or(0)
    }

    // The 16-bit number at an offset.
    pub fn field(&self, at: u32) -> u16
        ensures value { result ≡ field self.now at }
    {
        let at = at as usize;
        u16::from_le_bytes([self.byte(at), self.byte(at + 1)])
    }

    // How many sheets the header says that there are.
    pub fn sheets(&self) -> u16
        ensures value { result ≡ sheets self.now }
    {
        self.field(SHEETS_AT)
    }

    // How many orders the header says that there are.
    pub fn orders(&self) -> u16
        ensures value { result ≡ orders self.now }
    {
        self.field(ORDERS_AT)
    }

    // The row of a sheet.
    pub fn row(&self, sheet: u16) -> OrderSet
        ensures value { members result ≡ row self.now sheet }
    {
        let at = u32::from(self.field(ROWS_AT)) + ROW_BYTES * u32::from(sheet);
        OrderSet::from_le_bytes(self.part(at as usize, ROW_BYTES as usize))
    }

    pub fn order_record(&self, order: u16) -> OrderRecord
        ensures due { result.due_step ≡ due_step self.now order }
        ensures at { result.label_at ≡ label_at self.now order }
        ensures bytes { result.label_bytes ≡ label_bytes self.now order }
    {
        let at = u32::from(self.field(RECORDS_AT)) + RECORD_BYTES * u32::from(order);
        OrderRecord {
            due_step: self.field(at),
            label_at: self.field(at + 2),
            label_bytes: self.field(at + 4),
        }
    }

    // The label of an order.
    pub fn label(&self, order: u16) -> &'a [u8]
        ensures value { result.now ≡ label self.now order }
    {
        let record = self.order_record(order);
        self.part(
            usize::from(record.label_at),
            usize::from(record.label_bytes),
        )
    }
}

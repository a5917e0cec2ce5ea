// The job file: what stands where in it, and the checks that it has to pass.
#![tactic(auto)]

pub mod bytes;
pub mod checks;

pub use bytes::{JobFile, ORDERS_AT, OrderRecord, SHEETS_AT};

// Sets of sheets, sets of orders, and the rows of a job. A set is a number: bit p says whether p is in it.
#![tactic(auto)]

pub mod orders;
pub mod rows;
pub mod sheets;
mod word;

pub use orders::OrderSet;
pub use rows::{Rows, TooManySheets};
pub use sheets::SheetSet;

// Objectives: what a sequence is worth, and which of two values is kept.
#![tactic(auto)]

pub mod best;
pub mod cost;
pub mod count;
pub mod dearness;
pub mod objective;
pub mod pairs;
pub mod peak;
pub mod total;

pub use best::{Best, CostCount};
pub use cost::Cost;
pub use count::Count;
pub use dearness::at_most_as_dear;
pub use objective::{Objective, Picking};
pub use pairs::pairs_of_peak_and_count;
pub use peak::Peak;
pub use total::Total;

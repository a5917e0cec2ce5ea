// What a given sequence of a job costs, straight from the definitions of the trade: for tests, and for a person's questions.
#![tactic(auto)]

pub mod measuring;
pub mod naming;
pub mod stacks;

pub use measuring::{Measures, measure};
pub use naming::is_sequence;
pub use stacks::Stack;

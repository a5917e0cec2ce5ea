// Step rules: which sheet can come next after those done, and what the step costs.
#![tactic(auto)]

pub mod answer;
pub mod due;
pub mod limit;
mod next;
pub mod places;
pub mod rule;
pub mod stacks;

pub use answer::Answer;
pub use due::Due;
pub use limit::Limit;
pub use places::within_places;
pub use rule::Rule;
pub use stacks::Open;

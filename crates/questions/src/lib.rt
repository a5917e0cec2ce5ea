// What is asked of a job: an objective over a step rule, with what it comes to in the words of the trade.
#![tactic(auto)]

pub mod asked;
pub mod question;
pub mod steps;

pub use asked::{over_due, over_open, over_open_within};
pub use question::Question;
pub use steps::{StepCosts, step_costs};

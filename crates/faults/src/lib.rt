// The faults of the planner's layers, each with its number, its layer and its place.
#![tactic(auto)]

pub mod fault;
pub mod file;
pub mod job;
pub mod layer;
pub mod refusal;

pub use fault::Fault;
pub use file::FileFault;
pub use job::JobFault;
pub use layer::Layer;
pub use refusal::Refusal;

// A job, read from a job file, and what it says.
#![tactic(auto)]

pub mod job;

pub use job::Job;

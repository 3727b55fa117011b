//! The words of the command line: which job they ask for, by the definition that `clap` has of a
//! simple command, and what is asked of their values behind it.
#![tactic(auto)]

mod command;
mod job;
mod numbers;
mod read;

pub use job::{Files, Job};
pub use read::read_job;

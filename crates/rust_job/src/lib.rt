//! The job to run a crate: from the files of it to the end of its run.
#![tactic(auto)]

mod end;
mod fault;
mod run;

pub use fault::CrateFault;
pub use run::{run_files, run_whole};

//! The top call: reads the words of a job, does the job between a shelf of files, two sinks and a
//! host, and answers the exit status.
#![tactic(auto)]

mod crate_files;
mod files;
mod given;
mod kept;
mod laws;
mod outcome;
mod report;
mod runs;
mod sources;
mod top;
mod transpile;
mod ungot;
mod units;
mod unread;

pub use given::run_given;
pub use laws::{one_is_first, translated_break_none};
pub use report::out_of_memory;
pub use top::{run, run_surely};

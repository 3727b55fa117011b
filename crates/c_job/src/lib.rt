//! The job to run units: from what was got of their files to the end of their program's run (ISO C99, 5.1.1.1 to 6.9).
#![tactic(auto)]

mod end;
mod run;

pub use run::{checked_program, run_program, run_units};

//! Runs of C programs over a store and a host (ISO C99, 5.1.2.3, 6.5 and 6.8).
#![tactic(auto)]

mod outcome;
mod run;
mod stop;

pub use outcome::{COutcome, CRun};
pub use run::run_c;

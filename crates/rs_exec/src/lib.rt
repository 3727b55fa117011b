//! Runs of written crates over a store and a host (the Rust Reference, "Statements and expressions").
#![tactic(auto)]

mod begins;
mod outcome;
mod program;
mod run;

pub use outcome::{ROutcome, RRun};
pub use run::run_rust;

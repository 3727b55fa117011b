//! Rows of tests of stores and hosts. `row_words` says how rows are read and answered, and each module under `stage` the form of its
//! rows.
#![tactic(auto)]

mod cell;
mod stage;

pub use stage::Stages;

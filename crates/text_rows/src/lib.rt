//! Rows of tests of units: tokens, trees, values, layouts and shapes. `row_words` says how rows are read and answered, and each module under
//! `stage` the form of its rows.
#![tactic(auto)]

mod stage;

pub use stage::Stages;

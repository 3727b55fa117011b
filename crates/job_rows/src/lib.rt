//! Rows of tests of whole jobs, over files and streams. `row_words` says how rows are read and answered, and each module under `stage` the
//! form of its rows.
#![tactic(auto)]

mod stage;

pub use stage::Stages;

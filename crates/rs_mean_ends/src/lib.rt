//! How statements of the written Rust end, by their form, and labels that nothing names (the Rust Reference, "Loops
//! and other breakable expressions").
#![tactic(auto)]

mod laws;

pub use laws::{ends_by_form, labels_go};

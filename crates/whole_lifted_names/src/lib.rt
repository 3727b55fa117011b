//! The names with which bodies are written are those that are kept.
#![tactic(auto)]

mod laws;

pub use laws::{kept_names_are_lifted, temporaries_are_few};

//! The names of the modules of a written crate, one for each file of the program (the Rust Reference, "Identifiers", "Keywords" and "Modules").
#![tactic(auto)]

mod laws;
mod modules;
mod stems;

pub use laws::module_names_are_first;
pub use modules::module_names;

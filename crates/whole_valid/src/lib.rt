//! Laws of the whole written crate (the Rust Reference, "Crates and source files" and "Items"): it is a crate of the subset. The functions do nothing: their contracts are the laws.
#![tactic(auto)]

mod laws;

pub use laws::crates_are_valid;

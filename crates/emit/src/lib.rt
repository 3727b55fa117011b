//! The statements of a function's body, from its flow and the shape of that: nodes stand in the arms of branches, behind
//! one another, in loops, and in labelled blocks where control goes further (Zakai's Relooper; the Rust Reference, "Loops
//! and other breakable expressions").
#![tactic(auto)]

mod emitting;

pub use emitting::emit;

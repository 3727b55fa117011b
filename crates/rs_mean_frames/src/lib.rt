//! Laws of the runs of the written Rust in any frame whose called bodies behave: what every piece does with its
//! units, and how turns, loops and `main.rs` unfold.
#![tactic(auto)]

mod laws;

pub use laws::{loops_unfold, main_unfolds, pieces_behave, programs_behave, rounds_unfold};

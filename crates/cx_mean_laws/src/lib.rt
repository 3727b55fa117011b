//! Laws of the leftmost run of C: its pieces and their bounds. The functions do nothing: their contracts are the laws.
#![tactic(auto)]

mod laws;

pub use laws::{asked_behind_steps, goes_unfold, leaves_no_more, unfinished_takes};

//! What the statements that are written from a flow and its shape mean: they do what the flow's nodes do, whatever the flow stands
//! for, and are well typed where the nodes are.
#![tactic(auto)]

mod laws;

pub use laws::{text_owes, text_shaped, text_typed, text_valid};

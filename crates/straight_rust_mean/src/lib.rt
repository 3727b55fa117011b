//! What the written Rust means (the Rust Reference, "Items", "Statements and expressions", "Behavior
//! considered undefined"), as far as its subset goes: which crates are well typed, and their runs.
#![tactic(auto)]

mod cause;
mod laws;
mod literal;

pub use cause::Cause;
pub use laws::{ended_stays_ended, events_only_grow, more_budget_continues};
pub use literal::literal_fits;

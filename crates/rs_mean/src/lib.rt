//! What the written Rust means (the Rust Reference, "Items", "Statements and expressions", "Behavior
//! considered undefined"), for its whole subset: which crates are well typed, and their runs.
#![tactic(auto)]

mod cause;
mod laws;
mod literal;

pub use cause::Cause;
pub use laws::{
    bodies_unfold, ended_stays_ended, events_only_grow, leaves_no_more, lists_follow, loops_unfold,
    more_budget_continues, shows_nothing, trail_is_outside,
};
pub use literal::{fits_integer, literal_fits};

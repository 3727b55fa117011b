//! Runs under a bound, and what one run owes another: the one shape of both meanings, and the rules by
//! which it is proved that a crate does what its program does.
#![tactic(auto)]

mod laws;

pub use laws::{
    ends_are_known, less_is_owed, names_owe, nothing_is_owed, pieces_owe, step_owes, ticks_owe,
    unit_owes, values_owe,
};

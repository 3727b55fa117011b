//! The meaning of a C program (ISO C99, 5.1.2.3, 6.5 and 6.8) for every form of the profile: its steps, the steps
//! that are undefined, and its runs. `specs/` has the definitions, `proofs/` worked runs, and the functions here
//! are laws.
#![tactic(auto)]

mod laws;

pub use laws::{
    compatible_types_are_found, ended_runs_stay, events_only_grow, leftmost_is_run, statics_begin,
    trail_is_outside, unwritten_stays, unwritten_stays_in_any_order,
};

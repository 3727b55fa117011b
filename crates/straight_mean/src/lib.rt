//! The meaning of a C program (ISO C99, 5.1.2.3, 6.5 and 6.8): its steps, the steps that are undefined,
//! and its runs. `specs/` has the definitions, and the functions here are their laws.
#![tactic(auto)]

mod laws;

pub use laws::{
    ended_runs_stay, leftmost_is_run, statics_begin_in_order, typed_expressions_are_sound,
    unwritten_stays,
};

//! Definitions of units put together (ISO C99, 5.1.1.1, 6.2.2): the program of typed units, and the first rule that they break together.
//! `specs/` has the definitions, `proofs/` worked lists of units, and the functions here are laws.
#![tactic(auto)]

mod laws;

pub use laws::{linked_units_have_main, objects_stand_unit_by_unit, units_are_below_the_count};

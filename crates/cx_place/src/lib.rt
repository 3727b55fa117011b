//! The puts of an initialiser whose expressions are typed, or the first part of it that breaks a rule (ISO C99, 6.7.8).
#![tactic(auto)]

mod fault;
mod given;
mod landed;
mod leads;
mod lists;
mod operands;
mod placed;
mod placing;
mod rules;
mod values;
mod wholes;

pub use fault::{BrokenPart, PlaceFault};
pub use given::{Entry, Given, To};
pub use placed::place;

//! What each node of a unit of C means, and which rule of the profile it breaks: definitions for the checks, and the law that the
//! walk which stops at the first broken node finds what the walk over all nodes finds.
#![tactic(auto)]

mod kinds;
mod laws;

pub use kinds::{OperandKind, Pairing, SpecsPlace};
pub use laws::{expressions_stop, initialisers_stop, type_names_stop, units_stop};

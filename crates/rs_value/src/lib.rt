//! Values of a run of a crate with their types, and what operators, methods and casts give of them (the
//! Rust Reference, "Operator expressions" and "Type cast expressions").
#![tactic(auto)]

mod numbers;
mod operators;
mod trouble;
mod typed;

pub use numbers::{converted_to, integer_scalar, truth_of};
pub use operators::{
    Unary, binary_of, cause_of_pointer, integer, offset_from_of, offset_of, test_of, truth,
    unary_of, wrapping_of,
};
pub use trouble::Trouble;
pub use typed::{TypedValue, ValueSpot, ValueTy, alike, result_ty, value_ty};

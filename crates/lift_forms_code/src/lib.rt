//! The forms of operators, conversions and places of C as trees of Rust, each equal to its definition, want of memory aside (ISO C99, 6.3 and 6.5; the Rust Reference,
//! "Expressions"). Those of bit-fields are in `lift_forms_bits`.
#![tactic(auto)]

mod binary;
mod conversions;
mod given;
mod operands;
mod places;
mod unary;

pub use binary::binary_form;
pub use conversions::{and_form, choice_form, constant, converted, null_of, or_form, zero_of};
pub use given::RGiven;
pub use operands::{
    as_type, cast_to, integer_as, is_not_zero, is_zero, opposite_of, test_of, transmute_to,
    value_of,
};
pub use places::{address_form, address_of, function_form, object_place};
pub use unary::unary_form;

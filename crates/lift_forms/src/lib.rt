//! The leaves of lifting: how each operator, conversion, place and bit-field of C is written in Rust, as definitions over plain trees, and why that is well typed (ISO C99, 6.3, 6.5
//! and 6.7.2.1; the Rust Reference, "Expressions"; `core`). Each function here is a law of them.
#![tactic(auto)]

mod laws;

pub use laws::{
    bit_fields_are_typed, constants_are_typed, forms_are_typed, forms_are_valid, leaves_are_valid,
    places_are_typed,
};

//! What the forms of `lift_forms` mean: where an operator or a conversion of C has a meaning, the expression that is written for it comes to what stands for C's result, takes
//! no unit and changes nothing (ISO C99, 6.3 and 6.5; the Rust Reference, "Expressions"). Each function here is a law of it.
#![tactic(auto)]

mod laws;

pub use laws::{
    bit_fields_give, bit_fields_in_both, bit_fields_store, choices_stand, constants_stand,
    forms_stand, places_stand,
};

//! The names of the fields that members of structures and unions of C are written as (ISO C99, 6.5.2.3; the Rust Reference, "Field access expressions").
#![tactic(auto)]

mod fields;
mod laws;

pub use fields::field_name;
pub use laws::fields_are_found;

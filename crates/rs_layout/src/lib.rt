//! How the types of the written Rust are laid out, and the items that its paths name (the Rust Reference, "Type
//! layout" and "Paths").
#![tactic(auto)]

mod layout;
mod lookup;
mod places;

pub use layout::{field_at, laid_at, laid_in_front, laid_of, record_in_front, repr_c};
pub use lookup::{
    HeldCallee, callee_among, callee_at, field_type_at, local_named, own_function_at, record_at,
    static_type,
};
pub use places::{PlacedField, field_place};

//! Laws of the types and records of a written crate: they are laid out as those of C (ISO C99, 6.2.6.1 and 6.7.2.1; the Rust Reference, "Type layout" and "The C
//! representation"). The functions do nothing: their contracts are the laws.
#![tactic(auto)]

mod laws;

pub use laws::{bits_are_covered, fields_stand, records_agree, types_agree};

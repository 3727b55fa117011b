//! Loads and stores of C's objects under the relation between the memory of a written crate and that of the C program that it is written for, beside the
//! accesses and copies of Rust that are written for them (ISO C99, 6.3.2.1, 6.5.16.1 and 6.7.2.1). Each function here is a law of it.
#![tactic(auto)]

mod laws;

pub use laws::{objects_are_loaded, objects_are_stored};

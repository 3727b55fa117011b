//! Operations on pointers under the relation between the memory of a written crate and that of the C program that it is written for (ISO C99, 6.5.3.3,
//! 6.5.6, 6.5.8 and 6.5.9; the Rust Reference, "Operator expressions", and `core`, `pointer`). Each function here is a law of it.
#![tactic(auto)]

mod laws;

pub use laws::{operators_stand, pointers_stand};

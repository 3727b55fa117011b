//! The names of a whole written crate: which things of a C program get one in which module or function, in which order, and what it is (ISO C99, 6.2.1 to 6.2.4; the Rust
//! Reference, "Names").
#![tactic(auto)]

mod laws;

pub use laws::{names_of_functions, names_of_modules};

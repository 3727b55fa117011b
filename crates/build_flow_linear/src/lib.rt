//! The body of a function in the order of its text: places, written statements and branches (ISO C99, 6.8).
#![tactic(auto)]

mod laws;

pub use laws::linear_code_stands;

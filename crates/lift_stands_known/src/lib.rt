//! Calls of external functions under the relation between the memory of a written crate and that of the C program that it is written for (ISO C99,
//! 7.20.3, 7.20.4 and 7.21): known functions, answers to allocations and to other calls, and texts. Each function here is a law of it.
#![tactic(auto)]

mod laws;

pub use laws::{answers_stand, known_functions_stand, texts_stand};

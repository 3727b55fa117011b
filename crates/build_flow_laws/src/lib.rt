//! The text that is written from the flow of a body does what the body of C does (ISO C99, 6.8 and 6.9.1).
#![tactic(auto)]

mod laws;

pub use laws::text_follows;

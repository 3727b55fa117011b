//! The temporaries of functions as code: those of held operands, and those from which zero bytes are copied to objects (ISO C99, 6.2.4, 6.5, 6.7.8).
#![tactic(auto)]

mod held;
mod temporaries;
mod types;
mod zeroed;

pub use temporaries::{held_in_body, temporaries_of, zeroed_objects};

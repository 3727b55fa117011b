//! Calls, as code: arguments, what is called, and what is written for a call, each equal to its definition (ISO C99, 6.5.2.2; the Rust Reference, "Call expressions").
#![tactic(auto)]

mod arguments;
mod called;
mod callees;
mod calls;

pub use arguments::{Argument, Arguments, argument_of};
pub use called::{Called, called_with};
pub use callees::{Callee, function_at};

//! The bodies of a written crate as code: the statements of functions by their flows and shapes, and of the initialisers of modules (ISO C99, 6.7.8, 6.9.1).
#![tactic(auto)]

mod bodies;
mod passed;
mod returns;
mod shapes;
mod statics;

pub use bodies::{BodyText, written_body};
pub use passed::Passed;
pub use statics::initialiser;

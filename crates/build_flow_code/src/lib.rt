//! The body of a function in the order of its text, as code: places, written statements and branches, equal to its definition (ISO C99, 6.8).
#![tactic(auto)]

mod body;
mod choices;
mod exprs;
mod labels;
mod parts;
mod places;
mod walk;

pub use body::{Body, Zeros};
pub use walk::body_code;

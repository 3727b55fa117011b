//! What the ends of declarations do to a scope: initialisers, and the heads and bodies of functions (ISO C99, 6.7.8, 6.9.1).
#![tactic(auto)]

mod bodies;
mod content;
mod literals;
mod names;
mod stores;

pub use bodies::{begin_body, define_function, end_body};
pub use content::{Content, complete};
pub use literals::literals_since;

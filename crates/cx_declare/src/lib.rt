//! Readers of specifiers, declarators and type names (ISO C99, 6.7) over the readers of their parts, which `below` is; and the
//! readers of all that may hold one another, at each depth.
//!
//! A function whose parameter is `depth` reads what has parts that are at most so many nodes deep; those of
//! `knot` read what is itself at most so deep.
#![tactic(auto)]

mod brackets;
mod declarators;
mod enumerators;
mod functions;
mod knot;
mod members;
mod specifiers;
mod type_names;

pub use knot::{declarator, expr, initialiser, specs_from};
pub use specifiers::ReadSpecs;

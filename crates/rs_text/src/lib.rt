//! What the Rust that is written is: its trees as plain data, which of them are crates, their tokens and
//! their text, and what files read as, with worked examples of each (the Rust Reference, "Items", "Statements
//! and expressions" and "Lexical structure", as far as the subset of the written crates goes). Here stand the
//! definitions; `rs_tree` has the trees as values, and the code that prints them.
#![tactic(auto)]

mod attribute;
mod integer;
mod line;
mod operator;

pub use attribute::Attribute;
pub use integer::IntegerTy;
pub use line::Line;
pub use operator::{Operator, Wrapping};

//! What is written in Rust for an expression of C: statements and then what gives its value, in the order in which operands go from the left, with a temporary
//! for each held operand and no other (ISO C99, 6.5; the Rust Reference, "Expressions" and "Statements").
#![tactic(auto)]

mod asked;
mod nodes;
mod walk;

pub use asked::{full, operand, operand_before, part_of};
pub use walk::{lifted, lifted_puts};

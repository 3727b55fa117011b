//! The syntax tree that the tokens of a C unit derive (ISO C99, 6.5 to 6.9).
#![tactic(auto)]

mod laws;
mod parser;

pub use laws::one_tree;
pub use parser::parse;

//! The syntax tree that the tokens of a C unit derive (ISO C99, 6.5 to 6.9).
#![tactic(auto)]

mod continuation;
mod cursor;
mod declarations;
mod declarators;
mod exprs;
mod fault;
mod laws;
mod listed;
mod measured;
mod nodes;
mod parser;
mod sight;
mod stmts;
mod units;

pub use laws::one_tree;
pub use parser::parse;

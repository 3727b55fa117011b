//! Readers of types, places and expressions of a written crate (the Rust Reference, "Types" and
//! "Expressions"). They read loosely: from tokens that derive no tree they read some tree, whose own tokens
//! are others.
#![tactic(auto)]

mod atoms;
mod cursor;
mod expr_nodes;
mod exprs;
mod lists;
mod numbers;
mod operands;
mod sign;
mod types;
mod words;

pub use cursor::Cursor;
pub use expr_nodes::place_of;
pub use exprs::expr;
pub use numbers::{literal, size_of};
pub use sign::Sign;
pub use types::{option_result, ty};

//! The Rust that is written: its trees, what they mean as text, and their printed lines (the Rust
//! Reference, "Items", "Statements and expressions" and "Lexical structure", as far as the subset of
//! the written crates goes).
#![tactic(auto)]

mod draft;
mod expressions;
mod files;
mod functions;
mod laws;
mod lines;
mod tree;

pub use files::{Files, Line};
pub use laws::returns_forty_two;
pub use lines::{cargo_lines, lines_of, main_lines, module_lines};
pub use tree::{
    Attribute, Crate, Function, Item, Local, Module, Operator, Outer, RExpr, RPath, RPlace, RStmt,
    RTy, Static,
};

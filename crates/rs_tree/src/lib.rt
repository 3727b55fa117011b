//! The Rust that is written as values: trees of the written crates, which trees of `rs_text` they are, and
//! their printed lines (the Rust Reference, "Items" and "Statements and expressions", as far as the subset of
//! the written crates goes).
#![tactic(auto)]

mod draft;
mod expr;
mod expr_text;
mod files;
mod item;
mod item_lines;
mod lines;
mod page;
mod stmt;
mod stmt_lines;
mod ty;
mod type_text;
mod words;

pub use expr::{RExpr, RPlace};
pub use files::Files;
pub use item::{Crate, Field, Function, Item, Local, Module, Outer, Record, Static};
pub use lines::{cargo_lines, lines_of, main_lines, module_lines};
pub use rs_text::{Attribute, IntegerTy, Line, Operator, Wrapping};
pub use stmt::{Arm, RStmt};
pub use ty::{RPath, RTy};

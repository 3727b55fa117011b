//! Readers of statements, items and modules of a written crate (the Rust Reference, "Statements" and "Items"). They
//! read loosely: from tokens that derive no tree they read some tree, whose own tokens are others.
#![tactic(auto)]

mod functions;
mod lists;
mod module_items;
mod parts;
mod records;
mod simple_stmts;
mod stmt_nodes;
mod stmts;

pub use module_items::items_of;

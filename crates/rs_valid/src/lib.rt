//! Which trees are crates of the subset.
#![tactic(auto)]

mod crates;
mod exprs;
mod items;
mod stmts;
mod types;
mod words;

pub use crates::{are_valid_items, have_main, have_valid_names, is_valid, valid_front};

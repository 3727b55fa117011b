//! Statements from other statements, as code, each equal to its definition: copies, labels by their depth, which labels
//! statements name, in which ways they end, and an `if` as it is written by hand (the Rust Reference, "Statements",
//! "if expressions" and "Loops and other breakable expressions").
#![tactic(auto)]

mod conditions;
mod copied;
mod copies;
mod ends;
mod ifs;
mod labels;
mod names;

pub use copies::copy_stmts;
pub use ifs::if_of;
pub use labels::{Labels, label_of};
pub use names::stmts_name;

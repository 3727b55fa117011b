//! The functions of the modules of a written crate, around bodies that are given (ISO C99, 6.9.1; the Rust Reference, "Functions").
#![tactic(auto)]

mod functions;
mod locals;
mod modules;

pub use functions::{WrittenBody, function_item};
pub use modules::{initialiser_item, module_with};

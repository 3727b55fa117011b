//! The names that the things of a C program have in the modules of a written crate (ISO C99, 6.2.1, 6.2.2; the Rust Reference, "Names"). They are made once, and kept by
//! unit.
#![tactic(auto)]

mod given;
mod table;
mod wanted;
mod whole;

pub use given::{ModuleNames, module_names};
pub use table::NameTable;
pub use wanted::wanted_name;
pub use whole::Whole;

//! The steps of a run of a crate over a store and a host (the Rust Reference, "Statements and
//! expressions").
#![tactic(auto)]

mod accesses;
mod events;
mod halt;
mod library;
mod machine;
mod outer;
mod outside;
mod steps;

pub use halt::{Halt, halt_of, halt_of_store};
pub use library::end_block;
pub use machine::Machine;
pub use outer::{copy_bytes, ended, outer_call};
pub use steps::{begin, load, store_at};

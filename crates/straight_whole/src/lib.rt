//! The translation of a whole program: its crate, which is well typed, has the program's items and behaves as the
//! program.
#![tactic(auto)]

mod called;
mod items;
mod laws;
mod outers;
mod tables;
mod translation;

pub use laws::example_is_translatable;
pub use translation::translate;

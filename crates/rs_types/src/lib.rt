//! Which crates of the written Rust are well typed, and how their types are laid out (the Rust Reference,
//! "Type system" and "Type layout").
#![tactic(auto)]

mod checked;
mod heads;
mod items;
mod known;
mod names;

pub use checked::{TypeFault, check_crate};
pub use rs_layout::{field_at, repr_c};

//! The static objects and the external functions of the modules of a written crate (ISO C99, 6.2.2, 6.2.4; the Rust Reference, "Static items" and "External blocks").
#![tactic(auto)]

mod outers;
mod statics;
mod symbols;

pub use outers::{extern_item, outers_of};
pub use statics::static_items;
pub use symbols::attribute_of;

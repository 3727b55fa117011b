//! The layouts of the records of types of which it isn't known that they can be laid out: it is tested.
#![tactic(auto)]

mod grounded;
mod layouts;

pub use layouts::layouts_of;

//! What stands around a place of a body in a run of a crate, and what expressions, calls and statements
//! find there (the Rust Reference, "Items", "Expressions" and "Statements").
#![tactic(auto)]

mod flow;
mod frames;
mod lookup;
mod scene;
mod signatures;
mod spots;
mod values;

pub use flow::{
    Flow, Turn, after_block, after_turn, breaks, chosen, continues, is_normal, returns_nothing,
};
pub use frames::{begin_frame, end_locals};
pub use scene::{HeldFunction, HeldLocal, HeldStatic, Scene, functions_of, statics_of};
pub use signatures::{accepts, called_as, given_by, retyped};
pub use spots::{field_spot, local_spot, static_spot, target_spot};
pub use values::{
    Pointed, literal, no_function, null_pointer, some_function, the_value, truth_value, unwrapped,
};

//! What calls, frames and bodies of a written crate owe those of the C program that it is written for (ISO C99, 6.5.2.2, 6.8 and 6.9.1). `specs/` has the
//! definitions; each function here is a law of them.
#![tactic(auto)]

mod laws;

pub use laws::{all_calls_owe, call_nodes_owe, calls_keep, promises_shrink, returns_meet};

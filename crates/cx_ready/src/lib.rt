//! The step of a node of an expression of C under evaluation that is ready itself, where it lies, over any store (ISO C99, 6.5 and 5.1.2.3).
#![tactic(auto)]

mod choices;
mod halt;
mod literals;
mod nodes;
mod operands;
mod parts;
mod ready;
mod stages;

pub use halt::{Halt, Progress};
pub use ready::{is_ready, node_step};

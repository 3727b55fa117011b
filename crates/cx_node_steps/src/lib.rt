//! What the step of a node gives whose operands are finished (ISO C99, 6.5), over any store.
#![tactic(auto)]

mod calls;
mod choices;
mod joins;
mod members;
mod nodes;
mod pointed;
mod updates;
mod whole;

pub use calls::{Calling, called_by_name, called_with, callee_numbered};
pub use choices::{Choice, chosen, tested, truth_of_value};
pub use joins::{unite, united};
pub use nodes::{operated, unary_done};
pub use pointed::called_by_pointer;
pub use updates::{Change, update_computed, update_converted, update_stored, updating};
pub use whole::{Both, Done, Loaded, assign_loaded, done_by_one, done_by_two, joined, step_loaded};

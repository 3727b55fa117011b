//! What the forms of expressions mean, by what their parts mean: typed expressions, made (ISO C99, 6.5). Each answer is refused
//! only for want of memory.
#![tactic(auto)]

mod calls;
mod casts;
mod choosing;
mod constants;
mod members;
mod names;
mod pointers;
mod trailing;

pub use calls::call_meaning;
pub use casts::cast_meaning;
pub use choosing::cond_meaning;
pub use constants::{int_meaning, no_meaning, number_meaning, size_meaning};
pub use members::{arrow_meaning, dot_meaning};
pub use names::name_meaning;
pub use pointers::{address_meaning, deref_meaning, index_meaning};
pub use trailing::trailing_types;

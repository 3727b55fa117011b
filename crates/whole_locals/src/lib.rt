//! The names of a function's parameters and locals, and what these have become while its body is written (ISO C99, 6.9.1, 6.2.4).
#![tactic(auto)]

mod blocks;
mod kept;
mod left;
mod names;
mod wanted;

pub use blocks::BlockObjects;
pub use kept::enter_function;
pub use left::leave_function;
pub use names::{LocalName, names_of};
pub use wanted::{LocalKey, WantedLocal, gives_record, object_is_record, wanted_in};

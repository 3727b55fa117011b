//! What gets a name in the modules of a written crate, in the order in which names are given, and the calls by name of a unit (ISO C99, 6.2.1 to 6.2.4, 6.5.2.2).
#![tactic(auto)]

mod body_calls;
mod called;
mod calls;
mod entries;
mod key;
mod keys;
mod places;

pub use body_calls::calls_of;
pub use called::Called;
pub use calls::NamedCall;
pub use entries::{has_params, is_entry, is_outer_named};
pub use key::NameKey;
pub use keys::{calls_malloc, entries_of, has_function, module_keys, numbers_named, things_of};
pub use places::Places;

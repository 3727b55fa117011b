//! What initialisers store (ISO C99, 6.7.8): what stands of an object after each value, what later values take away, and the puts
//! that are left in the order of their places.
#![tactic(auto)]

mod constants;
mod facts;
mod filling;
mod order;
mod paths;
mod puts;
mod stored;
mod taken;
mod targets;
mod texts;
mod values;

pub use constants::may_initialise;
pub use facts::assignable_at;
pub use filling::{fill, fill_text, fill_value, text_at, value_at};
pub use puts::{Filled, filled_object};
pub use stored::{Filling, Stored, Target};
pub use targets::{
    begin_list, is_text_target, list_at_text, next_at, object_target, part_target, whole_at,
};
pub use texts::fits_text;
pub use values::StoredValues;

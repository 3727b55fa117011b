//! What declarations do to a scope (ISO C99, 6.2.2, 6.2.7, 6.7 and 6.9): linkage, which declarations go together, and the objects and
//! functions of a unit.
#![tactic(auto)]

mod conflicts;
mod declaring;
mod linkage;
mod objects;
mod things;

pub use conflicts::{clashes, clashes_completed};
pub use declaring::{
    Declaring, add_meant, declare, declare_function, function_number, is_told, joined_type,
    object_number, told_mention,
};
pub use linkage::{is_external, is_linked, is_outside, is_typedef, linkage_of, lives_on};
pub use things::{beside_thing, thing_named};

//! Questions about the types of a unit, as the checks ask them (ISO C99, 6.2.5, 6.2.7 and 6.7.3). No answer takes memory.
#![tactic(auto)]

mod forms;
mod kinds;
mod known;
mod limits;
mod meeting;
mod qualifiers;
mod same;

pub use forms::{is_array, is_character_array, is_function, is_void, record_of, target_of};
pub use kinds::{
    has_size, is_complete, is_element_pointer, is_function_pointer, is_incomplete, is_integer,
    is_object_pointer, is_pointer, is_scalar, is_void_pointer, size_of,
};
pub use known::Known;
pub use limits::is_too_large;
pub use meeting::{alike, compatible, keeps_qualifiers, point_alike};
pub use qualifiers::{completed_count, holds_const, record_at};
pub use same::same_type;

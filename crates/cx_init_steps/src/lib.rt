//! The steps of the walk over initialisers: each value, string literal, list and designator with where it stands, the rule that it breaks
//! or what it stores (ISO C99, 6.7.8 and 6.5.2.5).
#![tactic(auto)]

mod designators;
mod landed;
mod lists;
mod literals;
mod texts;
mod values;

pub use designators::{element_seen, member_designated};
pub use lists::{is_text, list_begins, list_given, text_parts};
pub use literals::{literal_begins, literal_ended};
pub use texts::{text_given, whole_text};
pub use values::{value_given, whole_given};

//! Parts of an object that is initialised, by their paths: where values stand and land, and where designators lead (ISO C99,
//! 6.7.8).
#![tactic(auto)]

mod at;
mod designators;
mod following;
mod landing;
mod parts;
mod places;

pub use at::At;
pub use designators::{element_at, member_at};
pub use landing::Kind;
pub use parts::{has_element, is_union_type, part_type};
pub use places::{first_at, landed_at, next_at, whole_of, within};

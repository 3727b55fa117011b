//! Loads and stores of objects in a step of an expression of C, over any store (ISO C99, 6.2.4, 6.3.2.1,
//! 6.5p2, 6.5.16.1 and 6.7.2.1).
#![tactic(auto)]

mod cells;
mod kinds;
mod loads;
mod objects;
mod places;
mod ranges;
mod records;
mod setting;
mod stores;
mod trouble;
mod values;

pub use cells::put_record;
pub use kinds::{Kind, extent_of, kind_of, scalar_of};
pub use objects::{loaded, stored};
pub use places::{object_at, place_of, place_value};
pub use ranges::bits_of_bytes;
pub use setting::Setting;
pub use trouble::{Trouble, rule_of};
pub use values::{field_value, is_field_place, number_in, scalar_value, value_of_kind};

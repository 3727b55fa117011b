//! The end of a unit: its tentative definitions, and the typed unit (ISO C99, 6.9.2).
#![tactic(auto)]

mod mentions;
mod objects;
mod order;
mod places;
mod tentative;
mod types;
mod unit;

pub use tentative::unit_ended;
pub use unit::unit_of;

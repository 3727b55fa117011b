//! The objects that initialisers and compound literals fill, as code: where values are stored, and how an object becomes zero, each equal to its definition (ISO C99, 6.5.2.5, 6.7.8).
#![tactic(auto)]

mod covered;
mod parts;
mod zeros;

pub use covered::is_zeroed;
pub use parts::{part_place, part_target, put_in};
pub use zeros::zeroed;

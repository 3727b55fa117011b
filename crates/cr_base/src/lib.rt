//! The base of every crate: lists, boxes and texts that contracts see as what they hold, numbers of
//! the C types, names, places in a unit, and the rules of the C profile.
#![tactic(auto)]

mod boxed;
mod items;
mod layout;
mod memory;
mod name;
mod refusal;
mod rule;
mod scalar;
mod text;

pub use boxed::Boxed;
pub use items::Items;
pub use layout::{Front, Laid, MOST_BYTES, Piece, Spot, laid_record};
pub use memory::Memory;
pub use name::Name;
pub use refusal::{Place, Refusal, Stop};
pub use rule::{Rule, URule, rule_text};
pub use scalar::{Int, Scalar, convert, fits, wrap};
pub use text::Text;

//! Operators over numbers of C: what each gives in a type, or the rule by which it is undefined.
#![tactic(auto)]

mod binary;
mod ranges;
mod shifts;
mod unary;
mod why;
mod words;

pub use binary::binary_number;
pub use ranges::is_represented;
pub use unary::unary_number;
pub use why::Why;

//! The check of a unit (ISO C99, 6.7 to 6.9): the typed unit, or the first node of it that breaks a rule.
#![tactic(auto)]

mod calls;

pub use calls::check_unit;

//! Readers of declarations, statements and units (ISO C99, 6.7 to 6.9).
#![tactic(auto)]

mod declarations;
mod heads;
mod simple;
mod stmts;
mod units;

pub use units::read_unit;

//! The walk over the external declarations and statements of a unit, up to the first node that breaks a rule (ISO C99, 6.7 to 6.9).
#![tactic(auto)]

mod clauses;
mod functions;
mod statements;

pub use functions::externals;

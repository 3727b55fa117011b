//! The place at which a walk over a unit stands: its scope, with the layouts of its types; and what a step of the walk answers.
#![tactic(auto)]

mod changes;
mod context;
mod laws;
mod numbers;
mod parts;
mod records;
mod steps;

pub use changes::Begun;
pub use context::Context;
pub use laws::none_is_laid;
pub use numbers::LiteralBegun;

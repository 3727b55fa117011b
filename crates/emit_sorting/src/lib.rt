//! The nests of a shape, with what stands in their arms, as code, equal to its definition: lists of nests are gone through once for
//! each level.
#![tactic(auto)]

mod chaining;
mod filling;
mod levels;
mod makers;
mod sorting;

pub use sorting::nests_of;

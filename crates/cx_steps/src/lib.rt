//! The steps of a run of C over a store and a host (ISO C99, 5.1.2.3, 6.5 and 6.8).
#![tactic(auto)]

mod bodies;
mod entry;
mod evaluating;
mod params;
mod step;
mod uses;

pub use step::take_some;

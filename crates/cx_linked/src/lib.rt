//! The program of typed units (ISO C99, 5.1.1.1, 6.2.2p2): what has external linkage and one name is one thing.
#![tactic(auto)]

mod found;
mod index;
mod named;
mod numbers;
mod orders;
mod parts;
mod program;

pub use program::{link, program_of};

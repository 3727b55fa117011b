//! Laws of what the names of a whole written crate mean (ISO C99, 6.2.1 and 6.2.5; the Rust Reference, "Paths" and "Type layout"): each item is found by its name, and it is what it
//! stands for. The functions do nothing: their contracts are the laws.
#![tactic(auto)]

mod laws;

pub use laws::{
    bares_mean, entries_mean, names_mean, names_of_bodies, outers_mean, programs_agree,
};

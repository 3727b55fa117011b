//! The items of a whole written crate: what stands in the module of each unit, but for the bodies of its functions (ISO C99, 6.2.2 and 6.9; the Rust Reference, "Items").
#![tactic(auto)]

mod laws;

pub use laws::bodies_are_inside;

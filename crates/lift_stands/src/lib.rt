//! When the memory of a written crate stands for that of the C program that it is written for, and what keeps it so (ISO C99, 6.2.4, 6.2.6 and
//! 7.20.3). `specs/` has the relation; each function here is a law of it.
#![tactic(auto)]

mod laws;

pub use laws::{
    images_grow, loads_stand, pieces_keep_others, same_pointers_stay, stays_below, stores_stand,
};

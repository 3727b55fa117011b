//! Lives of objects under the relation between the memory of a written crate and that of the C program that it is written for (ISO C99, 6.2.4 and
//! 7.20.3): what begins, what dies, what is vacant, and what each such step leaves of what isn't its own. Each function here is a law of it.
#![tactic(auto)]

mod laws;

pub use laws::{
    held_lives_stand, lives_stand, steps_keep_others, stores_leave, vacant_stays, worlds_begin,
};

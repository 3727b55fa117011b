//! The text of a body follows the body, from what is known of its parts where they are written (ISO C99, 6.8 and 6.9.1).
#![tactic(auto)]

mod laws;

pub use laws::bodies_follow;

//! One step of an expression of C under evaluation, at any of its ready nodes, and several at once, over any store (ISO C99, 6.5 and 5.1.2.3).
#![tactic(auto)]

mod pass;
mod step;
mod walk;

pub use step::{Last, Next, take_step, take_step_in, take_steps_in};

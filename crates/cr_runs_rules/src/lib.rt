//! More rules by which it is shown what one run under a bound owes another: steps and units under every pair
//! of bounds, pieces that take a step, where a source waits, and ends of whole programs.
#![tactic(auto)]

mod laws;

pub use laws::{
    alone, halted_owe, pieces_taken, source_goes_on, tick_target, ticks_by, together, unit_alone,
};

//! What the step of a statement of C does that is reached, over any store (ISO C99, 6.8, 6.2.4p5 and 6.7.8).
#![tactic(auto)]

mod declarations;
mod opening;
mod shapes;
mod statements;

pub use opening::{beginning, reached};
pub use shapes::{Shape, shape_of};

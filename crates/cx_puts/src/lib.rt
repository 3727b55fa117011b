//! What initialisers do to objects that aren't static, over any store (ISO C99, 6.2.4p5, 6.5.2.5 and 6.7.8): an object is
//! cleared where its declaration or its compound literal is reached, and the values of its puts are stored in it.
#![tactic(auto)]

mod bits;
mod clearing;
mod parts;
mod storing;

pub use clearing::{Cleared, clear_object};
pub use storing::store_put;

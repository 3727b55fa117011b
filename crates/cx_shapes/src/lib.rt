//! What specifiers and declarators say (ISO C99, 6.7.1 to 6.7.5): the types that they give, and the lines on which they stand.
#![tactic(auto)]

mod derivation;
mod forms;
mod lines;
mod specifiers;
mod steps;
mod words;

pub use derivation::derived;
pub use lines::{declarator_line, expr_line, own_line, specs_line};
pub use specifiers::Specs;
pub use steps::{Shape, Step, pointer_step};
pub use words::{has_word, same_key};

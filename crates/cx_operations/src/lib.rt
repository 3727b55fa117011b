//! Operators and conversions over the values of operands of C, pointers among them, over any store (ISO C99, 6.3 and
//! 6.5).
#![tactic(auto)]

mod conversions;
mod numbers;
mod pointers;
mod truths;

pub use conversions::converted_value;
pub use numbers::unary_value;
pub use pointers::{binary_value, pointer_trouble};
pub use truths::is_true;

//! What operators and assignments mean, by what their operands mean: typed expressions, made (ISO C99, 6.5.3.3, 6.5.5 to 6.5.14,
//! 6.5.16 and 6.5.17). Each answer is refused only for want of memory.
#![tactic(auto)]

mod arithmetic;
mod assignments;
mod operands;
mod operators;
mod truths;
mod types;

pub use arithmetic::{fitted_value, promoted_value};
pub use assignments::{assign_by_meaning, assign_meaning, step_meaning};
pub use operands::{a_place, a_value, of_kind};
pub use operators::{binary_meaning, by_pairing, unary_meaning};
pub use truths::{and_meaning, comma_meaning, or_meaning};
pub use types::{common_ty, promoted_ty, ty_of};

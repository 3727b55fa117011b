//! Values of operands, built: what an lvalue holds, and what values are converted to (ISO C99, 6.3). Each answer is
//! refused only for want of memory.
#![tactic(auto)]

mod converted;
mod types;
mod values;

pub use converted::{converted_to, dropped, fitted, promoted_value};
pub use types::unqualified_copy;
pub use values::value_of;

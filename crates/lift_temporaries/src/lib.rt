//! The temporaries of expressions, as code: one for each held operand, with its type and its name (ISO C99, 6.5).
#![tactic(auto)]

mod types;

pub use types::{held_types, held_types_in_puts};

//! The checks of expressions, type names and initialisers (ISO C99, 6.5 and 6.7): what they mean, or the first node that breaks a rule.
#![tactic(auto)]

mod calls;

pub use calls::{check_expr, constant, init, read_type};

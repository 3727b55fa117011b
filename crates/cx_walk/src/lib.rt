//! The walk over expressions, type names, specifiers, declarators and initialisers, which hold one another (ISO C99, 6.5 and 6.7): what each
//! means at a place, or the first node of it that breaks a rule.
#![tactic(auto)]

mod declared;
mod initialisers;
mod walk;

pub use declared::type_in;
pub use initialisers::{initialiser, stored_for};
pub use walk::{declarator, expr, option_expr, specifiers, type_name};

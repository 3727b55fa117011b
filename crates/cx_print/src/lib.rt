//! The tokens and the depth of a C unit's syntax tree (ISO C99, 6.5 to 6.9).
#![tactic(auto)]

mod depths;
mod tokens;

pub use depths::depth;
pub use tokens::tokens_of;

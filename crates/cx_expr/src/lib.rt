//! Readers of expressions and of initialisers (ISO C99, 6.5 and 6.7.8), over the readers of their parts, which `below` is; and
//! what the readers of all that may hold one another are (6.5 to 6.7).
//!
//! A function whose parameter is `depth` reads what has parts that are at most so many nodes deep: those that
//! `below` gives are.
#![tactic(auto)]

pub mod below;
mod climbing;
mod exprs;
mod initialisers;
mod nodes;
mod primaries;
mod tails;
mod typed;
mod wanted;

pub use exprs::expr_from;
pub use initialisers::{initialiser, list_from};
pub use nodes::{
    ReadDeclarator, ReadEnumerator, ReadExpr, ReadInitialiser, ReadMember, ReadMemberDeclarator,
    ReadParam, ReadSpec, ReadTypeName, spec_of,
};
pub use wanted::{Found, Wanted};

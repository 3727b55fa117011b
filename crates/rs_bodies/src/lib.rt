//! What the bodies of functions do: expressions, places, calls and statements, which hold one another (the Rust Reference, "Statements and
//! expressions").
#![tactic(auto)]

mod calls;
mod exprs;
mod places;
mod stmts;

pub use calls::call_found;

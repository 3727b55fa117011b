//! The kinds of the values of the written Rust, and which of its statements are well typed (the Rust Reference,
//! "Type system" and "Statements and expressions").
#![tactic(auto)]

mod exprs;
mod forms;
mod kind;
mod operands;
mod scope;
mod signature;
mod stands;
mod stmts;

pub use scope::{HeldScope, Labels};
pub use stands::{is_scalar_type, params_stand, result_stands, type_stands};
pub use stmts::stmts_typed;

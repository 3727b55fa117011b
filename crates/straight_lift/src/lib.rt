//! Lifting: the statements of a crate that are written for an expression and for a statement of a C program,
//! and that they do what it does.
#![tactic(auto)]

mod atom;
mod laws;
mod lifting;
mod names;
mod nodes;
mod parts;
mod statements;
mod written;

pub use atom::Atom;
pub use laws::{
    bodies_dont_matter, bodies_give, lifted_expression, lifted_statement, lifted_statements,
    numbers_stay, silent_statements,
};
pub use lifting::lift;
pub use names::{Known, NameTable};
pub use parts::object_place;
pub use statements::lift_stmt;
pub use written::{Written, WrittenArgs, WrittenStmts};

//! What is written for the nodes of an expression by what is written for their parts, as code, each equal to its definition (ISO C99, 6.5; the Rust Reference, "Expressions" and "Statements").
#![tactic(auto)]

mod branches;
mod choices;
mod leaves;
mod operators;
mod stores;

pub use branches::{Deciding, decided_node};
pub use choices::{Choice, chosen_node};
pub use leaves::{address_given, deref_given, function_given, load_given, member_given};
pub use operators::{binary_node, converted_node, literal_begun, unary_node};
pub use stores::{assigned, assigned_by, stepped_by_one};

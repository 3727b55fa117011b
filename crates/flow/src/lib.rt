//! The flow of a function's body: nodes of statements of the written Rust, each with a branch to other nodes, as
//! values, as plain trees, and as a machine, and the graph of a flow (ISO C99, 6.8; the Rust Reference,
//! "Statements and expressions").
#![tactic(auto)]

mod flows;
mod graphs;

pub use flows::{Branch, Case, Flow, FlowNode};
pub use graphs::{graph_of, targets_of};

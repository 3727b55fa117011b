//! The statements of nests of the nodes of a flow, as code, equal to their definition: ways by labels, branches, blocks and
//! loops (the Rust Reference, "Loops and other breakable expressions").
#![tactic(auto)]

mod blocks;
mod bodies;
mod branches;
mod nests;
mod nodes;
mod scopes;
mod ways;

pub use bodies::body_of;

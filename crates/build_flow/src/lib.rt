//! The flow of the body of a function: the nodes to which control may come, each with its statements of Rust and its branch (ISO C99, 6.8).
#![tactic(auto)]

mod bodies;

pub use bodies::flow_of;

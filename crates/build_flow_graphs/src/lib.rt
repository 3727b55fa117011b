//! The graphs of the flows of bodies: the entry and the ends of their edges are nodes, and each node is reached from the entry (ISO C99, 6.8).
#![tactic(auto)]

mod laws;

pub use laws::bodies_flow;

//! The shape of a control flow graph: loops and labelled blocks, with a dispatch exactly where the graph is
//! irreducible.
#![tactic(auto)]

mod flow;
mod graph;
mod heads;
mod laws;
mod makers;
mod marks;
mod parts;
mod plan;
mod relooper;
mod search;
mod shapes;
mod sources;

pub use flow::is_flow;
pub use graph::{Graph, Row};
pub use laws::{each_node_stands, parts_are_a_partition, reducible_has_no_dispatch};
pub use relooper::shape;
pub use shapes::Shape;

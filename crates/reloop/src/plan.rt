//! What a shape is made from.

use crate::graph::{Graph, Row};

/// A graph, for each node the nodes from which edges go to it, and all nodes in the order in which they are
/// reached from the entry.
#[derive(Clone, Copy)]
pub(crate) struct Plan<'a> {
    pub(crate) graph: &'a Graph,
    pub(crate) sources: &'a [Row],
    pub(crate) order: &'a [u32],
}

//! Control flow graphs.

use cr_base::Items;

/// The nodes that the edges of a node go to, by their numbers.
#[derive(Drop)]
pub struct Row {
    pub to: Items<u32>,
}

/// A control flow graph: a row for each node, by its number from 0 on, and the node that is entered from
/// outside.
#[derive(Drop)]
pub struct Graph {
    pub next: Items<Row>,
    pub entry: u32,
}

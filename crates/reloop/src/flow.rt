//! Whether a graph is one that control flows through.

ghost use Rattle.std.specs.Prelude.{◌≡◌, true, IfOk};
ghost use Rattle.reloop.specs.Checks.{are_below, all_below, all_marked};
ghost use Rattle.reloop.specs.Graphs.{graph_view, IsFlow};
ghost use Rattle.reloop.specs.Searches.{ends_of};

use crate::graph::{Graph, Row};
use crate::marks::all_marks;
use crate::search::search;
use cr_base::Memory;
use std::alloc::Global;

// Whether these are nodes of so many.
fn are_nodes(nodes: &[u32], count: usize) -> bool
    ensures { result ≡ are_below count nodes.now }
{
    for &node in nodes {
        if node as usize >= count {
            return false;
        }
    }
    true
}

// Whether the ends of all edges are nodes of so many.
fn end_at_nodes(rows: &[Row], count: usize) -> bool
    ensures { result ≡ all_below count (ends_of rows.now) }
{
    for row in rows {
        if !are_nodes(row.to.as_slice(), count) {
            return false;
        }
    }
    true
}

// Whether all nodes are marked.
fn are_marked(marks: &[bool]) -> bool
    ensures { result ≡ all_marked marks.now }
{
    for &mark in marks {
        if !mark {
            return false;
        }
    }
    true
}

/// Whether the entry and the ends of the edges of a graph are nodes, and every node is reached from the entry.
///
/// # Errors
///
/// `Memory`: the allocator gave no memory.
pub fn is_flow(alloc: Global, graph: &Graph) -> Result<bool, Memory>
    ensures flow { IfOk result (λ is. is ≡ true → IsFlow (graph_view graph.now)) }
    ensures only { IfOk result (λ is. IsFlow (graph_view graph.now) → is ≡ true) }
{
    let next = graph.next.as_slice();
    if graph.entry as usize >= next.len() {
        return Ok(false);
    }
    if !end_at_nodes(next, next.len()) {
        return Ok(false);
    }
    let all = all_marks(alloc, next.len())?;
    let found = search(alloc, next, all.as_slice(), graph.entry)?;
    Ok(are_marked(found.marks.as_slice()))
}

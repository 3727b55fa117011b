//! What may stand in a loop.

ghost use Rattle.std.specs.Prelude.{◌≡◌, ◌==◌, ◌&&◌, ◌||◌, map, IfOk};
ghost use Rattle.emit_nests.specs.Views.{nest_view};
ghost use Rattle.emit_rules.specs.Nests.{chain, chain_nodes};
ghost use Rattle.emit_rules.specs.Places.{any_outside, gives_back, goes_to, is_empty, is_gives, is_left_at_a_test, node_gives};
ghost use Rattle.emit_rules.specs.Sorting.{holds};
ghost use Rattle.flow.specs.Flows.{node_at, targets_of};
ghost use Rattle.flow.specs.Views.{branch_view, flow_view};
ghost use Rattle.rs_text.specs.Tree.{stmts};
ghost use Rattle.rs_tree.specs.Views.{stmt_view};

use crate::nodes::chain_nodes;
use cr_base::{Items, Memory};
use emit_nests::{Nest, is_among};
use flow::{Branch, Flow, targets_of};
use rs_tree::RStmt;
use std::alloc::Global;

// Whether one of these nodes isn't in a list.
fn any_outside(nodes: &[u32], others: &[u32]) -> bool
    ensures { result ≡ any_outside nodes.now others.now }
{
    for &other in others {
        if !is_among(other, nodes) {
            return true;
        }
    }
    false
}

// Whether a loop is left from a node that is its head or goes round to that.
fn leaves_at_a_test(
    alloc: Global,
    flow: &Flow,
    head: u32,
    nodes: &[u32],
    node: u32,
) -> Result<bool, Memory>
    ensures { IfOk result (λ leaves. leaves ≡ ((node == head || goes_to (flow_view flow.now) head node) && any_outside nodes.now (targets_of (flow_view flow.now) node))) }
{
    let targets = targets_of(alloc, flow, node)?;
    if node == head || is_among(head, targets.as_slice()) {
        return Ok(any_outside(nodes, targets.as_slice()));
    }
    Ok(false)
}

// Whether a loop is left as a `while` or a `do` is: from its head, or from a node that goes round to that.
fn is_left_at_a_test(alloc: Global, flow: &Flow, head: u32, nodes: &[u32]) -> Result<bool, Memory>
    ensures { IfOk result (λ is_left. is_left ≡ is_left_at_a_test (flow_view flow.now) head nodes.now) }
{
    for &node in nodes {
        if leaves_at_a_test(alloc, flow, head, nodes, node)? {
            return Ok(true);
        }
    }
    Ok(false)
}

fn is_gives(branch: &Branch) -> bool
    ensures { result ≡ is_gives (branch_view branch.now) }
{
    match branch {
        Branch::Go(_) => false,
        Branch::If(_, _, _) => false,
        Branch::Switch { .. } => false,
        Branch::Return(_) => true,
    }
}

fn is_empty(body: &Items<RStmt>) -> bool
    ensures { result ≡ is_empty (stmts (map stmt_view body.now)) }
{
    body.is_empty()
}

// Whether a node is a `return` alone.
fn node_gives(flow: &Flow, node: u32) -> bool
    ensures { result ≡ node_gives (node_at (flow_view flow.now) node) }
{
    match flow.nodes.get(node as usize) {
        Some(node) => is_empty(&node.body) && is_gives(&node.last),
        None => false,
    }
}

// Whether a nest is a node with nothing but a `return`.
fn gives_back(flow: &Flow, nest: &Nest) -> bool
    ensures { result ≡ gives_back (flow_view flow.now) (nest_view nest.now) }
{
    match nest {
        Nest::Single { node, .. } => node_gives(flow, *node),
        Nest::Choice { .. } => false,
        Nest::Group(_) => false,
        Nest::Repeated { .. } => false,
        Nest::Dispatched { .. } => false,
    }
}

// Whether a loop holds what it is left for.
fn loop_holds(
    alloc: Global,
    flow: &Flow,
    head: u32,
    body: &Items<Nest>,
    inner: &Nest,
) -> Result<bool, Memory>
    ensures { IfOk result (λ holds. holds ≡ (gives_back (flow_view flow.now) (nest_view inner.now) || is_left_at_a_test (flow_view flow.now) head (chain_nodes (chain (map nest_view body.now))))) }
{
    if gives_back(flow, inner) {
        return Ok(true);
    }
    let nodes = chain_nodes(alloc, body)?;
    is_left_at_a_test(alloc, flow, head, nodes.as_slice())
}

/// Whether a nest holds what it is left for from one arm.
pub(crate) fn holds(
    alloc: Global,
    flow: &Flow,
    around: &Nest,
    inner: &Nest,
    is_direct: bool,
) -> Result<bool, Memory>
    ensures { IfOk result (λ made. made ≡ holds (flow_view flow.now) (nest_view around.now) (nest_view inner.now) is_direct) }
{
    match around {
        Nest::Repeated { head, body } if !is_direct => loop_holds(alloc, flow, *head, body, inner),
        _ => Ok(true),
    }
}

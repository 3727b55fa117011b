//! The graph of a flow.

ghost use Rattle.std.specs.Prelude.{◌≡◌, map, IfOk};
ghost use Rattle.flow.specs.Flows.{graph_of, node_targets, targets, targets_of, case_targets, IsClosed};
ghost use Rattle.flow.specs.Views.{flow_view, node_view, branch_view, case_view};
ghost use Rattle.reloop.specs.Graphs.{graph_view};
ghost use Rattle.reloop.specs.Searches.{ends_of};

use crate::flows::{Branch, Case, Flow, FlowNode};
use cr_base::{Items, Memory};
use reloop::{Graph, Row};
use std::alloc::Global;

// The targets of cases.
fn case_targets(alloc: Global, cases: &[Case]) -> Result<Items<u32>, Memory>
    ensures { IfOk result (λ to. to ≡ case_targets (map case_view cases.now)) }
{
    let mut to = Items::new(alloc);
    for case in cases {
        to.push(case.to)?;
    }
    Ok(to)
}

// The targets of a branch, in its order.
fn targets(alloc: Global, branch: &Branch) -> Result<Items<u32>, Memory>
    ensures { IfOk result (λ to. to ≡ targets (branch_view branch.now)) }
{
    match branch {
        Branch::Go(to) => Items::from_slice(alloc, &[*to]),
        Branch::If(_, if_true, if_false) => Items::from_slice(alloc, &[*if_true, *if_false]),
        Branch::Switch { cases, other, .. } => {
            let mut to = case_targets(alloc, cases.as_slice())?;
            to.push(*other)?;
            Ok(to)
        }
        Branch::Return(_) => Ok(Items::new(alloc)),
    }
}

/// The nodes to which the node of a number goes.
///
/// # Errors
///
/// `Memory`: the allocator gave no memory.
#[tactic(auto, using(crate::proofs::Got::got))]
pub fn targets_of(alloc: Global, flow: &Flow, number: u32) -> Result<Items<u32>, Memory>
    ensures { IfOk result (λ to. to ≡ targets_of (flow_view flow.now) number) }
{
    match flow.nodes.get(number as usize) {
        Some(node) => targets(alloc, &node.last),
        None => Ok(Items::new(alloc)),
    }
}

// The row of each node.
fn rows(alloc: Global, nodes: &[FlowNode]) -> Result<Items<Row>, Memory>
    ensures { IfOk result (λ rows. ends_of rows ≡ map node_targets (map node_view nodes.now)) }
{
    let mut rows = Items::new(alloc);
    for node in nodes {
        rows.push(Row {
            to: targets(alloc, &node.last)?,
        })?;
    }
    Ok(rows)
}

/// The graph of a flow: each node's row lists the targets of its branch, in its order.
///
/// # Errors
///
/// `Memory`: the allocator gave no memory.
pub fn graph_of(alloc: Global, flow: &Flow) -> Result<Graph, Memory>
    requires { IsClosed (flow_view flow.now) }
    ensures { IfOk result (λ graph. graph_view graph ≡ graph_of (flow_view flow.now)) }
{
    let next = rows(alloc, flow.nodes.as_slice())?;
    Ok(Graph {
        next,
        entry: flow.entry,
    })
}

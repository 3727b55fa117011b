//! Ways out of nests.

ghost use Rattle.std.specs.Prelude.{◌≡◌, true, map, IfOk};
ghost use Rattle.emit_nests.specs.Views.{nest_view};
ghost use Rattle.emit_rules.specs.Places as places;
ghost use Rattle.emit_rules.specs.Places.{is_inner};
ghost use Rattle.emit_places.specs.Places.{held_by, leaving_view};
ghost use Rattle.flow.specs.Flows.{targets_of};
ghost use Rattle.flow.specs.Views.{flow_view};

use crate::nodes::chain_nodes;
use cr_base::{Items, Memory};
use emit_nests::{Nest, is_among};
use flow::{Flow, targets_of};
use std::alloc::Global;

/// A way out of a nest: an arm of a node's branch, the node to which it goes, and whether that may stand in this arm.
#[derive(Clone, Copy)]
pub(crate) struct Leaving {
    pub(crate) node: u32,
    pub(crate) arm: usize,
    pub(crate) to: u32,
    pub(crate) may_hold: bool,
}

// The ways out of a node by its arms.
fn node_ways(
    alloc: Global,
    may_hold: bool,
    node: u32,
    targets: &[u32],
) -> Result<Items<Leaving>, Memory>
    ensures { IfOk result (λ ways. map leaving_view ways ≡ places.leavings_from may_hold node 0 targets.now) }
{
    let mut ways = Items::new(alloc);
    for (arm, &to) in targets.iter().enumerate() {
        ways.push(Leaving {
            node,
            arm,
            to,
            may_hold,
        })?;
    }
    Ok(ways)
}

// Whether others may stand in the arms of a node of a loop of a head, whose branch has these targets; without a head they may not.
fn may_hold(head: Option<u32>, node: u32, targets: &[u32], _flow: &Flow) -> bool
    requires { targets.now ≡ targets_of (flow_view _flow.now) node }
    ensures { result ≡ held_by (flow_view _flow.now) head node }
{
    match head {
        None => false,
        Some(head) => node != head && !is_among(head, targets),
    }
}

// The ways out of some nodes, where a loop of this head is around them, or none.
fn ways_of_nodes(
    alloc: Global,
    flow: &Flow,
    head: Option<u32>,
    nodes: &[u32],
) -> Result<Items<Leaving>, Memory>
    ensures { IfOk result (λ ways. map leaving_view ways ≡ places.node_leavings (flow_view flow.now) (held_by (flow_view flow.now) head) nodes.now) }
{
    let mut ways = Items::new(alloc);
    for &node in nodes {
        let targets = targets_of(alloc, flow, node)?;
        let may_hold = may_hold(head, node, targets.as_slice(), flow);
        ways.append(node_ways(alloc, may_hold, node, targets.as_slice())?)?;
    }
    Ok(ways)
}

/// The ways out of a nest in whose arms nothing stands yet.
pub(crate) fn leavings(alloc: Global, flow: &Flow, nest: &Nest) -> Result<Items<Leaving>, Memory>
    ensures { IfOk result (λ ways. map leaving_view ways ≡ places.leavings (flow_view flow.now) (nest_view nest.now)) }
{
    match nest {
        Nest::Single { node, .. } => {
            let targets = targets_of(alloc, flow, *node)?;
            node_ways(alloc, true, *node, targets.as_slice())
        }
        Nest::Choice { heads, .. } => node_ways(alloc, true, 0, heads.as_slice()),
        Nest::Group(members) => {
            let nodes = chain_nodes(alloc, members)?;
            ways_of_nodes(alloc, flow, None, nodes.as_slice())
        }
        Nest::Repeated { head, body } => {
            let nodes = chain_nodes(alloc, body)?;
            ways_of_nodes(alloc, flow, Some(*head), nodes.as_slice())
        }
        Nest::Dispatched { body, .. } => {
            let nodes = chain_nodes(alloc, body)?;
            ways_of_nodes(alloc, flow, None, nodes.as_slice())
        }
    }
}

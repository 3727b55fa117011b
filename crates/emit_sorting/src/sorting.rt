//! Lists of nests, with what goes inside of them.

ghost use Rattle.std.specs.Prelude.{◌≡◌, length, map, IfOk};
ghost use Rattle.emit_nests.specs.Views.{chain_view, chains, nest_view};
ghost use Rattle.emit_rules.specs.Nests.{chain, listed};
ghost use Rattle.emit_rules.specs.Sorting.{all_filled, arms_from, at_arm, behind_nodes, filled, nests_of, sorted_within};
ghost use Rattle.emit_places.specs.Sorted.{inner_view, sibling_view};
ghost use Rattle.emit_sorting.specs.Chained.{ranked_view};
ghost use Rattle.flow.specs.Flows.{targets_of};
ghost use Rattle.flow.specs.Views.{flow_view};
ghost use Rattle.reloop.specs.Shapes.{shape_view};

use crate::chaining::{Ranked, chained};
use crate::filling::{at_arm, behind_nodes, entries_behind};
use crate::levels::{all_level, arranged};
use crate::makers::{choice, dispatched, group, repeated, single};
use cr_base::{Boxed, Items, Memory};
use emit_nests::{Chain, Nest, flat};
use emit_places::{Inner, Sibling, put_all};
use flow::{Flow, targets_of};
use reloop::Shape;
use std::alloc::Global;

/// How deep nests stand in one another.
const MOST_DEPTH: u32 = 30;

// A list is sorted, and what goes inside of its nests, so deep.
#[cycle(sorting)]
fn sort(
    alloc: Global,
    flow: &Flow,
    depth: u32,
    after: &[u32],
    nests: &Items<Nest>,
) -> Result<Items<Nest>, Memory>
    ensures { IfOk result (λ made. chain (map nest_view made) ≡ sorted_within (flow_view flow.now) depth after.now (map nest_view nests.now)) }
{
    if depth == 0 {
        let plain = all_level(alloc, flow, nests)?;
        return arranged(alloc, flow, after, plain.as_slice());
    }
    let siblings = put_all(alloc, flow, true, after, nests.as_slice())?;
    let ranked = all_filled(alloc, flow, depth - 1, after, &siblings)?;
    chained(alloc, ranked)
}

// The nests of a list with what goes inside of them, sorted so deep.
#[cycle(sorting)]
fn all_filled(
    alloc: Global,
    flow: &Flow,
    depth: u32,
    after: &[u32],
    siblings: &Items<Sibling>,
) -> Result<Items<Ranked>, Memory>
    ensures { IfOk result (λ made. map ranked_view made ≡ all_filled (flow_view flow.now) (sorted_within (flow_view flow.now) depth) after.now (map sibling_view siblings.now)) }
{
    let mut made = Items::new(alloc);
    let mut next = 0;
    for sibling in siblings.as_slice() {
        next += 1;
        let behind = entries_behind(alloc, after, siblings.as_slice(), next)?;
        made.push(ranked_of(alloc, flow, depth, behind.as_slice(), sibling)?)?;
    }
    Ok(made)
}

#[cycle(sorting)]
fn ranked_of(
    alloc: Global,
    flow: &Flow,
    depth: u32,
    after: &[u32],
    sibling: &Sibling,
) -> Result<Ranked, Memory>
    ensures { IfOk result (λ made. ranked_view made ≡ record {
      nest = filled (flow_view flow.now) (sorted_within (flow_view flow.now) depth) after.now (nest_view sibling.now.nest) (map inner_view sibling.now.inside);
      from = sibling.now.from;
    }) }
{
    let nest = filled(
        alloc,
        flow,
        depth,
        after,
        &sibling.nest,
        sibling.inside.as_slice(),
    )?;
    Ok(Ranked {
        nest: nest.into_inner(),
        from: sibling.from,
    })
}

// A nest with what goes inside, sorted so deep.
#[cycle(sorting)]
fn filled(
    alloc: Global,
    flow: &Flow,
    depth: u32,
    after: &[u32],
    nest: &Nest,
    inside: &[Inner],
) -> Result<Boxed<Nest>, Memory>
    ensures { IfOk result (λ made. nest_view made ≡ filled (flow_view flow.now) (sorted_within (flow_view flow.now) depth) after.now (nest_view nest.now) (map inner_view inside.now)) }
{
    match nest {
        Nest::Single { node, .. } => {
            let arms = node_arms(alloc, flow, depth, after, inside, *node)?;
            single(alloc, *node, arms)
        }
        Nest::Choice { heads, .. } => {
            let arms = head_arms(alloc, flow, depth, after, inside, heads)?;
            choice(alloc, heads.as_slice(), arms)
        }
        Nest::Group(members) => {
            let members = body_of(alloc, flow, depth, after, members, inside)?;
            group(alloc, members)
        }
        Nest::Repeated { head, body } => {
            let body = body_of(alloc, flow, depth, &[], body, inside)?;
            repeated(alloc, *head, body)
        }
        Nest::Dispatched { heads, body } => {
            let body = body_of(alloc, flow, depth, &[], body, inside)?;
            dispatched(alloc, heads.as_slice(), body)
        }
    }
}

// Nests with what goes behind their nodes, sorted so deep.
#[cycle(sorting)]
fn body_of(
    alloc: Global,
    flow: &Flow,
    depth: u32,
    after: &[u32],
    nests: &Items<Nest>,
    inside: &[Inner],
) -> Result<Items<Nest>, Memory>
    ensures { IfOk result (λ made. chain (map nest_view made) ≡ sorted_within (flow_view flow.now) depth after.now (behind_nodes (listed (chain (map nest_view nests.now))) (map inner_view inside.now))) }
{
    let list = behind_nodes(alloc, nests.as_slice(), inside)?;
    sort(alloc, flow, depth, after, &list)
}

// The arms of a node, with what goes into them, sorted so deep.
#[cycle(sorting)]
fn node_arms(
    alloc: Global,
    flow: &Flow,
    depth: u32,
    after: &[u32],
    inside: &[Inner],
    node: u32,
) -> Result<Items<Chain>, Memory>
    ensures { IfOk result (λ made. chains (map chain_view made) ≡ arms_from (sorted_within (flow_view flow.now) depth) after.now (map inner_view inside.now) 0 (length (targets_of (flow_view flow.now) node))) }
{
    let targets = targets_of(alloc, flow, node)?;
    head_arms(alloc, flow, depth, after, inside, &targets)
}

// An arm for each of these nodes, with what goes into it, sorted so deep.
#[cycle(sorting)]
fn head_arms(
    alloc: Global,
    flow: &Flow,
    depth: u32,
    after: &[u32],
    inside: &[Inner],
    heads: &Items<u32>,
) -> Result<Items<Chain>, Memory>
    ensures { IfOk result (λ made. chains (map chain_view made) ≡ arms_from (sorted_within (flow_view flow.now) depth) after.now (map inner_view inside.now) 0 (length heads.now)) }
{
    let mut made = Items::new(alloc);
    for arm in 0..heads.len() {
        made.push(arm_of(alloc, flow, depth, after, inside, arm)?)?;
    }
    Ok(made)
}

// What goes into an arm, sorted so deep.
#[cycle(sorting)]
fn arm_of(
    alloc: Global,
    flow: &Flow,
    depth: u32,
    after: &[u32],
    inside: &[Inner],
    arm: usize,
) -> Result<Chain, Memory>
    ensures { IfOk result (λ made. chain_view made ≡ sorted_within (flow_view flow.now) depth after.now (at_arm arm (map inner_view inside.now))) }
{
    let list = at_arm(alloc, arm, inside)?;
    let nests = sort(alloc, flow, depth, after, &list)?;
    Ok(Chain { nests })
}

/// The nests of a shape, with what goes inside of them, sorted.
///
/// # Errors
///
/// `Memory`: the allocator gave no memory.
pub fn nests_of(alloc: Global, flow: &Flow, shape: &Shape) -> Result<Items<Nest>, Memory>
    ensures { IfOk result (λ made. chain (map nest_view made) ≡ nests_of (flow_view flow.now) (shape_view shape.now)) }
{
    let list = flat(alloc, shape)?;
    sort(alloc, flow, MOST_DEPTH, &[], &list)
}

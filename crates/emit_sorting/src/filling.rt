//! What goes into arms of nests, and behind nodes in them.

ghost use Rattle.std.specs.Prelude.{◌≡◌, ◌++◌, not, drop, map, IfOk, OnOk};
ghost use Rattle.std.specs.List.{filter};
ghost use Rattle.emit_nests.specs.Views.{nest_view};
ghost use Rattle.emit_rules.specs.Sorting as sorting;
ghost use Rattle.emit_rules.specs.Sorting.{at_arm, behind_nodes, entries_behind, nest_of};
ghost use Rattle.emit_places.specs.Sorted.{inner_view, sibling_view};
ghost use Rattle.reloop.specs.Graphs.{is_in};

use cr_base::{Items, Memory};
use emit_nests::{Nest, is_among, nest_entries};
use emit_places::{Inner, Sibling, copy_nest, nest_nodes};
use std::alloc::Global;

/// What goes into an arm of a node.
pub(crate) fn at_arm(alloc: Global, arm: usize, inside: &[Inner]) -> Result<Items<Nest>, Memory>
    ensures { IfOk result (λ made. map nest_view made ≡ at_arm arm (map inner_view inside.now)) }
{
    let mut made = Items::new(alloc);
    for inner in inside {
        if inner.arm == arm {
            made.push(copy_nest(alloc, &inner.nest)?.into_inner())?;
        }
    }
    Ok(made)
}

// What goes behind one of these nodes is put behind nests.
fn put_held(
    alloc: Global,
    made: &mut Items<Nest>,
    nodes: &[u32],
    inside: &[Inner],
) -> Result<(), Memory>
    ensures { OnOk result (map nest_view made.new ≡ map nest_view made.old ++ map nest_of (filter (λ (inner : sorting.Inner). is_in inner.node nodes.now) (map inner_view inside.now))) }
{
    for inner in inside {
        if is_among(inner.node, nodes) {
            made.push(copy_nest(alloc, &inner.nest)?.into_inner())?;
        }
    }
    Ok(())
}

// What goes behind none of these nodes.
fn not_held(alloc: Global, nodes: &[u32], inside: Items<Inner>) -> Result<Items<Inner>, Memory>
    ensures { IfOk result (λ made. map inner_view made ≡ filter (λ (inner : sorting.Inner). not (is_in inner.node nodes.now)) (map inner_view inside)) }
{
    let mut made = Items::new(alloc);
    for inner in inside.into_vec() {
        if !is_among(inner.node, nodes) {
            made.push(inner)?;
        }
    }
    Ok(made)
}

// Equal ones, in their order.
fn copies(alloc: Global, inside: &[Inner]) -> Result<Items<Inner>, Memory>
    ensures { IfOk result (λ made. map inner_view made ≡ map inner_view inside.now) }
{
    let mut made = Items::new(alloc);
    for inner in inside {
        made.push(Inner {
            node: inner.node,
            arm: inner.arm,
            nest: copy_nest(alloc, &inner.nest)?.into_inner(),
        })?;
    }
    Ok(made)
}

/// What goes behind the nodes of a list, each right behind the nest with its node.
pub(crate) fn behind_nodes(
    alloc: Global,
    nests: &[Nest],
    inside: &[Inner],
) -> Result<Items<Nest>, Memory>
    ensures { IfOk result (λ made. map nest_view made ≡ behind_nodes (map nest_view nests.now) (map inner_view inside.now)) }
{
    let mut made = Items::new(alloc);
    let mut left = copies(alloc, inside)?;
    for nest in nests {
        made.push(copy_nest(alloc, nest)?.into_inner())?;
        let nodes = nest_nodes(alloc, nest)?;
        put_held(alloc, &mut made, nodes.as_slice(), left.as_slice())?;
        left = not_held(alloc, nodes.as_slice(), left)?;
    }
    put_inner_nests(&mut made, left)?;
    Ok(made)
}

fn put_inner_nests(made: &mut Items<Nest>, inside: Items<Inner>) -> Result<(), Memory>
    ensures { OnOk result (map nest_view made.new ≡ map nest_view made.old ++ map nest_of (map inner_view inside)) }
{
    for inner in inside.into_vec() {
        made.push(inner.nest)?;
    }
    Ok(())
}

/// The entries of what comes behind the nests of a list in front of one of a number.
pub(crate) fn entries_behind(
    alloc: Global,
    after: &[u32],
    siblings: &[Sibling],
    number: usize,
) -> Result<Items<u32>, Memory>
    ensures { IfOk result (λ made. made ≡ entries_behind after.now (map sibling_view (drop number siblings.now))) }
{
    match siblings.get(number) {
        Some(sibling) => nest_entries(alloc, &sibling.nest),
        None => Items::from_slice(alloc, after),
    }
}

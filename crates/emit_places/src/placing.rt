//! One list of nests: which of them go into arms of others, and which stay in the list.

ghost use Rattle.std.specs.Prelude.{◌≡◌, ◌==◌, ◌++◌, ◌∷◌, [], suc, map, slice_get, IfOk, OnOk};
ghost use Rattle.emit_nests.specs.Views.{nest_view};
ghost use Rattle.emit_rules.specs.Places as places;
ghost use Rattle.emit_rules.specs.Sorting.{ahead_with, goes_inside, nothing_sorted, out_of_arm, put_all, sibling_holds, stays, with_inner};
ghost use Rattle.emit_places.specs.Places.{leaving_view, seen_view};
ghost use Rattle.emit_places.specs.Sorted.{behind_with, inner_view, inside_with, put_with, sibling_view, sorted_view};
ghost use Rattle.flow.specs.Views.{flow_view};

use crate::ahead::{count_ahead, last_places};
use crate::copies::copy_nest;
use crate::loops::holds;
use crate::seeing::{Seen, first_from, see_all, seen_at};
use crate::ways::{Leaving, leavings};
use cr_base::{Items, Memory};
use emit_nests::{Nest, nest_entries};
use flow::Flow;
use std::alloc::Global;
use std::collections::HashMap;

/// A nest that goes into an arm of a node.
#[derive(Drop)]
pub struct Inner {
    pub node: u32,
    pub arm: usize,
    pub nest: Nest,
}

/// A nest of a list, the first nest of the list from which control comes to it otherwise than from the nest before, and
/// what goes into its arms, in order.
#[derive(Drop)]
pub struct Sibling {
    pub nest: Nest,
    pub from: usize,
    pub inside: Items<Inner>,
}

// How far a list was gone through: what was seen of ways, the nests that stay in the list, and how many ways out of the
// last of these lead to what is ahead.
#[derive(Drop)]
struct Sorted {
    table: HashMap<u32, Seen>,
    siblings: Items<Sibling>,
    ahead: usize,
}

// ---- whether a nest goes into an arm

// Whether a nest stays behind the last one: that leads to nothing else that is ahead.
fn stays(sorted: &Sorted, seen: Seen) -> bool
    ensures { result ≡ stays (sorted_view sorted.now) (seen_view seen) }
{
    is_last(sorted.siblings.len(), seen.sibling) && sorted.ahead == seen.count
}

// Whether a nest is the last of so many.
fn is_last(count: usize, sibling: usize) -> bool
    ensures { result ≡ (suc sibling == count) }
{
    sibling < count && sibling == count - 1
}

fn sibling_holds(
    alloc: Global,
    flow: &Flow,
    siblings: &[Sibling],
    nest: &Nest,
    seen: Seen,
) -> Result<bool, Memory>
    ensures { IfOk result (λ made. made ≡ sibling_holds (flow_view flow.now) (slice_get (map sibling_view siblings.now) seen.sibling) (nest_view nest.now) seen.is_direct) }
{
    match siblings.get(seen.sibling) {
        Some(sibling) => holds(alloc, flow, &sibling.nest, nest, seen.is_direct),
        None => Ok(false),
    }
}

fn goes_inside(
    alloc: Global,
    flow: &Flow,
    sorted: &Sorted,
    nest: &Nest,
    seen: Seen,
) -> Result<bool, Memory>
    ensures { IfOk result (λ made. made ≡ goes_inside (flow_view flow.now) (sorted_view sorted.now) (nest_view nest.now) (seen_view seen)) }
{
    if !seen.is_one {
        return Ok(false);
    }
    if stays(sorted, seen) {
        return Ok(false);
    }
    sibling_holds(alloc, flow, sorted.siblings.as_slice(), nest, seen)
}

// ---- one nest more

// The ways out of a nest that stands in an arm, as ways out of that arm.
fn out_of_arm(alloc: Global, seen: Seen, ways: &[Leaving]) -> Result<Items<Leaving>, Memory>
    ensures { IfOk result (λ made. map leaving_view made ≡ out_of_arm (seen_view seen) (map leaving_view ways.now)) }
{
    let mut made = Items::new(alloc);
    for way in ways {
        made.push(Leaving {
            node: seen.node,
            arm: seen.arm,
            to: way.to,
            may_hold: true,
        })?;
    }
    Ok(made)
}

// A nest more goes into an arm of a sibling.
fn take_inner(sibling: &mut Sibling, inner: Inner) -> Result<(), Memory>
    ensures { OnOk result (sibling_view sibling.new ≡ record (sibling_view sibling.old) { inside = map inner_view sibling.old.inside ++ inner_view inner ∷ [] }) }
{
    sibling.inside.push(inner)
}

// A nest more goes into an arm of the sibling of a number.
fn push_inner(siblings: &mut Vec<Sibling>, number: usize, inner: Inner) -> Result<(), Memory>
    ensures { OnOk result (map sibling_view siblings.new.items ≡ with_inner number (inner_view inner) (map sibling_view siblings.old.items)) }
{
    match siblings.get_mut(number) {
        Some(sibling) => take_inner(sibling, inner),
        None => Ok(()),
    }
}

fn with_inner(
    siblings: Items<Sibling>,
    number: usize,
    inner: Inner,
) -> Result<Items<Sibling>, Memory>
    ensures { IfOk result (λ made. map sibling_view made ≡ with_inner number (inner_view inner) (map sibling_view siblings)) }
{
    let mut siblings = siblings.into_vec();
    push_inner(&mut siblings, number, inner)?;
    Ok(Items::of(siblings))
}

fn ahead_with(is_last: bool, ahead: usize, gone: usize, more: usize) -> Result<usize, Memory>
    ensures { IfOk result (λ made. made ≡ ahead_with is_last ahead gone more) }
{
    if !is_last {
        return Ok(ahead);
    }
    match ahead.saturating_sub(gone).checked_add(more) {
        Some(sum) => Ok(sum),
        None => Err(Memory),
    }
}

// It goes into an arm; so many of its ways lead to what is ahead.
fn put_inside(
    alloc: Global,
    flow: &Flow,
    sorted: Sorted,
    nest: &Nest,
    seen: Seen,
    more: usize,
) -> Result<Sorted, Memory>
    ensures { IfOk result (λ made. sorted_view made ≡ inside_with (flow_view flow.now) more (sorted_view sorted) (nest_view nest.now) (seen_view seen)) }
{
    let ways = leavings(alloc, flow, nest)?;
    let ways = out_of_arm(alloc, seen, ways.as_slice())?;
    let is_last = is_last(sorted.siblings.len(), seen.sibling);
    let ahead = ahead_with(is_last, sorted.ahead, seen.count, more)?;
    let mut table = sorted.table;
    see_all(&mut table, seen.sibling, false, ways.as_slice())?;
    let inner = inner_of(alloc, nest, seen)?;
    let siblings = with_inner(sorted.siblings, seen.sibling, inner)?;
    Ok(Sorted {
        table,
        siblings,
        ahead,
    })
}

fn inner_of(alloc: Global, nest: &Nest, seen: Seen) -> Result<Inner, Memory>
    ensures { IfOk result (λ inner. inner_view inner ≡ record { node = seen.node; arm = seen.arm; nest = nest_view nest.now }) }
{
    Ok(Inner {
        node: seen.node,
        arm: seen.arm,
        nest: copy_nest(alloc, nest)?.into_inner(),
    })
}

// It stays in the list; so many of its ways lead to what is ahead.
fn put_behind(
    alloc: Global,
    flow: &Flow,
    sorted: Sorted,
    nest: &Nest,
    more: usize,
) -> Result<Sorted, Memory>
    ensures { IfOk result (λ made. sorted_view made ≡ behind_with (flow_view flow.now) more (sorted_view sorted) (nest_view nest.now)) }
{
    let ways = leavings(alloc, flow, nest)?;
    let number = sorted.siblings.len();
    let entries = nest_entries(alloc, nest)?;
    let from = first_from(&sorted.table, number, entries.as_slice());
    let mut table = sorted.table;
    see_all(&mut table, number, true, ways.as_slice())?;
    let sibling = alone(alloc, nest, from)?;
    let mut siblings = sorted.siblings;
    siblings.push(sibling)?;
    Ok(Sorted {
        table,
        siblings,
        ahead: more,
    })
}

fn alone(alloc: Global, nest: &Nest, from: usize) -> Result<Sibling, Memory>
    ensures { IfOk result (λ sibling. sibling_view sibling ≡ record { nest = nest_view nest.now; from = from; inside = [] }) }
{
    Ok(Sibling {
        nest: copy_nest(alloc, nest)?.into_inner(),
        from,
        inside: Items::new(alloc),
    })
}

// A nest is put where it goes; so many of its ways lead to what is ahead.
fn put(
    alloc: Global,
    flow: &Flow,
    may_go_inside: bool,
    sorted: Sorted,
    nest: &Nest,
    more: usize,
) -> Result<Sorted, Memory>
    ensures { IfOk result (λ made. sorted_view made ≡ put_with (flow_view flow.now) may_go_inside more (sorted_view sorted) (nest_view nest.now)) }
{
    let entries = nest_entries(alloc, nest)?;
    let found = seen_at(&sorted.table, entries.as_slice());
    let Some(seen) = found else {
        return put_behind(alloc, flow, sorted, nest, more);
    };
    if !may_go_inside {
        return put_behind(alloc, flow, sorted, nest, more);
    }
    if goes_inside(alloc, flow, &sorted, nest, seen)? {
        return put_inside(alloc, flow, sorted, nest, seen, more);
    }
    put_behind(alloc, flow, sorted, nest, more)
}

/// A list is gone through; `after` are the entries of what comes behind it.
pub fn put_all(
    alloc: Global,
    flow: &Flow,
    may_go_inside: bool,
    after: &[u32],
    nests: &[Nest],
) -> Result<Items<Sibling>, Memory>
    ensures { IfOk result (λ made. map sibling_view made ≡ put_all (flow_view flow.now) may_go_inside after.now nothing_sorted (map nest_view nests.now)) }
{
    let places = last_places(alloc, nests, after)?;
    let mut sorted = Sorted {
        table: HashMap::new(alloc),
        siblings: Items::new(alloc),
        ahead: 0,
    };
    let mut number = 0;
    for nest in nests {
        number += 1;
        let ways = leavings(alloc, flow, nest)?;
        let more = count_ahead(&places, number, ways.as_slice());
        sorted = put(alloc, flow, may_go_inside, sorted, nest, more)?;
    }
    Ok(sorted.siblings)
}

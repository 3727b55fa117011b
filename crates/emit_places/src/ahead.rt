//! Which nodes are ahead: those at which later nests of a list are entered, and what comes behind it.

ghost use Rattle.std.specs.Prelude.{◌≡◌, ◌≤◌, ◌++◌, ℕ, nat_lt, drop, length, map, IfOk, OnOk, if◌then◌else◌};
ghost use Rattle.emit_nests.specs.Views.{nest_view};
ghost use Rattle.emit_rules.specs.Sorting.{all_entries};
ghost use Rattle.emit_places.specs.Ahead.{count_if, place_in};
ghost use Rattle.emit_places.specs.Places.{leaving_view};
ghost use Rattle.reloop.specs.Graphs.{is_in};

use crate::ways::Leaving;
use cr_base::Memory;
use emit_nests::{Nest, nest_entries};
use std::alloc::Global;
use std::collections::HashMap;

// These nodes have this number.
fn note_all(places: &mut HashMap<u32, usize>, nodes: &[u32], number: usize) -> Result<(), Memory>
    ensures { OnOk result ((node : ℕ) → place_in places.new node ≡ (if is_in node nodes.now then number else place_in places.old node)) }
{
    for &node in nodes {
        places.insert(node, number)?;
    }
    Ok(())
}

/// For each node that is ahead, the number of the last nest that is entered there, counted from 1 on.
pub(crate) fn last_places(
    alloc: Global,
    nests: &[Nest],
    after: &[u32],
) -> Result<HashMap<u32, usize>, Memory>
    ensures { IfOk result (λ places. (node number : ℕ) → number ≤ length nests.now →
        nat_lt number (place_in places node) ≡ is_in node (all_entries (map nest_view (drop number nests.now)) ++ after.now)) }
{
    let mut places = HashMap::new(alloc);
    let mut number = 0;
    for nest in nests {
        number += 1;
        let entries = nest_entries(alloc, nest)?;
        note_all(&mut places, entries.as_slice(), number)?;
    }
    let Some(past) = number.checked_add(1) else {
        return Err(Memory);
    };
    note_all(&mut places, after, past)?;
    Ok(places)
}

/// How many ways lead to what is behind the nest of a number.
pub(crate) fn count_ahead(places: &HashMap<u32, usize>, number: usize, ways: &[Leaving]) -> usize
    ensures { result ≡ count_if (λ node. nat_lt number (place_in places.now node)) (map leaving_view ways.now) }
{
    let mut count = 0;
    for way in ways {
        if is_ahead(places, number, way.to) {
            count += 1;
        }
    }
    count
}

fn is_ahead(places: &HashMap<u32, usize>, number: usize, node: u32) -> bool
    ensures { result ≡ nat_lt number (place_in places.now node) }
{
    match places.get(&node) {
        Some(place) => number < *place,
        None => false,
    }
}

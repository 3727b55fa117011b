//! Which places are reached.

ghost use Rattle.std.specs.Prelude.{◌≡◌, ◌++◌, [], ◌∷◌, suc, false, replicate, reverse, slice_get, IfOk, OnOk};
ghost use Rattle.build_flow_nodes.specs.Builder.{statement_at};
ghost use Rattle.build_flow_reached.specs.Index.{number_in};
ghost use Rattle.build_flow_reached.specs.Tables.{arms_of};
ghost use Rattle.build_flow_reached.specs.Walks.{all_seen, is_new, left_of};

use crate::index::PlaceIndex;
use crate::table::Table;
use build_flow_instrs::statement_at;
use cr_base::{Items, Memory};
use std::alloc::Global;

// Places are looked at before others, the first one first.
fn look_at(alloc: Global, places: &[u32], ahead: &mut Items<u32>) -> Result<(), Memory>
    ensures { OnOk result (reverse ahead.new ≡ places.now ++ reverse ahead.old) }
{
    let mut left = Items::from_slice(alloc, places)?;
    while let Some(place) = left.pop() {
        ahead.push(place)?;
    }
    Ok(())
}

// There is a place of a number, and it wasn't seen.
fn is_new(seen: &[bool], place: u32) -> bool
    ensures { result ≡ is_new (slice_get seen.now place) }
{
    match seen.get(place as usize) {
        Some(was_seen) => !*was_seen,
        None => false,
    }
}

// A place that wasn't seen is seen, and where control goes from it is looked at.
#[tactic(auto, using(crate::proofs::Walked::new_within))]
fn look(
    alloc: Global,
    table: &Table,
    place: u32,
    ahead: &mut Items<u32>,
    seen: &mut Items<bool>,
) -> Result<(), Memory>
    ensures seen { OnOk result (all_seen (arms_of table.now) (reverse ahead.new) seen.new ≡ all_seen (arms_of table.now) (place ∷ reverse ahead.old) seen.old) }
    ensures left { OnOk result (left_of (arms_of table.now) (place ∷ reverse ahead.old) seen.old ≡ suc (left_of (arms_of table.now) (reverse ahead.new) seen.new)) }
{
    if is_new(seen.as_slice(), place) {
        seen.set(place as usize, true);
        return look_at(alloc, table.arms(place), ahead);
    }
    Ok(())
}

// The places that are reached from those ahead, of which the last is looked at first, beside those that were seen.
fn seen_from(
    alloc: Global,
    table: &Table,
    ahead: Items<u32>,
    seen: Items<bool>,
) -> Result<Items<bool>, Memory>
    ensures { IfOk result (λ made. made ≡ all_seen (arms_of table.now) (reverse ahead) seen) }
{
    let mut ahead = ahead;
    let mut seen = seen;
    while let Some(place) = ahead.pop() {
        look(alloc, table, place, &mut ahead, &mut seen)?;
    }
    Ok(seen)
}

/// Which places are reached from the beginning of the body on. Refused only for want of memory.
pub(crate) fn reached(
    alloc: Global,
    index: &PlaceIndex,
    table: &Table,
) -> Result<Items<bool>, Memory>
    ensures { IfOk result (λ made. made ≡ all_seen (arms_of table.now) (number_in index.now (statement_at []) ∷ []) (replicate index.now.count false)) }
{
    let first = statement_at(alloc, &[])?;
    let mut ahead = Items::new(alloc);
    ahead.push(index.number(alloc, &first)?)?;
    let seen = Items::of(vec![in alloc; false; index.count() as usize]?);
    seen_from(alloc, table, ahead, seen)
}

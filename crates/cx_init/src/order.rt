//! What later values leave, in the order of places (ISO C99, 6.7.8p19).

ghost use Rattle.std.specs.Prelude.{◌≡◌, ◌≤◌, [], ◌∷◌, ◌++◌, if◌then◌else◌, map, length, reverse, Some, IfOk, OnOk};
ghost use Rattle.cx_core.specs.Views.{view_type};
ghost use Rattle.cx_init.specs.Orders.{all_rise, chosen, kept_flags, ordered_onto, place_among, rises, rises_to, rising_front};
ghost use Rattle.cx_init.specs.Views.{view_stored};
ghost use Rattle.cx_kinds.specs.Known.{IsKnown, types_in};
ghost use Rattle.cx_rules.specs.Initial.{takes_away, kept_by, kept, put_in_order, in_order};

use crate::paths::{comes_before, stands_behind};
use crate::stored::Stored;
use cr_base::{Items, Memory};
use cx_core::Ty;
use cx_kinds::Known;
use cx_parts::{is_union_type, part_type};
use std::alloc::Global;

// Whether a later value takes an earlier one away: it is stored in a part that held the earlier one, or in another member of a union.
fn takes_away(known: Known, t: &Ty, later: &[u64], earlier: &[u64]) -> bool
    requires { IsKnown known }
    ensures { result ≡ takes_away (types_in known.entry) (Some (view_type t.now)) later.now earlier.now }
{
    let Some((index, later)) = later.split_first() else {
        return true;
    };
    let Some((other, earlier)) = earlier.split_first() else {
        return false;
    };
    if *index != *other {
        return is_union_type(known.types, t);
    }
    match part_type(known, t, *index) {
        None => false,
        Some(part) => takes_away(known, part, later, earlier),
    }
}

// Whether none of later values takes one away.
fn kept_by(known: Known, t: &Ty, later: &[Stored], one: &Stored) -> bool
    requires { IsKnown known }
    ensures { result ≡ kept_by (types_in known.entry) (view_type t.now) (map view_stored later.now) (view_stored one.now) }
{
    for other in later {
        if takes_away(known, t, other.path.as_slice(), one.path.as_slice()) {
            return false;
        }
    }
    true
}

// How many values at the front stand one behind the other, and leave the one before.
fn rising_front(known: Known, t: &Ty, stored: &[Stored]) -> usize
    requires { IsKnown known }
    ensures count { result ≡ rising_front (types_in known.entry) (view_type t.now) (map view_stored stored.now) }
    ensures within { result ≤ length stored.now }
{
    for index in 0..stored.len() {
        if !rises_to(known, t, &stored[index], &stored[index + 1..]) {
            return index + 1;
        }
    }
    stored.len()
}

// Whether later values leave each of these.
fn flag_front(
    known: Known,
    t: &Ty,
    front: &[Stored],
    later: &[Stored],
    flags: &mut Items<bool>,
) -> Result<(), Memory>
    requires { IsKnown known }
    ensures { OnOk result (flags.new ≡ flags.old ++ map (kept_by (types_in known.entry) (view_type t.now) (map view_stored later.now)) (map view_stored front.now)) }
{
    for one in front {
        flags.push(kept_by(known, t, later, one))?;
    }
    Ok(())
}

// Which of the values are kept. Values that rise leave one another, so each is compared with those alone that come behind the first one that doesn't
// rise.
fn kept_flags(alloc: Global, known: Known, t: &Ty, stored: &[Stored]) -> Result<Items<bool>, Memory>
    requires { IsKnown known }
    ensures { IfOk result (λ flags. flags ≡ kept_flags (types_in known.entry) (view_type t.now) (map view_stored stored.now)) }
{
    let mut flags = Items::new(alloc);
    let mut start = 0;
    while start < stored.len() {
        let end = start + rising_front(known, t, &stored[start..]);
        flag_front(known, t, &stored[start..end], &stored[end..], &mut flags)?;
        start = end;
    }
    Ok(flags)
}

// Behind how many of the values that are held, the last first, a part goes.
fn place_among(sorted: &[Stored], path: &[u64]) -> usize
    ensures place { result ≡ place_among (reverse (map view_stored sorted.now)) path.now }
    ensures within { result ≤ length sorted.now }
{
    let mut left = sorted;
    while let Some((first, others)) = left.split_last() {
        if !comes_before(first.path.as_slice(), path) {
            return left.len();
        }
        left = others;
    }
    0
}

// A value gets its place among others that are in order, and are held the last first.
fn put_in_order(sorted: &mut Vec<Stored>, one: Stored) -> Result<(), Memory>
    ensures { OnOk result (reverse (map view_stored sorted.new.items) ≡ put_in_order (view_stored one) (reverse (map view_stored sorted.old.items))) }
{
    let place = place_among(sorted.as_slice(), one.path.as_slice());
    sorted.insert(place, one)?;
    Ok(())
}

// Whether a later value stands behind an earlier one, and leaves it.
fn rises(known: Known, t: &Ty, earlier: &[u64], later: &[u64]) -> bool
    requires { IsKnown known }
    ensures { result ≡ rises (types_in known.entry) (view_type t.now) earlier.now later.now }
{
    stands_behind(earlier, later) && !takes_away(known, t, later, earlier)
}

// Whether the next value, where there is one, stands behind a value and leaves it.
fn rises_to(known: Known, t: &Ty, one: &Stored, others: &[Stored]) -> bool
    requires { IsKnown known }
    ensures { result ≡ rises_to (types_in known.entry) (view_type t.now) (view_stored one.now) (map view_stored others.now) }
{
    match others.first() {
        None => true,
        Some(next) => rises(known, t, one.path.as_slice(), next.path.as_slice()),
    }
}

// Whether each value stands behind the one before, and leaves it.
fn all_rise(known: Known, t: &Ty, stored: &[Stored]) -> bool
    requires { IsKnown known }
    ensures { result ≡ all_rise (types_in known.entry) (view_type t.now) (map view_stored stored.now) }
{
    for index in 0..stored.len() {
        if !rises_to(known, t, &stored[index], &stored[index + 1..]) {
            return false;
        }
    }
    true
}

/// What later values leave of what an initialiser stores in an object of a type, in the order of the places; a whole part stands before
/// what is stored in it. Values that come in the order of their places are the answer as they are. Refused only for want of memory.
pub(crate) fn kept_in_order(
    alloc: Global,
    known: Known,
    t: &Ty,
    stored: Items<Stored>,
) -> Result<Items<Stored>, Memory>
    requires { IsKnown known }
    ensures { IfOk result (λ made. map view_stored made ≡ in_order (kept (types_in known.entry) (view_type t.now) (map view_stored stored))) }
{
    if all_rise(known, t, stored.as_slice()) {
        return Ok(stored);
    }
    let flags = kept_flags(alloc, known, t, stored.as_slice())?;
    chosen_in_order(alloc, flags, stored)
}

fn keep_flagged(is_kept: bool, one: Stored, sorted: &mut Vec<Stored>) -> Result<(), Memory>
    ensures { OnOk result (reverse (map view_stored sorted.new.items) ≡ ordered_onto (if is_kept then view_stored one ∷ [] else []) (reverse (map view_stored sorted.old.items))) }
{
    if is_kept {
        put_in_order(sorted, one)
    } else {
        Ok(())
    }
}

// The values that are held the last first, turned round.
#[tactic(auto, using(crate::proofs::Ordering::turned_views))]
fn turned(sorted: Vec<Stored>) -> Items<Stored>
    ensures { map view_stored result ≡ reverse (map view_stored sorted.items) }
{
    let mut sorted = sorted;
    sorted.reverse();
    Items::of(sorted)
}

// The values whose flag is set, in order.
#[tactic(auto, using(crate::proofs::Ordering::chosen_last, crate::proofs::Ordering::onto_append, crate::proofs::Ordering::onto_nothing))]
fn chosen_in_order(
    alloc: Global,
    flags: Items<bool>,
    stored: Items<Stored>,
) -> Result<Items<Stored>, Memory>
    requires { length flags ≡ length stored }
    ensures { IfOk result (λ made. map view_stored made ≡ in_order (chosen flags (map view_stored stored))) }
{
    let mut flags = flags;
    let mut left = stored;
    let mut sorted = Vec::new(alloc);
    for _index in 0..left.len() {
        let Some(one) = left.pop() else {
            return Ok(turned(sorted));
        };
        let Some(is_kept) = flags.pop() else {
            return Ok(turned(sorted));
        };
        keep_flagged(is_kept, one, &mut sorted)?;
    }
    Ok(turned(sorted))
}

//! What is seen of the ways to nodes.

ghost use Rattle.std.specs.Prelude.{◌≡◌, Some, map, option_map, IfOk, OnOk};
ghost use Rattle.emit_rules.specs.Places as places;
ghost use Rattle.emit_rules.specs.Places.{first_of, least, with_seen};
ghost use Rattle.emit_rules.specs.Sorting.{first_from, only_entry, seen_at};
ghost use Rattle.emit_places.specs.Places.{leaving_view, seen_view, table_of};

use crate::ways::Leaving;
use cr_base::Memory;
use std::alloc::Global;
use std::collections::HashMap;

/// What was seen of the ways to a node: in which nest of a list the first of them is, of how many, whether all come out of
/// one arm that may hold the node, which arm that is, and whether none comes from what stands in that arm already.
#[derive(Clone, Copy)]
pub(crate) struct Seen {
    pub(crate) sibling: usize,
    pub(crate) node: u32,
    pub(crate) arm: usize,
    pub(crate) count: usize,
    pub(crate) is_one: bool,
    pub(crate) is_direct: bool,
}

// One way more is seen. More than a number tells count as want of memory.
fn see_more(sibling: usize, is_direct: bool, way: Leaving, seen: Seen) -> Result<Seen, Memory>
    ensures { IfOk result (λ made. seen_view made ≡ places.see sibling is_direct (leaving_view way) (Some (seen_view seen))) }
{
    let Some(count) = seen.count.checked_add(1) else {
        return Err(Memory);
    };
    let is_same_arm = seen.sibling == sibling && seen.node == way.node && seen.arm == way.arm;
    Ok(Seen {
        sibling: least(seen.sibling, sibling),
        node: seen.node,
        arm: seen.arm,
        count,
        is_one: seen.is_one && way.may_hold && is_same_arm,
        is_direct: seen.is_direct && is_direct,
    })
}

fn least(one: usize, other: usize) -> usize
    ensures { result ≡ least one other }
{
    if other < one { other } else { one }
}

fn see(sibling: usize, is_direct: bool, way: Leaving, found: Option<Seen>) -> Result<Seen, Memory>
    ensures { IfOk result (λ made. seen_view made ≡ places.see sibling is_direct (leaving_view way) (option_map seen_view found)) }
{
    match found {
        Some(seen) => see_more(sibling, is_direct, way, seen),
        None => Ok(Seen {
            sibling,
            node: way.node,
            arm: way.arm,
            count: 1,
            is_one: way.may_hold,
            is_direct,
        }),
    }
}

/// What was seen of the ways to a node.
pub(crate) fn seen_of(table: &HashMap<u32, Seen>, node: u32) -> Option<Seen>
    ensures { option_map seen_view result ≡ table_of table.now node }
{
    table.get(&node).copied()
}

// So much was seen of the ways to a node.
fn note(table: &mut HashMap<u32, Seen>, node: u32, seen: Seen) -> Result<(), Memory>
    ensures { OnOk result (table_of table.new ≡ with_seen node (seen_view seen) (table_of table.old)) }
{
    table.insert(node, seen)?;
    Ok(())
}

fn see_one(
    table: &mut HashMap<u32, Seen>,
    sibling: usize,
    is_direct: bool,
    way: Leaving,
) -> Result<(), Memory>
    ensures { OnOk result (table_of table.new ≡ with_seen way.to (places.see sibling is_direct (leaving_view way) (table_of table.old way.to)) (table_of table.old)) }
{
    let seen = see(sibling, is_direct, way, seen_of(table, way.to))?;
    note(table, way.to, seen)
}

/// All these ways are seen.
pub(crate) fn see_all(
    table: &mut HashMap<u32, Seen>,
    sibling: usize,
    is_direct: bool,
    ways: &[Leaving],
) -> Result<(), Memory>
    ensures { OnOk result (table_of table.new ≡ places.see_all sibling is_direct (map leaving_view ways.now) (table_of table.old)) }
{
    for &way in ways {
        see_one(table, sibling, is_direct, way)?;
    }
    Ok(())
}

/// What was seen of the ways to the one node at which a nest is entered.
pub(crate) fn seen_at(table: &HashMap<u32, Seen>, entries: &[u32]) -> Option<Seen>
    ensures { option_map seen_view result ≡ seen_at (table_of table.now) (only_entry entries.now) }
{
    match entries {
        [node] => seen_of(table, *node),
        _ => None,
    }
}

/// The first nest of a list with a way to one of these nodes.
pub(crate) fn first_from(table: &HashMap<u32, Seen>, number: usize, entries: &[u32]) -> usize
    ensures { result ≡ first_from (table_of table.now) number entries.now }
{
    let mut first = number;
    for &node in entries {
        if let Some(seen) = seen_of(table, node) {
            first = least(first, seen.sibling);
        }
    }
    first
}

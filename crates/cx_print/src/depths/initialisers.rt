//! The depth of initialisers (ISO C99, 6.7.8).

ghost use Rattle.std.specs.Prelude.{◌≡◌, min, ◌-◌, ◌^◌, map};
ghost use Rattle.cx_tree.specs.Depth as depth;
ghost use Rattle.cx_tree.specs.Views.{designator_view, designators, entry_view, initialiser_list_view, initialiser_view};

use crate::depths::above::above_two;
use crate::depths::exprs::expr_depth;
use cx_tree::{Designator, Entry, Initialiser, InitialiserList};

#[cycle(tree_depths)]
pub fn initialiser_depth(init: &Initialiser) -> u64
    ensures { result ≡ min (depth.initialiser_depth (initialiser_view init.now)) (2 ^ 64 - 1) }
{
    match init {
        Initialiser::Single(expr) => expr_depth(expr.get()),
        Initialiser::Braced(list) => initialiser_list_depth(list.get()),
    }
}

#[cycle(tree_depths)]
pub fn initialiser_list_depth(list: &InitialiserList) -> u64
    ensures { result ≡ min (depth.initialiser_list_depth (initialiser_list_view list.now)) (2 ^ 64 - 1) }
{
    let mut deepest = 0u64;
    for entry in list.entries.as_slice() {
        deepest = deepest.max(entry_depth(entry));
    }
    deepest.saturating_add(1)
}

#[cycle(tree_depths)]
fn entry_depth(entry: &Entry) -> u64
    ensures { result ≡ min (depth.entry_depth (entry_view entry.now)) (2 ^ 64 - 1) }
{
    above_two(
        designators_depth(entry.designators.as_slice()),
        initialiser_depth(entry.init.get()),
    )
}

#[cycle(tree_depths)]
fn designators_depth(list: &[Designator]) -> u64
    ensures { result ≡ min (depth.designators_depth (designators (map designator_view list.now))) (2 ^ 64 - 1) }
{
    let mut deepest = 0u64;
    for designator in list {
        deepest = deepest.max(designator_depth(designator));
    }
    deepest
}

#[cycle(tree_depths)]
fn designator_depth(designator: &Designator) -> u64
    ensures { result ≡ min (depth.designator_depth (designator_view designator.now)) (2 ^ 64 - 1) }
{
    match designator {
        Designator::Element { at, .. } => expr_depth(at.get()).saturating_add(1),
        Designator::Member { .. } => 1,
    }
}

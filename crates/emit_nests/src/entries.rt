//! At which nodes nests are entered.

ghost use Rattle.std.specs.Prelude.{◌≡◌, map, IfOk};
ghost use Rattle.emit_nests.specs.Views.{nest_view};
ghost use Rattle.emit_rules.specs.Nests as nests;
ghost use Rattle.emit_rules.specs.Nests.{chain};
ghost use Rattle.reloop.specs.Graphs.{is_in};

use crate::nests::Nest;
use cr_base::{Items, Memory};
use std::alloc::Global;

/// Whether a node is one of some.
pub fn is_among(node: u32, nodes: &[u32]) -> bool
    ensures { result ≡ is_in node nodes.now }
{
    for &other in nodes {
        if other == node {
            return true;
        }
    }
    false
}

/// The nodes at which a nest is entered.
#[cycle(entries)]
pub fn nest_entries(alloc: Global, nest: &Nest) -> Result<Items<u32>, Memory>
    ensures { IfOk result (λ entries. entries ≡ nests.nest_entries (nest_view nest.now)) }
{
    match nest {
        Nest::Single { node, .. } => Items::from_slice(alloc, &[*node]),
        Nest::Choice { heads, .. } => Items::from_slice(alloc, heads.as_slice()),
        Nest::Group(members) => chain_entries(alloc, members),
        Nest::Repeated { head, .. } => Items::from_slice(alloc, &[*head]),
        Nest::Dispatched { heads, .. } => Items::from_slice(alloc, heads.as_slice()),
    }
}

/// The nodes at which nests in order are entered.
#[cycle(entries)]
pub fn chain_entries(alloc: Global, members: &Items<Nest>) -> Result<Items<u32>, Memory>
    ensures { IfOk result (λ entries. entries ≡ nests.chain_entries (chain (map nest_view members.now))) }
{
    match members.as_slice().first() {
        Some(nest) => nest_entries(alloc, nest),
        None => Ok(Items::new(alloc)),
    }
}

/// Whether a nest is entered by `current_block`, which says at which node.
#[cycle(telling)]
pub fn nest_is_told(nest: &Nest) -> bool
    ensures { result ≡ nests.nest_is_told (nest_view nest.now) }
{
    match nest {
        Nest::Single { .. } => false,
        Nest::Choice { .. } => true,
        Nest::Group(members) => chain_is_told(members),
        Nest::Repeated { body, .. } => chain_is_told(body),
        Nest::Dispatched { .. } => true,
    }
}

/// Whether nests in order are.
#[cycle(telling)]
pub fn chain_is_told(members: &Items<Nest>) -> bool
    ensures { result ≡ nests.chain_is_told (chain (map nest_view members.now)) }
{
    match members.as_slice().first() {
        Some(nest) => nest_is_told(nest),
        None => false,
    }
}

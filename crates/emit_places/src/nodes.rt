//! The nodes in nests.

ghost use Rattle.std.specs.Prelude.{◌≡◌, map, IfOk};
ghost use Rattle.emit_nests.specs.Views.{chain_view, chains, nest_view};
ghost use Rattle.emit_rules.specs.Nests.{chain, chain_nodes, chains_nodes, nest_nodes};

use cr_base::{Items, Memory};
use emit_nests::{Chain, Nest};
use std::alloc::Global;

/// The nodes in a nest, in its order.
#[cycle(nodes)]
pub fn nest_nodes(alloc: Global, nest: &Nest) -> Result<Items<u32>, Memory>
    ensures { IfOk result (λ nodes. nodes ≡ nest_nodes (nest_view nest.now)) }
{
    match nest {
        Nest::Single { node, arms } => {
            let mut nodes = Items::from_slice(alloc, &[*node])?;
            nodes.append(chains_nodes(alloc, arms)?)?;
            Ok(nodes)
        }
        Nest::Choice { arms, .. } => chains_nodes(alloc, arms),
        Nest::Group(members) => chain_nodes(alloc, members),
        Nest::Repeated { body, .. } => chain_nodes(alloc, body),
        Nest::Dispatched { body, .. } => chain_nodes(alloc, body),
    }
}

/// The nodes in nests, in their order.
#[cycle(nodes)]
pub(crate) fn chain_nodes(alloc: Global, nests: &Items<Nest>) -> Result<Items<u32>, Memory>
    ensures { IfOk result (λ nodes. nodes ≡ chain_nodes (chain (map nest_view nests.now))) }
{
    let mut nodes = Items::new(alloc);
    for nest in nests.as_slice() {
        nodes.append(nest_nodes(alloc, nest)?)?;
    }
    Ok(nodes)
}

#[cycle(nodes)]
fn chains_nodes(alloc: Global, arms: &Items<Chain>) -> Result<Items<u32>, Memory>
    ensures { IfOk result (λ nodes. nodes ≡ chains_nodes (chains (map chain_view arms.now))) }
{
    let mut nodes = Items::new(alloc);
    for arm in arms.as_slice() {
        nodes.append(arm_nodes(alloc, arm)?)?;
    }
    Ok(nodes)
}

#[cycle(nodes)]
fn arm_nodes(alloc: Global, arm: &Chain) -> Result<Items<u32>, Memory>
    ensures { IfOk result (λ nodes. nodes ≡ chain_nodes (chain_view arm.now)) }
{
    chain_nodes(alloc, &arm.nests)
}

//! Nests of parts. Each is refused only for want of memory.

ghost use Rattle.std.specs.Prelude.{◌≡◌, map, IfOk};
ghost use Rattle.emit_nests.specs.Views.{chain_view, chains, nest_view};
ghost use Rattle.emit_rules.specs.Nests as tree;
ghost use Rattle.emit_rules.specs.Nests.{chain};

use cr_base::{Boxed, Items, Memory};
use emit_nests::{Chain, Nest};
use std::alloc::Global;

/// A node, with what stands in its arms.
pub(crate) fn single(alloc: Global, node: u32, arms: Items<Chain>) -> Result<Boxed<Nest>, Memory>
    ensures { IfOk result (λ made. nest_view made ≡ tree.single node (chains (map chain_view arms))) }
{
    Boxed::new(alloc, Nest::Single { node, arms })
}

/// The choice of a head, with what stands in its arms.
pub(crate) fn choice(
    alloc: Global,
    heads: &[u32],
    arms: Items<Chain>,
) -> Result<Boxed<Nest>, Memory>
    ensures { IfOk result (λ made. nest_view made ≡ tree.choice heads.now (chains (map chain_view arms))) }
{
    let heads = Items::from_slice(alloc, heads)?;
    Boxed::new(alloc, Nest::Choice { heads, arms })
}

/// Several as one.
pub(crate) fn group(alloc: Global, members: Items<Nest>) -> Result<Boxed<Nest>, Memory>
    ensures { IfOk result (λ made. nest_view made ≡ tree.group (chain (map nest_view members))) }
{
    Boxed::new(alloc, Nest::Group(members))
}

/// A loop of one head.
pub(crate) fn repeated(alloc: Global, head: u32, body: Items<Nest>) -> Result<Boxed<Nest>, Memory>
    ensures { IfOk result (λ made. nest_view made ≡ tree.repeated head (chain (map nest_view body))) }
{
    Boxed::new(alloc, Nest::Repeated { head, body })
}

/// A loop of several heads.
pub(crate) fn dispatched(
    alloc: Global,
    heads: &[u32],
    body: Items<Nest>,
) -> Result<Boxed<Nest>, Memory>
    ensures { IfOk result (λ made. nest_view made ≡ tree.dispatched heads.now (chain (map nest_view body))) }
{
    let heads = Items::from_slice(alloc, heads)?;
    Boxed::new(alloc, Nest::Dispatched { heads, body })
}

//! The nests of a shape.

ghost use Rattle.std.specs.Prelude.{◌≡◌, [], ◌∷◌, ◌++◌, map, IfOk};
ghost use Rattle.emit_nests.specs.Views.{nest_view};
ghost use Rattle.emit_rules.specs.Nests.{single, repeated, dispatched, choice, chain, no_chains, more_nests, flat, all_flat};
ghost use Rattle.reloop.specs.Shapes.{shape_view, shapes};

use crate::nests::Nest;
use cr_base::{Items, Memory};
use reloop::Shape;
use std::alloc::Global;

// One nest.
fn only(alloc: Global, nest: Nest) -> Result<Items<Nest>, Memory>
    ensures { IfOk result (λ list. map nest_view list ≡ nest_view nest ∷ []) }
{
    let mut list = Items::new(alloc);
    list.push(nest)?;
    Ok(list)
}

fn one_node(alloc: Global, node: u32) -> Result<Items<Nest>, Memory>
    ensures { IfOk result (λ list. map nest_view list ≡ single node no_chains ∷ []) }
{
    only(
        alloc,
        Nest::Single {
            node,
            arms: Items::new(alloc),
        },
    )
}

fn one_loop(alloc: Global, head: u32, body: Items<Nest>) -> Result<Items<Nest>, Memory>
    ensures { IfOk result (λ list. map nest_view list ≡ repeated head (chain (map nest_view body)) ∷ []) }
{
    only(alloc, Nest::Repeated { head, body })
}

// A loop of several heads, whose body begins with the choice of one.
fn one_dispatch(alloc: Global, heads: &[u32], body: Items<Nest>) -> Result<Items<Nest>, Memory>
    ensures { IfOk result (λ list. map nest_view list ≡ dispatched heads.now (more_nests (choice heads.now no_chains) (chain (map nest_view body))) ∷ []) }
{
    let mut members = only(
        alloc,
        Nest::Choice {
            heads: Items::from_slice(alloc, heads)?,
            arms: Items::new(alloc),
        },
    )?;
    members.append(body)?;
    let heads = Items::from_slice(alloc, heads)?;
    only(
        alloc,
        Nest::Dispatched {
            heads,
            body: members,
        },
    )
}

/// The nests of a shape, in its order, before any stands in an arm of another: one list for each loop and each dispatch.
#[cycle(flattening)]
pub fn flat(alloc: Global, shape: &Shape) -> Result<Items<Nest>, Memory>
    ensures { IfOk result (λ list. map nest_view list ≡ flat (shape_view shape.now)) }
{
    match shape {
        Shape::Simple(node) => one_node(alloc, *node),
        Shape::Blocks(members) => all_flat(alloc, members),
        Shape::Loop { head, body } => {
            let body = flat(alloc, body.get())?;
            one_loop(alloc, *head, body)
        }
        Shape::Dispatch { heads, body } => {
            let body = flat(alloc, body.get())?;
            one_dispatch(alloc, heads.as_slice(), body)
        }
    }
}

#[cycle(flattening)]
fn all_flat(alloc: Global, members: &Items<Shape>) -> Result<Items<Nest>, Memory>
    ensures { IfOk result (λ list. map nest_view list ≡ all_flat (shapes (map shape_view members.now))) }
{
    let mut list = Items::new(alloc);
    for member in members.as_slice() {
        list.append(flat(alloc, member)?)?;
    }
    Ok(list)
}

//! Shapes that are made of shapes.

ghost use Rattle.std.specs.Prelude.{◌≡◌, ◌<◌, [], ◌∷◌, ◌++◌, length, map, IfOk, OnOk};
ghost use Rattle.reloop.specs.Shaped.{block_of, round, simples};
ghost use Rattle.reloop.specs.Shapes.{simple, shape_view};

use crate::shapes::Shape;
use cr_base::{Boxed, Items, Memory};
use std::alloc::Global;

/// A block of members; of one member it is that member.
pub(crate) fn block(members: Items<Shape>) -> Shape
    ensures { shape_view result ≡ block_of (map shape_view members) }
{
    let mut members = members;
    if members.len() == 1 {
        if let Some(only) = members.pop() {
            return only;
        }
    }
    Shape::Blocks(members)
}

/// Puts a node behind members.
pub(crate) fn put_node(members: &mut Items<Shape>, node: u32) -> Result<(), Memory>
    ensures { OnOk result (map shape_view members.new ≡ map shape_view members.old ++ simple node ∷ []) }
{
    members.push(Shape::Simple(node))?;
    Ok(())
}

/// Puts nodes behind members.
pub(crate) fn put_nodes(members: &mut Items<Shape>, nodes: &[u32]) -> Result<(), Memory>
    ensures { OnOk result (map shape_view members.new ≡ map shape_view members.old ++ simples nodes.now) }
{
    for &node in nodes {
        put_node(members, node)?;
    }
    Ok(())
}

/// A loop of one head, or a dispatch of several, round these members.
pub(crate) fn part(alloc: Global, heads: Items<u32>, members: Items<Shape>) -> Result<Shape, Memory>
    requires { 0 < length heads }
    ensures { IfOk result (λ part. shape_view part ≡ round heads (map shape_view members)) }
{
    let body = Boxed::new(alloc, block(members))?;
    if heads.len() == 1 {
        if let Some(&head) = heads.get(0) {
            return Ok(Shape::Loop { head, body });
        }
    }
    Ok(Shape::Dispatch { heads, body })
}

//! Dispatches of shapes.

ghost use Rattle.std.specs.Prelude.{◌≡◌, map};
ghost use Rattle.reloop.specs.Shapes.{shape_view, shapes};
ghost use Rattle.reloop.specs.Shapes as spec;

use reloop::Shape;

/// A dispatch stands in the shape.
#[cycle(dispatching)]
pub(crate) fn has_dispatch(shape: &Shape) -> bool
    ensures { result ≡ spec.has_dispatch (shape_view shape.now) }
{
    match shape {
        Shape::Simple(_) => false,
        Shape::Blocks(members) => have_dispatch(members.as_slice()),
        Shape::Loop { body, .. } => has_dispatch(body.get()),
        Shape::Dispatch { .. } => true,
    }
}

// A dispatch stands in one of the members.
#[cycle(dispatching)]
fn have_dispatch(members: &[Shape]) -> bool
    ensures { result ≡ spec.have_dispatch (shapes (map shape_view members.now)) }
{
    for one in members {
        if has_dispatch(one) {
            return true;
        }
    }
    false
}

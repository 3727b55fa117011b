//! What an object takes in memory (ISO C99, 6.2.4 and 6.2.5).

ghost use Rattle.std.specs.Prelude.{◌≡◌, Ok, IfSome, map, option_map};
ghost use Rattle.std.specs.Option.{option_copied};
ghost use Rattle.cx_access.specs.Views.{view_setting};
ghost use Rattle.cx_core.specs.Typing.{object_with};
ghost use Rattle.cx_core.specs.Views.{view_object, view_type};
ghost use Rattle.cx_mean.specs.State as meaning;

use cr_base::Laid;
use cx_access::{Setting, extent_of};
use cx_core::{CoreObject, Ty};
use cx_work::OperandTy;

/// The type of an object, and its size and alignment.
#[derive(Clone, Copy)]
pub struct Shape<'a> {
    pub ty: &'a Ty,
    pub laid: Laid,
}

// The object with a number.
fn object_numbered(objects: &[CoreObject], number: u32) -> Option<&CoreObject>
    ensures { option_map view_object (option_copied result) ≡ object_with number (map view_object objects.now) }
{
    for one in objects {
        if one.object == number {
            return Some(one);
        }
    }
    None
}

/// The type of the object with a number, and its size and alignment.
pub fn shape_of<'a>(setting: &Setting<'a>, number: u32) -> Option<Shape<'a>>
    ensures { IfSome result (λ shape. meaning.shape_of (view_setting setting.now) number ≡ Ok (record { type = view_type shape.ty.now; laid = shape.laid })) }
{
    let Some(one) = object_numbered(setting.program.objects.as_slice(), number) else {
        return None;
    };
    let Some(laid) = extent_of(setting, OperandTy::Of(&one.ty)) else {
        return None;
    };
    Some(Shape { ty: &one.ty, laid })
}

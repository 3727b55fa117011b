//! The types of objects.

ghost use Rattle.std.specs.Prelude.{◌≡◌, false, map, option_map, IfOk};
ghost use Rattle.std.specs.Option.{option_copied};
ghost use Rattle.build_flow_nodes.specs.Parts.{is_copied, leaves_bits_of};
ghost use Rattle.cx_core.specs.Typing.{object_with};
ghost use Rattle.cx_core.specs.Views.{puts_of, view_object, view_put, view_puts, view_type};
ghost use Rattle.lift_exprs.specs.Names as spec;
ghost use Rattle.lift_exprs.specs.Objects as filled;
ghost use Rattle.rs_mean.specs.Scalars.{is_scalar};
ghost use Rattle.rs_tree.specs.Views.{ty_view};
ghost use Rattle.whole_bodies.specs.Names.{void_type};
ghost use Rattle.whole_temporaries.specs.Types.{names_of, type_among};

use cr_base::{Boxed, Items, Memory};
use cx_core::{CoreObject, Put, Ty, TyForm};
use lift_objects::is_zeroed;
use lift_stores::type_in;
use rs_items::NameMap;
use rs_tree::RTy;
use std::alloc::Global;

// The object with a number.
fn object_numbered(objects: &[CoreObject], number: u32) -> Option<&CoreObject>
    ensures { option_map view_object (option_copied result) ≡ object_with number (map view_object objects.now) }
{
    for one in objects {
        if one.object == number {
            return Some(one);
        }
    }
    None
}

fn is_scalar(ty: &RTy) -> bool
    ensures { result ≡ is_scalar (ty_view ty.now) }
{
    matches!(
        ty,
        RTy::Integer(_) | RTy::Boolean | RTy::Pointer(_) | RTy::Code(_, _)
    )
}

// The type of an object that the program doesn't have.
fn no_type() -> Ty
    ensures { view_type result ≡ void_type }
{
    Ty {
        form: TyForm::Void,
        is_const: false,
    }
}

// The type of the object with a number, or another where there is none.
#[tactic(auto, unfolding(crate::specs::Types::type_among))]
fn type_or<'a>(objects: &'a [CoreObject], number: u32, other: &'a Ty) -> &'a Ty
    requires { view_type other.now ≡ void_type }
    ensures { view_type result.now ≡ type_among objects.now number }
{
    match object_numbered(objects, number) {
        Some(one) => &one.ty,
        None => other,
    }
}

/// The Rust type of an object. Refused only for want of memory.
#[tactic(auto, unfolding(crate::specs::Types::names_of))]
pub(crate) fn rust_type(
    alloc: Global,
    names: &NameMap,
    objects: &[CoreObject],
    number: u32,
) -> Result<Boxed<RTy>, Memory>
    ensures { IfOk result (λ made. ty_view made ≡ spec.type_in (names_of names.now) (type_among objects.now number)) }
{
    let other = no_type();
    type_in(alloc, names, type_or(objects, number, &other))
}

/// Whether an object isn't a scalar. Refused only for want of memory.
pub(crate) fn is_copied(
    alloc: Global,
    names: &NameMap,
    objects: &[CoreObject],
    number: u32,
) -> Result<bool, Memory>
    ensures { IfOk result (λ is. is ≡ is_copied (names_of names.now) (type_among objects.now number)) }
{
    let ty = rust_type(alloc, names, objects, number)?;
    Ok(!is_scalar(ty.get()))
}

// An object becomes zero before it gets these values.
#[tactic(auto, unfolding(crate::specs::Types::names_of))]
fn is_cleared(
    names: &NameMap,
    objects: &[CoreObject],
    number: u32,
    puts: &[Put],
) -> Result<bool, Memory>
    ensures { IfOk result (λ is. is ≡ filled.is_zeroed (names_of names.now) (type_among objects.now number) (puts_of (map view_put puts.now))) }
{
    let other = no_type();
    is_zeroed(names, type_or(objects, number, &other), puts)
}

/// Whether an initialiser leaves bits of an object, in a program without bit-field members. Refused only for want of memory.
pub(crate) fn leaves_bits(
    names: &NameMap,
    objects: &[CoreObject],
    number: u32,
    puts: &Option<Items<Put>>,
) -> Result<bool, Memory>
    requires { (names_of names.now).has_bits ≡ false }
    ensures { IfOk result (λ is. is ≡ leaves_bits_of (names_of names.now) (type_among objects.now number) (option_map view_puts puts.now)) }
{
    match puts {
        Some(puts) => is_cleared(names, objects, number, puts.as_slice()),
        None => Ok(false),
    }
}

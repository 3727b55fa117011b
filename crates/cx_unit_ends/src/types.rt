//! The types of objects at the end of a unit (ISO C99, 6.9.2p2, p5), and what has linkage in it.

ghost use Rattle.std.specs.Prelude.{◌≡◌, None, Some, map, option_map, IfOk};
ghost use Rattle.cx_core.specs.Trees.{ty, array};
ghost use Rattle.cx_core.specs.Views.{view_key, view_outer, view_type};
ghost use Rattle.cx_rules.specs.Declare.{final_type};
ghost use Rattle.cx_scope.specs.Views.{view_thing};
ghost use Rattle.cx_unit_ends.specs.Ends as ends;

use cr_base::{Boxed, Items, Memory};
use cx_core::{Key, Outer, Ty, TyForm};
use cx_scope::Thing;
use std::alloc::Global;

fn array_of(
    alloc: Global,
    element: &Ty,
    length: Option<u64>,
    is_const: bool,
) -> Result<Boxed<Ty>, Memory>
    ensures { IfOk result (λ made. view_type made ≡ ends.one_element (ty (array (view_type element.now) length) is_const)) }
{
    let own = element.copy(alloc)?;
    Boxed::new(
        alloc,
        Ty {
            form: TyForm::Array(own, or_one(length)),
            is_const,
        },
    )
}

fn or_one(length: Option<u64>) -> Option<u64>
    ensures { result ≡ ends.or_one length }
{
    match length {
        None => Some(1),
        Some(count) => Some(count),
    }
}

// An array without length has one element.
fn one_element(alloc: Global, t: &Ty) -> Result<Boxed<Ty>, Memory>
    ensures { IfOk result (λ made. view_type made ≡ ends.one_element (view_type t.now)) }
{
    match &t.form {
        TyForm::Array(element, length) => array_of(alloc, element.get(), *length, t.is_const),
        TyForm::Void => t.copy(alloc),
        TyForm::Basic(_) => t.copy(alloc),
        TyForm::Enum(_) => t.copy(alloc),
        TyForm::Pointer(_) => t.copy(alloc),
        TyForm::Record(_) => t.copy(alloc),
        TyForm::Function(_) => t.copy(alloc),
    }
}

/// Whether something has a tentative definition and no other (ISO C99, 6.9.2p2).
pub(crate) fn is_left(one: &Thing) -> bool
    ensures { result ≡ ends.is_left (view_thing one.now) }
{
    one.tentative.is_some() && !one.is_defined
}

/// The type of an object at the end of a unit.
pub(crate) fn final_type(alloc: Global, one: &Thing) -> Result<Boxed<Ty>, Memory>
    ensures { IfOk result (λ made. view_type made ≡ final_type (view_thing one.now)) }
{
    if is_left(one) {
        one_element(alloc, &one.ty)
    } else {
        one.ty.copy(alloc)
    }
}

fn outer_of(alloc: Global, one: &Thing) -> Result<Outer, Memory>
    ensures { IfOk result (λ made. view_outer made ≡ ends.outer_of (view_thing one.now)) }
{
    let name = one.name.copy()?;
    let ty = one.ty.copy(alloc)?.into_inner();
    Ok(Outer {
        function: one.number,
        name,
        linkage: one.linkage,
        ty,
    })
}

fn is_outer(one: &Thing) -> bool
    ensures { result ≡ ends.is_outer (view_thing one.now) }
{
    one.is_function && !one.is_defined
}

/// The functions that a unit declares and doesn't define.
pub(crate) fn outers_of(alloc: Global, things: &[Thing]) -> Result<Items<Outer>, Memory>
    ensures { IfOk result (λ made. map view_outer made ≡ ends.outers_of (map view_thing things.now)) }
{
    let mut outers = Items::new(alloc);
    for one in things {
        if is_outer(one) {
            let made = outer_of(alloc, one)?;
            outers.push(made)?;
        }
    }
    Ok(outers)
}

fn key_of(one: &Thing) -> Key
    ensures { view_key result ≡ ends.key_of (view_thing one.now) }
{
    if one.is_function {
        Key::Function(one.number)
    } else {
        Key::Object(one.number)
    }
}

/// What has linkage, by its numbers, in the order of first declarations. Refused only for want of memory.
pub(crate) fn keys_of(alloc: Global, things: &[Thing]) -> Result<Items<Key>, Memory>
    ensures { IfOk result (λ made. map view_key made ≡ map ends.key_of (map view_thing things.now)) }
{
    let mut keys = Items::new(alloc);
    for one in things {
        keys.push(key_of(one))?;
    }
    Ok(keys)
}

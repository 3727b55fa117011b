//! Places of C's lvalues, and functions, as Rust writes them (ISO C99, 6.3.2.1, 6.5.2.3 and 6.5.3.2). Each form is refused only for want of memory.

ghost use Rattle.std.specs.Prelude.{◌≡◌, map, option_map, IfOk};
ghost use Rattle.lift_forms.specs.Given.{value, address_of, pointed};
ghost use Rattle.lift_forms.specs.Operators.{cast_to, function_of_type, function_form};
ghost use Rattle.lift_forms.specs.Places.{object_place, address_form};
ghost use Rattle.lift_forms_code.specs.Views.{given_view};
ghost use Rattle.rs_text.specs.Tree as tree;
ghost use Rattle.rs_text.specs.Tree.{tys, option_ty};
ghost use Rattle.rs_tree.specs.Views.{ty_view, place_view, expr_view};

use crate::given::RGiven;
use crate::operands::{as_type, cast_to};
use cr_base::{Boxed, Items, Memory};
use rs_makers::{address, cast, copy_given, copy_ty, copy_tys, no_function, some_function, target};
use rs_same::same_type;
use rs_tree::{RExpr, RPath, RPlace, RTy};
use std::alloc::Global;

// The address of a place that isn't `*e`.
fn address_at(alloc: Global, place: RPlace) -> Result<Boxed<RExpr>, Memory>
    ensures { IfOk result (λ e. expr_view e ≡ tree.AddressOf (place_view place)) }
{
    let place = Boxed::new(alloc, place)?;
    address(alloc, place)
}

/// The address of a place: that of `*e` is `e`.
pub fn address_of(alloc: Global, place: Boxed<RPlace>) -> Result<Boxed<RExpr>, Memory>
    ensures { IfOk result (λ e. expr_view e ≡ address_of (place_view place)) }
{
    match place.into_inner() {
        RPlace::Deref(e) => Ok(e),
        RPlace::Local(name) => address_at(alloc, RPlace::Local(name)),
        RPlace::Static(path) => address_at(alloc, RPlace::Static(path)),
        RPlace::Field(whole, name) => address_at(alloc, RPlace::Field(whole, name)),
    }
}

// A pointer type to an equal type.
fn pointer_to(alloc: Global, ty: &RTy) -> Result<Boxed<RTy>, Memory>
    ensures { IfOk result (λ made. ty_view made ≡ tree.Pointer (ty_view ty.now)) }
{
    let target = copy_ty(alloc, ty)?;
    Boxed::new(alloc, RTy::Pointer(target))
}

// `*(p as *mut T)`, of the address of a place.
fn place_as(alloc: Global, place: Boxed<RPlace>, ty: &RTy) -> Result<Boxed<RPlace>, Memory>
    ensures { IfOk result (λ made. place_view made ≡ pointed (tree.Cast (address_of (place_view place)) (tree.Pointer (ty_view ty.now)))) }
{
    let address = address_of(alloc, place)?;
    let to = pointer_to(alloc, ty)?;
    let moved = cast(alloc, address, to)?;
    target(alloc, moved)
}

/// An object by its name; where it is kept with another type than it has here, by its address.
pub fn object_place(
    alloc: Global,
    place: Boxed<RPlace>,
    kept: &RTy,
    ty: &RTy,
) -> Result<Boxed<RPlace>, Memory>
    ensures { IfOk result (λ made. place_view made ≡ object_place (record { place = place_view place; ty = ty_view kept.now }) (ty_view ty.now)) }
{
    if same_type(kept, ty) {
        Ok(place)
    } else {
        place_as(alloc, place, ty)
    }
}

// A value of one pointer type as one of another.
fn pointer_as(alloc: Global, from: &RTy, to: &RTy, e: Boxed<RExpr>) -> Result<Boxed<RExpr>, Memory>
    ensures { IfOk result (λ made. expr_view made ≡ cast_to (tree.Pointer (ty_view from.now)) (tree.Pointer (ty_view to.now)) (expr_view e)) }
{
    let from = pointer_to(alloc, from)?;
    let to = pointer_to(alloc, to)?;
    cast_to(alloc, from.get(), to.get(), e)
}

/// The address of a place of a type, as a pointer to another: of an array that of its first element.
pub fn address_form(
    alloc: Global,
    ty: &RTy,
    target: &RTy,
    place: Boxed<RPlace>,
) -> Result<RGiven, Memory>
    ensures { IfOk result (λ form. given_view form ≡ address_form (ty_view ty.now) (ty_view target.now) (place_view place)) }
{
    let address = address_of(alloc, place)?;
    Ok(RGiven::Value(pointer_as(alloc, ty, target, address)?))
}

fn function_of_type(alloc: Global, path: RPath, kept: &RTy) -> Result<Boxed<RExpr>, Memory>
    ensures { IfOk result (λ e. expr_view e ≡ function_of_type path.home path.name (ty_view kept.now)) }
{
    match kept {
        RTy::Code(params, given) => {
            let params = copy_tys(alloc, params.as_slice())?;
            let given = copy_given(alloc, given)?;
            some_function(alloc, path, params, given)
        }
        _ => no_function(alloc),
    }
}

/// A pointer to a function with the type that its item has; where another is needed, as the same bits.
pub fn function_form(alloc: Global, path: RPath, kept: &RTy, ty: &RTy) -> Result<RGiven, Memory>
    ensures { IfOk result (λ form. given_view form ≡ function_form path.home path.name (ty_view kept.now) (ty_view ty.now)) }
{
    let function = function_of_type(alloc, path, kept)?;
    Ok(RGiven::Value(as_type(alloc, kept, ty, function)?))
}

//! Functions, members, and the values of lvalues (ISO C99, 6.3.2.1, 6.5.2.3 and 6.5.3.2). Each maker is refused only for want of memory.

ghost use Rattle.std.specs.Prelude.{◌≡◌, IfOk, option_map};
ghost use Rattle.cx_core.specs.Views.{view_expr, view_type};
ghost use Rattle.lift_exprs.specs.Lifted as spec;
ghost use Rattle.lift_exprs.specs.Names.{function_or, pointed_type, record_number, type_in};
ghost use Rattle.lift_exprs.specs.Stores as stores_spec;
ghost use Rattle.lift_exprs.specs.Written as written;
ghost use Rattle.lift_exprs.specs.Written.{address_of_given};
ghost use Rattle.lift_forms.specs.Given as forms;
ghost use Rattle.lift_forms.specs.Operators.{given_value};
ghost use Rattle.lift_forms.specs.Places.{address_form};
ghost use Rattle.lift_forms_code.specs.Views.{given_view};
ghost use Rattle.lift_stores.specs.Fits.{Fits, LvalueFits};
ghost use Rattle.lift_stores.specs.Names.{lift_names};
ghost use Rattle.mem_bytes.specs.Calls.{IsFieldPlace};
ghost use Rattle.rs_items.specs.Known.{view_names};
ghost use Rattle.rs_text.specs.Tree as tree;
ghost use Rattle.rs_tree.specs.Views.{ty_view, place_view};

use cr_base::{Boxed, Memory, Name, Spot};
use cx_core::{CoreExpr, Form, Ty, TyForm};
use lift_call_forms::{Callee, function_at};
use lift_forms_code::{RGiven, address_form, address_of, function_form, value_of};
use lift_held::{is_lvalue, is_record};
use lift_stores::{address_of_given, field_form, place_at, place_of_given, type_in};
use rs_items::NameMap;
use rs_items_fields::field_name;
use rs_makers::field;
use rs_tree::{RPlace, RTy};
use std::alloc::Global;

/// A pointer to the function of a number.
pub fn function_given(
    alloc: Global,
    names: &NameMap,
    ty: &Ty,
    number: u32,
) -> Result<RGiven, Memory>
    ensures { IfOk result (λ made. given_view made ≡ spec.function_given (lift_names (view_names names.now)) (view_type ty.now)
        (function_or ((lift_names (view_names names.now)).functions number))) }
{
    let to = function_at(alloc, names, number)?;
    let here = type_in(alloc, names, ty)?;
    let Callee { path, ty: kept, .. } = to;
    function_form(alloc, path, kept.get(), here.get())
}

// The number of a structure or union.
fn record_number(ty: &Ty) -> u32
    ensures { result ≡ record_number (view_type ty.now) }
{
    match &ty.form {
        TyForm::Record(number) => *number,
        _ => 0,
    }
}

// The name of a field: each member that is named is kept.
fn kept_name(alloc: Global, name: Option<&Name>) -> Result<Name, Memory>
    ensures { IfOk result (λ made. made ≡ spec.field_name (option_map (λ one. one.now) name.entry)) }
{
    match name {
        Some(name) => name.copy(),
        None => Ok(Name::of(Vec::new(alloc))),
    }
}

// The place of a member that is no bit-field.
fn field_of(
    alloc: Global,
    names: &NameMap,
    ty: &Ty,
    of: &CoreExpr,
    spot: Spot,
    given: RGiven,
) -> Result<Boxed<RPlace>, Memory>
    ensures { IfOk result (λ made. place_view made ≡ spec.field_of (lift_names (view_names names.now)) (view_type ty.now) (view_expr of.now) spot (given_view given)) }
{
    let here = type_in(alloc, names, ty)?;
    let name = field_name(names, record_number(&of.ty), spot, here.get());
    let name = kept_name(alloc, name)?;
    let whole = place_of_given(alloc, given)?;
    field(alloc, whole, name)
}

// What is read of a place.
fn read_of(alloc: Global, ty: &Ty, place: Boxed<RPlace>) -> Result<RGiven, Memory>
    ensures { IfOk result (λ made. given_view made ≡ spec.read_of (view_type ty.now) (place_view place)) }
{
    if is_record(ty) {
        return Ok(RGiven::Value(address_of(alloc, place)?));
    }
    Ok(RGiven::Place(place))
}

// The value of a bit-field.
fn load_field(
    alloc: Global,
    names: &NameMap,
    ty: &Ty,
    spot: Spot,
    given: RGiven,
) -> Result<RGiven, Memory>
    requires { IsFieldPlace spot.bit spot.width }
    ensures { IfOk result (λ made. given_view made ≡ stores_spec.field_form (address_of_given (given_view given)) spot (type_in (lift_names (view_names names.now)) (view_type ty.now))) }
{
    let base = address_of_given(alloc, given)?;
    let here = type_in(alloc, names, ty)?;
    field_form(alloc, base.get(), spot, here.get())
}

// A bit-field: of an lvalue the base from which it is read or stored, of a value what it holds.
fn bits_of(
    alloc: Global,
    names: &NameMap,
    ty: &Ty,
    of: &CoreExpr,
    spot: Spot,
    given: RGiven,
) -> Result<RGiven, Memory>
    requires { IsFieldPlace spot.bit spot.width }
    ensures { IfOk result (λ made. given_view made ≡ spec.bits_of (lift_names (view_names names.now)) (view_type ty.now) (view_expr of.now) spot (given_view given)) }
{
    if is_lvalue(of) {
        return Ok(RGiven::Value(address_of_given(alloc, given)?));
    }
    load_field(alloc, names, ty, spot, given)
}

/// A member of what is given.
pub fn member_given(
    alloc: Global,
    names: &NameMap,
    ty: &Ty,
    of: &CoreExpr,
    spot: Spot,
    given: RGiven,
) -> Result<RGiven, Memory>
    requires { Fits spot }
    ensures { IfOk result (λ made. given_view made ≡ spec.member_given (lift_names (view_names names.now)) (view_type ty.now) (view_expr of.now) spot (given_view given)) }
{
    if spot.width > 0 {
        return bits_of(alloc, names, ty, of, spot, given);
    }
    let place = field_of(alloc, names, ty, of, spot, given)?;
    if is_lvalue(of) {
        return Ok(RGiven::Place(place));
    }
    read_of(alloc, ty, place)
}

/// The value of an lvalue.
pub fn load_given(
    alloc: Global,
    names: &NameMap,
    ty: &Ty,
    from: &CoreExpr,
    given: RGiven,
) -> Result<RGiven, Memory>
    requires { LvalueFits (view_expr from.now) }
    ensures { IfOk result (λ made. given_view made ≡ spec.load_given (lift_names (view_names names.now)) (view_type ty.now) (view_expr from.now) (given_view given)) }
{
    if let Form::Member(_, spot) = &from.form {
        if spot.width > 0 {
            return load_field(alloc, names, ty, *spot, given);
        }
    }
    let place = place_of_given(alloc, given)?;
    read_of(alloc, ty, place)
}

/// What a pointer points to.
pub fn deref_given(alloc: Global, given: RGiven) -> Result<RGiven, Memory>
    ensures { IfOk result (λ made. given_view made ≡ forms.place (written.place_at (given_value (given_view given)))) }
{
    let pointer = value_of(alloc, given)?;
    Ok(RGiven::Place(place_at(alloc, pointer)?))
}

// The address of a place of one type, as a pointer of another.
fn address_in(
    alloc: Global,
    there: &RTy,
    here: &RTy,
    place: Boxed<RPlace>,
) -> Result<RGiven, Memory>
    ensures { IfOk result (λ made. given_view made ≡ address_form (ty_view there.now) (pointed_type (ty_view here.now)) (place_view place)) }
{
    match here {
        RTy::Pointer(target) => address_form(alloc, there, target.get(), place),
        _ => address_form(alloc, there, &RTy::Void, place),
    }
}

/// The address of an lvalue.
pub fn address_given(
    alloc: Global,
    names: &NameMap,
    ty: &Ty,
    of: &CoreExpr,
    given: RGiven,
) -> Result<RGiven, Memory>
    ensures { IfOk result (λ made. given_view made ≡ spec.address_given (lift_names (view_names names.now)) (view_type ty.now) (view_expr of.now) (given_view given)) }
{
    let here = type_in(alloc, names, ty)?;
    let there = type_in(alloc, names, &of.ty)?;
    let place = place_of_given(alloc, given)?;
    address_in(alloc, there.get(), here.get(), place)
}

//! Parts of objects as Rust places (ISO C99, 6.7.8). Each maker is refused only for want of memory.

ghost use Rattle.std.specs.Prelude.{◌≡◌, ◌==◌, pos, if◌then◌else◌, IfOk};
ghost use Rattle.std.specs.Option.{option_and_then};
ghost use Rattle.cx_core.specs.Views.{view_type};
ghost use Rattle.lift_exprs.specs.Objects.{behind, part_by_bytes, element_place, member_or_bytes, part_inside, part_of_element, part_place, part_target};
ghost use Rattle.lift_exprs.specs.Names as names_spec;
ghost use Rattle.lift_exprs.specs.Written as written;
ghost use Rattle.rs_items_fields.specs.Fields.{name_at};
ghost use Rattle.rs_text.specs.declared.integer.IntegerTy.TheVariants.{Isize};
ghost use Rattle.lift_exprs.specs.Stores as stores_spec;
ghost use Rattle.lift_forms.specs.Given as given;
ghost use Rattle.lift_forms_code.specs.Views.{given_view};
ghost use Rattle.lift_stores.specs.Fits.{Fits, TargetFits};
ghost use Rattle.lift_stores.specs.Names.{lift_names};
ghost use Rattle.lift_stores.specs.Texts.{then_does};
ghost use Rattle.lift_stores.specs.Views.{target_view, text_view};
ghost use Rattle.rs_items.specs.Known.{view_names};
ghost use Rattle.rs_text.specs.Tree as tree;
ghost use Rattle.rs_tree.specs.Views.{ty_view, place_view, expr_view, stmt_view};

use cr_base::{Boxed, Int, Memory, Name, Spot};
use cx_core::{Ty, TyForm};
use lift_forms_code::{RGiven, address_of};
use lift_stores::{Target, Written, as_bytes, stored_value, stores, type_in, whole_target};
use rs_items::{NameMap, size_of};
use rs_items_fields::field_name;
use rs_makers::{cast, copy_ty, field, literal, offset, target};
use rs_same::same_type;
use rs_tree::{IntegerTy, RExpr, RPlace, RTy};
use std::alloc::Global;

// So many bytes behind an address.
fn moved(alloc: Global, byte: u64, address: Boxed<RExpr>) -> Result<Boxed<RExpr>, Memory>
    ensures { IfOk result (λ made. expr_view made ≡ tree.Offset (written.as_bytes (expr_view address)) (tree.Literal (pos byte) Isize)) }
{
    let bytes = as_bytes(alloc, address)?;
    let count = literal(alloc, Int::from(byte), IntegerTy::Isize)?;
    offset(alloc, bytes, count)
}

/// So many bytes behind the begin of a place.
fn behind(alloc: Global, byte: u64, place: Boxed<RPlace>) -> Result<Boxed<RExpr>, Memory>
    ensures { IfOk result (λ made. expr_view made ≡ behind byte (place_view place)) }
{
    let address = address_of(alloc, place)?;
    if byte == 0 {
        Ok(address)
    } else {
        moved(alloc, byte, address)
    }
}

// An address as a pointer to a type.
fn pointer_as(alloc: Global, address: Boxed<RExpr>, part: &RTy) -> Result<Boxed<RExpr>, Memory>
    ensures { IfOk result (λ made. expr_view made ≡ tree.Cast (expr_view address) (tree.Pointer (ty_view part.now))) }
{
    let part = copy_ty(alloc, part)?;
    let to = Boxed::new(alloc, RTy::Pointer(part))?;
    cast(alloc, address, to)
}

fn part_by_bytes(
    alloc: Global,
    byte: u64,
    place: Boxed<RPlace>,
    part: &RTy,
) -> Result<Boxed<RPlace>, Memory>
    ensures { IfOk result (λ made. place_view made ≡ part_by_bytes byte (place_view place) (ty_view part.now)) }
{
    let address = behind(alloc, byte, place)?;
    let pointer = pointer_as(alloc, address, part)?;
    target(alloc, pointer)
}

fn element_behind(alloc: Global, index: u64, first: Boxed<RExpr>) -> Result<Boxed<RExpr>, Memory>
    ensures { IfOk result (λ made. expr_view made ≡ if index == 0 then expr_view first else tree.Offset (expr_view first) (tree.Literal (pos index) Isize)) }
{
    if index == 0 {
        return Ok(first);
    }
    let count = literal(alloc, Int::from(index), IntegerTy::Isize)?;
    offset(alloc, first, count)
}

// An element of an array.
fn element_place(
    alloc: Global,
    index: u64,
    place: Boxed<RPlace>,
    element: &RTy,
) -> Result<Boxed<RPlace>, Memory>
    ensures { IfOk result (λ made. place_view made ≡ element_place index (place_view place) (ty_view element.now)) }
{
    let address = address_of(alloc, place)?;
    let first = pointer_as(alloc, address, element)?;
    let pointer = element_behind(alloc, index, first)?;
    target(alloc, pointer)
}

// The field of a member, or the bytes where it stands.
fn member_place(
    alloc: Global,
    names: &NameMap,
    number: u32,
    byte: u64,
    place: Boxed<RPlace>,
    part: &RTy,
) -> Result<Boxed<RPlace>, Memory>
    ensures { IfOk result (λ made. place_view made ≡
        member_or_bytes (option_and_then (name_at byte (ty_view part.now)) ((view_names names.now).fields number)) byte (place_view place) (ty_view part.now)) }
{
    let spot = Spot {
        byte,
        bit: 0,
        width: 0,
    };
    match field_name(names, number, spot, part) {
        Some(name) => field(alloc, place, name.copy()?),
        None => part_by_bytes(alloc, byte, place, part),
    }
}

// A part of an element of an array.
#[cycle(part_place)]
fn part_of_element(
    alloc: Global,
    names: &NameMap,
    element: &Ty,
    place: Boxed<RPlace>,
    byte: u64,
    part: &RTy,
) -> Result<Boxed<RPlace>, Memory>
    ensures { IfOk result (λ made. place_view made ≡ part_of_element (lift_names (view_names names.now)) (view_type element.now) (place_view place) byte (ty_view part.now)) }
{
    let size = size_of(element, names)?;
    if size == 0 {
        part_by_bytes(alloc, byte, place, part)
    } else {
        let one = type_in(alloc, names, element)?;
        let there = element_place(alloc, byte / size, place, one.get())?;
        part_place(alloc, names, element, there, byte % size, part)
    }
}

// A part that isn't the whole object.
#[cycle(part_place)]
fn part_inside(
    alloc: Global,
    names: &NameMap,
    ty: &Ty,
    place: Boxed<RPlace>,
    byte: u64,
    part: &RTy,
) -> Result<Boxed<RPlace>, Memory>
    ensures { IfOk result (λ made. place_view made ≡ part_inside (lift_names (view_names names.now)) (view_type ty.now) (place_view place) byte (ty_view part.now)) }
{
    match &ty.form {
        TyForm::Array(element, _) => {
            part_of_element(alloc, names, element.get(), place, byte, part)
        }
        TyForm::Record(number) => member_place(alloc, names, *number, byte, place, part),
        _ => part_by_bytes(alloc, byte, place, part),
    }
}

/// The part of an object of a type that begins at a byte: the object itself, a member, an element of an array or a part of one; what lies deeper is found by its byte.
#[cycle(part_place)]
pub fn part_place(
    alloc: Global,
    names: &NameMap,
    ty: &Ty,
    place: Boxed<RPlace>,
    byte: u64,
    part: &RTy,
) -> Result<Boxed<RPlace>, Memory>
    ensures { IfOk result (λ made. place_view made ≡ part_place (lift_names (view_names names.now)) (view_type ty.now) (place_view place) byte (ty_view part.now)) }
{
    let whole = type_in(alloc, names, ty)?;
    if byte == 0 && same_type(whole.get(), part) {
        Ok(place)
    } else {
        part_inside(alloc, names, ty, place, byte, part)
    }
}

fn whole_part(
    alloc: Global,
    names: &NameMap,
    object: &Ty,
    place: Boxed<RPlace>,
    byte: u64,
    ty: &Ty,
) -> Result<Target, Memory>
    ensures made { IfOk result (λ made. target_view made ≡ stores_spec.whole_target (lift_names (view_names names.now)) (view_type ty.now)
        (part_place (lift_names (view_names names.now)) (view_type object.now) (place_view place) byte (names_spec.type_in (lift_names (view_names names.now)) (view_type ty.now)))) }
    ensures fits { IfOk result (λ made. TargetFits (target_view made)) }
{
    let part = type_in(alloc, names, ty)?;
    let there = part_place(alloc, names, object, place, byte, part.get())?;
    whole_target(alloc, names, ty, there)
}

/// Where a value of a type is stored that stands at a spot of an object.
pub fn part_target(
    alloc: Global,
    names: &NameMap,
    object: &Ty,
    place: Boxed<RPlace>,
    spot: Spot,
    ty: &Ty,
) -> Result<Target, Memory>
    requires { Fits spot }
    ensures made { IfOk result (λ made. target_view made ≡ part_target (lift_names (view_names names.now)) (view_type object.now) (place_view place) spot (view_type ty.now)) }
    ensures fits { IfOk result (λ made. TargetFits (target_view made)) }
{
    if spot.width > 0 {
        let part = type_in(alloc, names, ty)?;
        let base = address_of(alloc, place)?;
        Ok(Target::Field(base, spot, part))
    } else {
        whole_part(alloc, names, object, place, spot.byte, ty)
    }
}

/// A value behind its statements is stored at a spot of an object.
pub fn put_in(
    alloc: Global,
    names: &NameMap,
    object: &Ty,
    place: Boxed<RPlace>,
    spot: Spot,
    ty: &Ty,
    one: Written,
) -> Result<Written, Memory>
    requires { Fits spot }
    ensures { IfOk result (λ made. text_view made ≡ then_does
        (stores_spec.stores (part_target (lift_names (view_names names.now)) (view_type object.now) (place_view place) spot (view_type ty.now))
        (stores_spec.stored_value (part_target (lift_names (view_names names.now)) (view_type object.now) (place_view place) spot (view_type ty.now)) (text_view one).given))
        given.nothing (text_view one)) }
{
    let to = part_target(alloc, names, object, place, spot, ty)?;
    let Written {
        mut body,
        given,
        next,
    } = one;
    let e = stored_value(alloc, &to, given)?;
    body.append(stores(alloc, to, e)?)?;
    Ok(Written {
        body,
        given: RGiven::Nothing,
        next,
    })
}

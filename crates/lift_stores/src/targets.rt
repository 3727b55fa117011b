//! What values are stored to, and what a bit-field holds (ISO C99, 6.5.16 and 6.7.2.1p9). Each maker is refused only for want of memory.

ghost use Rattle.std.specs.Prelude.{◌≡◌, map, [], ◌∷◌, IfOk};
ghost use Rattle.cx_core.specs.Views.{view_expr, view_type};
ghost use Rattle.lift_exprs.specs.Written as written;
ghost use Rattle.lift_forms.specs.BitFields as bits;
ghost use Rattle.lift_forms.specs.Given as given;
ghost use Rattle.lift_exprs.specs.Stores.{whole_target, member_target, target_of, target_type, is_signed_type, field_form, low_bits, signed_low_bits, narrowed, stored_value, stores};
ghost use Rattle.lift_forms_code.specs.Views.{given_view};
ghost use Rattle.lift_stores.specs.Fits.{Fits, LvalueFits, TargetFits};
ghost use Rattle.lift_stores.specs.Names.{lift_names};
ghost use Rattle.lift_stores.specs.Views.{target_view};
ghost use Rattle.mem_bytes.specs.Calls.{IsFieldPlace};
ghost use Rattle.rs_items.specs.Known.{view_names};
ghost use Rattle.rs_text.specs.Tree as tree;
ghost use Rattle.rs_tree.specs.Views.{ty_view, place_view, expr_view, stmt_view};

use crate::holding::{assign, one_stmt};
use crate::names::type_in;
use crate::places::{address_of_given, copied, place_of_given};
use cr_base::{Boxed, Int, Items, Memory, Spot};
use cx_core::{CoreExpr, Form, Ty};
use lift_forms_bits::{bit_read, bit_write, integer_as, low_bits as bits_below, power, word};
use lift_forms_code::{RGiven, address_of, converted, value_of};
use lift_held::is_record;
use rs_items::{NameMap, size_of};
use rs_makers::{binary, literal};
use rs_same::is_signed_integer;
use rs_tree::{IntegerTy, Operator, RExpr, RPlace, RStmt, RTy};
use std::alloc::Global;

/// What a value is stored to.
#[derive(Drop)]
pub enum Target {
    Scalar(Boxed<RPlace>, Boxed<RTy>),
    /// A structure or union, of a size in bytes.
    Structure(Boxed<RPlace>, Boxed<RTy>, u64),
    /// A bit-field of a type, at a spot behind an address.
    Field(Boxed<RExpr>, Spot, Boxed<RTy>),
}

/// A place that holds a value of a type.
pub fn whole_target(
    alloc: Global,
    names: &NameMap,
    ty: &Ty,
    place: Boxed<RPlace>,
) -> Result<Target, Memory>
    ensures made { IfOk result (λ made. target_view made ≡ whole_target (lift_names (view_names names.now)) (view_type ty.now) (place_view place)) }
    ensures fits { IfOk result (λ made. TargetFits (target_view made)) }
{
    let here = type_in(alloc, names, ty)?;
    if is_record(ty) {
        let size = size_of(ty, names)?;
        Ok(Target::Structure(place, here, size))
    } else {
        Ok(Target::Scalar(place, here))
    }
}

fn whole_of_given(alloc: Global, names: &NameMap, ty: &Ty, given: RGiven) -> Result<Target, Memory>
    ensures made { IfOk result (λ made. target_view made ≡ whole_target (lift_names (view_names names.now)) (view_type ty.now) (written.place_of_given (given_view given))) }
    ensures fits { IfOk result (λ made. TargetFits (target_view made)) }
{
    let place = place_of_given(alloc, given)?;
    whole_target(alloc, names, ty, place)
}

// A member of what is given.
fn member_target(
    alloc: Global,
    names: &NameMap,
    ty: &Ty,
    spot: Spot,
    given: RGiven,
) -> Result<Target, Memory>
    requires { Fits spot }
    ensures made { IfOk result (λ made. target_view made ≡ member_target (lift_names (view_names names.now)) (view_type ty.now) spot (given_view given)) }
    ensures fits { IfOk result (λ made. TargetFits (target_view made)) }
{
    if spot.width > 0 {
        let here = type_in(alloc, names, ty)?;
        let base = address_of_given(alloc, given)?;
        Ok(Target::Field(base, spot, here))
    } else {
        whole_of_given(alloc, names, ty, given)
    }
}

/// Where an lvalue that was written is, which gets a value of a type.
pub fn target_of(
    alloc: Global,
    names: &NameMap,
    ty: &Ty,
    to: &CoreExpr,
    given: RGiven,
) -> Result<Target, Memory>
    requires { LvalueFits (view_expr to.now) }
    ensures made { IfOk result (λ made. target_view made ≡ target_of (lift_names (view_names names.now)) (view_type ty.now) (view_expr to.now) (given_view given)) }
    ensures fits { IfOk result (λ made. TargetFits (target_view made)) }
{
    match &to.form {
        Form::Member(_, spot) => member_target(alloc, names, ty, *spot, given),
        _ => whole_of_given(alloc, names, ty, given),
    }
}

/// The type of a value that is stored there.
pub fn target_type(to: &Target) -> &RTy
    ensures { ty_view result.now ≡ target_type (target_view to.now) }
{
    match to {
        Target::Scalar(_, ty) | Target::Structure(_, ty, _) | Target::Field(_, _, ty) => ty.get(),
    }
}

// ---- bit-fields

fn is_signed_type(ty: &RTy) -> bool
    ensures { result ≡ is_signed_type (ty_view ty.now) }
{
    match ty {
        RTy::Integer(which) => is_signed_integer(*which),
        _ => false,
    }
}

fn read_type(signed: bool) -> IntegerTy
    ensures { result ≡ bits.read_type signed }
{
    if signed {
        IntegerTy::I64
    } else {
        IntegerTy::U64
    }
}

/// What a bit-field of a type holds.
pub fn field_form(alloc: Global, base: &RExpr, spot: Spot, ty: &RTy) -> Result<RGiven, Memory>
    requires { IsFieldPlace spot.bit spot.width }
    ensures { IfOk result (λ made. given_view made ≡ field_form (expr_view base.now) spot (ty_view ty.now)) }
{
    let signed = is_signed_type(ty);
    let number = bit_read(alloc, base, spot, signed)?;
    let number = Boxed::new(alloc, number)?;
    converted(
        alloc,
        ty,
        &RTy::Integer(read_type(signed)),
        RGiven::Value(number),
    )
}

// As many low bits of a number as a bit-field has.
fn low_bits(alloc: Global, spot: Spot, e: Boxed<RExpr>) -> Result<Boxed<RExpr>, Memory>
    requires { IsFieldPlace spot.bit spot.width }
    ensures { IfOk result (λ made. expr_view made ≡ low_bits spot (expr_view e)) }
{
    let number = integer_as(alloc, IntegerTy::U64, e)?;
    bits_below(alloc, number, spot.width)
}

// The same with the sign carried up.
fn signed_low_bits(alloc: Global, spot: Spot, e: Boxed<RExpr>) -> Result<Boxed<RExpr>, Memory>
    requires { IsFieldPlace spot.bit spot.width }
    ensures { IfOk result (λ made. expr_view made ≡ signed_low_bits spot (expr_view e)) }
{
    let half = power(spot.width - 1);
    let low = low_bits(alloc, spot, e)?;
    let up = word(alloc, half)?;
    let raised = binary(alloc, low, Operator::Add, up)?;
    let rest = bits_below(alloc, raised, spot.width)?;
    let number = integer_as(alloc, IntegerTy::I64, rest)?;
    let down = literal(alloc, Int::from(half), IntegerTy::I64)?;
    binary(alloc, number, Operator::Sub, down)
}

/// What a bit-field of a type holds behind the store of a value of that type.
pub fn narrowed(
    alloc: Global,
    spot: Spot,
    ty: &RTy,
    e: Boxed<RExpr>,
) -> Result<Boxed<RExpr>, Memory>
    requires { IsFieldPlace spot.bit spot.width }
    ensures { IfOk result (λ made. expr_view made ≡ narrowed spot (ty_view ty.now) (expr_view e)) }
{
    match ty {
        RTy::Integer(which) if is_signed_integer(*which) => {
            let low = signed_low_bits(alloc, spot, e)?;
            integer_as(alloc, *which, low)
        }
        RTy::Integer(which) => {
            let low = low_bits(alloc, spot, e)?;
            integer_as(alloc, *which, low)
        }
        _ => Ok(e),
    }
}

// ---- stores

/// What is stored: a value, or the address of a structure or union.
pub fn stored_value(alloc: Global, to: &Target, given: RGiven) -> Result<Boxed<RExpr>, Memory>
    ensures { IfOk result (λ made. expr_view made ≡ stored_value (target_view to.now) (given_view given)) }
{
    match to {
        Target::Structure(_, _, _) => address_of_given(alloc, given),
        Target::Scalar(_, _) | Target::Field(_, _, _) => value_of(alloc, given),
    }
}

fn stores_bytes(
    alloc: Global,
    place: Boxed<RPlace>,
    size: u64,
    e: Boxed<RExpr>,
) -> Result<Items<RStmt>, Memory>
    ensures { IfOk result (λ made. map stmt_view made ≡ written.copied (expr_view e) (given.address_of (place_view place)) size ∷ []) }
{
    let to = address_of(alloc, place)?;
    let copy = copied(alloc, e, to, size)?;
    one_stmt(alloc, copy)
}

/// The store of a value.
pub fn stores(alloc: Global, to: Target, e: Boxed<RExpr>) -> Result<Items<RStmt>, Memory>
    requires { TargetFits (target_view to) }
    ensures { IfOk result (λ made. map stmt_view made ≡ stores (target_view to) (expr_view e)) }
{
    match to {
        Target::Scalar(place, _) => {
            let store = assign(alloc, place, e)?;
            one_stmt(alloc, store)
        }
        Target::Structure(place, _, size) => stores_bytes(alloc, place, size, e),
        Target::Field(base, spot, _) => bit_write(alloc, base.get(), spot, e.get()),
    }
}

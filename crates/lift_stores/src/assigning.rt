//! Assignments, `op=`, `++` and `--` (ISO C99, 6.5.2.4, 6.5.3.1 and 6.5.16). Each maker is refused only for want of memory.

ghost use Rattle.std.specs.Prelude.{◌≡◌, map, pos, ◌∷◌, IfOk};
ghost use Rattle.lift_exprs.specs.Stores.{is_field, settled, taken, taken_value, target_type, given_where, old_value, changed, promoted_type, promoted_integer, one_of, step_by_one, stores};
ghost use Rattle.lift_exprs.specs.Written as written;
ghost use Rattle.lift_exprs.specs.Written.{temporary_place};
ghost use Rattle.lift_forms.specs.Given as given;
ghost use Rattle.lift_forms.specs.Operators as operators;
ghost use Rattle.lift_forms.specs.Operators.{given_value};
ghost use Rattle.lift_forms_code.specs.Views.{given_view, operand_view};
ghost use Rattle.lift_stores.specs.Fits.{TargetFits};
ghost use Rattle.lift_stores.specs.Names.{lift_names};
ghost use Rattle.lift_stores.specs.Views.{target_view, text_view, change_view};
ghost use Rattle.lift_stores.specs.Texts.{held_store, stored, changed_behind};
ghost use Rattle.rs_items.specs.Known.{view_names};
ghost use Rattle.rs_text.specs.Tree as tree;
ghost use Rattle.rs_tree.specs.Views.{ty_view, place_view, expr_view, stmt_view};

use crate::holding::{assign, one_stmt};
use crate::names::{temporary_place, temporary_value};
use crate::places::copied;
use crate::targets::{Target, field_form, narrowed, stores, target_type};
use crate::written::{Written, then_does, then_takes};
use cr_base::{Boxed, Int, Items, Memory};
use cx_core::Op2;
use lift_forms_code::{RGiven, binary_form, constant, converted, value_of};
use rs_items::NameMap;
use rs_makers::{address, copy_place, copy_ty, literal, read};
use rs_tree::{IntegerTy, RExpr, RPlace, RStmt, RTy};
use std::alloc::Global;

// ---- a value is held and stored

fn is_field(to: &Target) -> bool
    ensures { result ≡ is_field (target_view to.now) }
{
    matches!(to, Target::Field(_, _, _))
}

// What is stored where its value is used: in a bit-field that is what it then holds.
fn settled(alloc: Global, used: bool, to: &Target, e: Boxed<RExpr>) -> Result<Boxed<RExpr>, Memory>
    requires { TargetFits (target_view to.now) }
    ensures { IfOk result (λ made. expr_view made ≡ settled used (target_view to.now) (expr_view e)) }
{
    match to {
        Target::Field(_, spot, ty) if used => narrowed(alloc, *spot, ty.get(), e),
        _ => Ok(e),
    }
}

fn taken_bytes(
    alloc: Global,
    temporary: Boxed<RPlace>,
    size: u64,
    e: Boxed<RExpr>,
) -> Result<Boxed<RStmt>, Memory>
    ensures { IfOk result (λ made. stmt_view made ≡ written.copied (expr_view e) (tree.AddressOf (place_view temporary)) size) }
{
    let to = address(alloc, temporary)?;
    copied(alloc, e, to, size)
}

// A value of a target's type gets to a temporary.
fn taken(
    alloc: Global,
    temporary: Boxed<RPlace>,
    to: &Target,
    e: Boxed<RExpr>,
) -> Result<Boxed<RStmt>, Memory>
    ensures { IfOk result (λ made. stmt_view made ≡ taken (place_view temporary) (target_view to.now) (expr_view e)) }
{
    match to {
        Target::Structure(_, _, size) => taken_bytes(alloc, temporary, *size, e),
        Target::Scalar(_, _) | Target::Field(_, _, _) => assign(alloc, temporary, e),
    }
}

// What the temporary gives.
fn taken_value(alloc: Global, temporary: Boxed<RPlace>, to: &Target) -> Result<Boxed<RExpr>, Memory>
    ensures { IfOk result (λ made. expr_view made ≡ taken_value (place_view temporary) (target_view to.now)) }
{
    match to {
        Target::Structure(_, _, _) => address(alloc, temporary),
        Target::Scalar(_, _) | Target::Field(_, _, _) => read(alloc, temporary),
    }
}

fn value_in_temporary(
    alloc: Global,
    names: &NameMap,
    number: u32,
    to: &Target,
) -> Result<Boxed<RExpr>, Memory>
    ensures { IfOk result (λ made. expr_view made ≡ taken_value (temporary_place (lift_names (view_names names.now)) number) (target_view to.now)) }
{
    let temporary = temporary_place(alloc, names, number)?;
    taken_value(alloc, temporary, to)
}

fn given_where(
    alloc: Global,
    names: &NameMap,
    used: bool,
    number: u32,
    to: &Target,
) -> Result<RGiven, Memory>
    ensures { IfOk result (λ made. given_view made ≡ given_where used (taken_value (temporary_place (lift_names (view_names names.now)) number) (target_view to.now))) }
{
    if used {
        Ok(RGiven::Value(value_in_temporary(alloc, names, number, to)?))
    } else {
        Ok(RGiven::Nothing)
    }
}

// One statement in front of others.
fn before(alloc: Global, first: Boxed<RStmt>, others: Items<RStmt>) -> Result<Items<RStmt>, Memory>
    ensures { IfOk result (λ made. map stmt_view made ≡ stmt_view first ∷ map stmt_view others) }
{
    let mut list = one_stmt(alloc, first)?;
    list.append(others)?;
    Ok(list)
}

fn taken_at(
    alloc: Global,
    names: &NameMap,
    number: u32,
    to: &Target,
    e: Boxed<RExpr>,
) -> Result<Boxed<RStmt>, Memory>
    ensures { IfOk result (λ made. stmt_view made ≡ taken (temporary_place (lift_names (view_names names.now)) number) (target_view to.now) (expr_view e)) }
{
    let temporary = temporary_place(alloc, names, number)?;
    taken(alloc, temporary, to, e)
}

// A value is held and stored.
fn held_store(
    alloc: Global,
    names: &NameMap,
    used: bool,
    to: Target,
    e: Boxed<RExpr>,
    one: Written,
) -> Result<Written, Memory>
    requires { TargetFits (target_view to) }
    ensures { IfOk result (λ made. text_view made ≡ held_store (lift_names (view_names names.now)) used (target_view to) (expr_view e) (text_view one)) }
{
    let e = settled(alloc, used, &to, e)?;
    let first = taken_at(alloc, names, one.next, &to, e)?;
    let given = given_where(alloc, names, used, one.next, &to)?;
    let held = value_in_temporary(alloc, names, one.next, &to)?;
    let others = stores(alloc, to, held)?;
    let more = before(alloc, first, others)?;
    then_takes(one, more, given)
}

/// What was computed is stored, and given where it is used: what a bit-field gets is held in any case.
pub fn stored(
    alloc: Global,
    names: &NameMap,
    used: bool,
    to: Target,
    e: Boxed<RExpr>,
    one: Written,
) -> Result<Written, Memory>
    requires { TargetFits (target_view to) }
    ensures { IfOk result (λ made. text_view made ≡ stored (lift_names (view_names names.now)) used (target_view to) (expr_view e) (text_view one)) }
{
    if used || is_field(&to) {
        held_store(alloc, names, used, to, e, one)
    } else {
        let more = stores(alloc, to, e)?;
        then_does(one, more, RGiven::Nothing)
    }
}

// ---- `op=`, `++` and `--`

/// An operator between what the target held and another operand, computed in a type (6.5.16.2p3).
#[derive(Drop)]
pub struct Change {
    pub op: Op2,
    pub computes: Boxed<RTy>,
    pub right_ty: Boxed<RTy>,
    pub right: RGiven,
}

fn read_copy(alloc: Global, place: &RPlace) -> Result<RGiven, Memory>
    ensures { IfOk result (λ made. given_view made ≡ given.value (tree.Read (place_view place.now))) }
{
    let place = copy_place(alloc, place)?;
    Ok(RGiven::Value(read(alloc, place)?))
}

// What the target holds before.
fn old_value(alloc: Global, to: &Target) -> Result<RGiven, Memory>
    requires { TargetFits (target_view to.now) }
    ensures { IfOk result (λ made. given_view made ≡ old_value (target_view to.now)) }
{
    match to {
        Target::Scalar(place, _) => read_copy(alloc, place.get()),
        Target::Structure(_, _, _) => Ok(RGiven::Nothing),
        Target::Field(base, spot, ty) => field_form(alloc, base.get(), *spot, ty.get()),
    }
}

// What a value of a type becomes.
fn changed(alloc: Global, change: Change, ty: &RTy, old: RGiven) -> Result<Boxed<RExpr>, Memory>
    ensures { IfOk result (λ made. expr_view made ≡ changed (change_view change) (ty_view ty.now) (given_view old)) }
{
    let Change {
        op,
        computes,
        right_ty,
        right,
    } = change;
    let left = converted(alloc, computes.get(), ty, old)?;
    let new = binary_form(alloc, op, computes.get(), left, right_ty.get(), right)?;
    let back = converted(alloc, ty, computes.get(), new)?;
    value_of(alloc, back)
}

/// `op=`, or `++` or `--` in front of its operand: the new value is given.
pub fn changed_first(
    alloc: Global,
    names: &NameMap,
    used: bool,
    to: Target,
    change: Change,
    one: Written,
) -> Result<Written, Memory>
    requires { TargetFits (target_view to) }
    ensures { IfOk result (λ made. text_view made ≡ stored (lift_names (view_names names.now)) used (target_view to)
        (changed (change_view change) (target_type (target_view to)) (old_value (target_view to))) (text_view one)) }
{
    let old = old_value(alloc, &to)?;
    let e = changed(alloc, change, target_type(&to), old)?;
    stored(alloc, names, used, to, e, one)
}

fn held_old(
    alloc: Global,
    names: &NameMap,
    number: u32,
    to: &Target,
) -> Result<Boxed<RStmt>, Memory>
    requires { TargetFits (target_view to.now) }
    ensures { IfOk result (λ made. stmt_view made ≡
        tree.Assign (temporary_place (lift_names (view_names names.now)) number) (given_value (old_value (target_view to.now)))) }
{
    let old = old_value(alloc, to)?;
    let old = value_of(alloc, old)?;
    let temporary = temporary_place(alloc, names, number)?;
    assign(alloc, temporary, old)
}

/// `++` or `--` behind its operand, whose value is used: the old value is held, and then the new one is stored.
pub fn changed_behind(
    alloc: Global,
    names: &NameMap,
    to: Target,
    change: Change,
    one: Written,
) -> Result<Written, Memory>
    requires { TargetFits (target_view to) }
    ensures { IfOk result (λ made. text_view made ≡ changed_behind (lift_names (view_names names.now)) (target_view to) (change_view change) (text_view one)) }
{
    let first = held_old(alloc, names, one.next, &to)?;
    let held = temporary_value(alloc, names, one.next)?;
    let e = changed(alloc, change, target_type(&to), RGiven::Value(held))?;
    let others = stores(alloc, to, e)?;
    let more = before(alloc, first, others)?;
    let given = temporary_value(alloc, names, one.next)?;
    then_takes(one, more, RGiven::Value(given))
}

fn promoted_integer(which: IntegerTy, width: Option<u32>) -> IntegerTy
    ensures { result ≡ promoted_integer which width }
{
    match which {
        IntegerTy::I8 | IntegerTy::I16 | IntegerTy::U8 | IntegerTy::U16 => IntegerTy::I32,
        IntegerTy::U32 => match width {
            Some(width) if width < 32 => IntegerTy::I32,
            _ => IntegerTy::U32,
        },
        _ => which,
    }
}

/// The promoted type of an integer, or of a bit-field of a width (6.3.1.1p2).
pub fn promoted_type(alloc: Global, ty: &RTy, width: Option<u32>) -> Result<Boxed<RTy>, Memory>
    ensures { IfOk result (λ made. ty_view made ≡ promoted_type (ty_view ty.now) width) }
{
    match ty {
        RTy::Integer(which) => Boxed::new(alloc, RTy::Integer(promoted_integer(*which, width))),
        RTy::Boolean => Boxed::new(alloc, RTy::Integer(IntegerTy::I32)),
        _ => copy_ty(alloc, ty),
    }
}

// One element, as a number of elements.
fn one_element(alloc: Global) -> Result<RGiven, Memory>
    ensures { IfOk result (λ made. given_view made ≡ (one_of (tree.Pointer tree.Void)).given) }
{
    Ok(RGiven::Value(literal(alloc, 1, IntegerTy::Isize)?))
}

fn one_number(alloc: Global, ty: &RTy) -> Result<RGiven, Memory>
    ensures { IfOk result (λ made. given_view made ≡ given.value (operators.constant (ty_view ty.now) (pos 1))) }
{
    Ok(RGiven::Value(constant(alloc, ty, 1)?))
}

fn step_of_pointer(alloc: Global, op: Op2, computes: Boxed<RTy>) -> Result<Change, Memory>
    ensures { IfOk result (λ made. change_view made ≡ record { op = op; computes = ty_view computes; right = one_of (tree.Pointer tree.Void) }) }
{
    let right = one_element(alloc)?;
    let right_ty = Boxed::new(alloc, RTy::Integer(IntegerTy::Isize))?;
    Ok(Change {
        op,
        computes,
        right_ty,
        right,
    })
}

fn step_of_number(alloc: Global, op: Op2, computes: Boxed<RTy>) -> Result<Change, Memory>
    ensures { IfOk result (λ made. change_view made ≡ record {
      op = op;
      computes = ty_view computes;
      right = record { ty = ty_view computes; given = given.value (operators.constant (ty_view computes) (pos 1)) };
    }) }
{
    let right = one_number(alloc, computes.get())?;
    let right_ty = copy_ty(alloc, computes.get())?;
    Ok(Change {
        op,
        computes,
        right_ty,
        right,
    })
}

/// One more, or one less: of a pointer by one element.
pub fn step_by_one(alloc: Global, up: bool, computes: Boxed<RTy>) -> Result<Change, Memory>
    ensures { IfOk result (λ made. change_view made ≡ step_by_one up (ty_view computes)) }
{
    let op = if up { Op2::Add } else { Op2::Subtract };
    match computes.get() {
        RTy::Pointer(_) => step_of_pointer(alloc, op, computes),
        _ => step_of_number(alloc, op, computes),
    }
}

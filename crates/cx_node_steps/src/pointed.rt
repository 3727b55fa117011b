//! Calls through pointers (ISO C99, 6.5.2.2p9): which function is called, and when that is undefined.

ghost use Rattle.std.specs.Prelude.{◌≡◌, map, option_map};
ghost use Rattle.std.specs.Option.{option_copied};
ghost use Rattle.cx_access.specs.Finds.{Finds};
ghost use Rattle.cx_access.specs.Views.{view_setting};
ghost use Rattle.cx_core.specs.Trees.{form_of_type, place_of, type_of};
ghost use Rattle.cx_core.specs.Views.{view_expr, view_type};
ghost use Rattle.cx_mean.specs.Calls.{by_pointer, by_type, callee_by, called_by, points_to, type_of_callee};
ghost use Rattle.cx_mean.specs.Marks as meaning;
ghost use Rattle.cx_node_steps.specs.Callings.{IsFirst, callee_of, pointer_calling, view_called_before, view_calling};
ghost use Rattle.cx_work.specs.Views.{view_callee, view_operand};

use crate::calls::{Calling, called_with, callee_numbered};
use crate::joins::united;
use cr_base::{Items, URule};
use cx_access::{Setting, Trouble, scalar_value};
use cx_core::{CoreExpr, Ty, TyForm, compatible};
use cx_work::{Called, Callee, Operand};
use mem_bytes::Value;
use std::alloc::Global;

// The type that a pointer type points to.
fn points_to(ty: &Ty) -> Option<&Ty>
    ensures { option_map view_type (option_copied result) ≡ points_to (form_of_type (view_type ty.now)) }
{
    match &ty.form {
        TyForm::Pointer(to) => Some(to.get()),
        TyForm::Void => None,
        TyForm::Basic(_) => None,
        TyForm::Enum(_) => None,
        TyForm::Array(_, _) => None,
        TyForm::Record(_) => None,
        TyForm::Function(_) => None,
    }
}

// The function type of a function.
fn type_of_callee(callee: Callee<'_>) -> &Ty
    ensures { view_type result.now ≡ type_of_callee (view_callee callee.entry) }
{
    match callee {
        Callee::Defined(one) => &one.ty,
        Callee::External(one) => &one.ty,
    }
}

// A function that is called by an expression of a type.
fn by_type<'a>(
    alloc: Global,
    setting: &Setting<'_>,
    callee: Callee<'a>,
    visible: &Ty,
) -> Result<Callee<'a>, Trouble>
    ensures { Finds view_callee result (by_type (view_setting setting.now) (view_callee callee.entry) (view_type visible.now)) }
{
    match compatible(
        alloc,
        visible,
        type_of_callee(callee),
        &setting.program.types,
    ) {
        Ok(is_compatible) => {
            if is_compatible {
                Ok(callee)
            } else {
                Err(Trouble::Undefined(URule::U13))
            }
        }
        Err(_) => Err(Trouble::Memory),
    }
}

// The function with a number, called through a pointer of a type.
fn by_pointer<'a>(
    alloc: Global,
    setting: &Setting<'a>,
    ty: &Ty,
    number: u32,
) -> Result<Callee<'a>, Trouble>
    ensures { Finds view_callee result (by_pointer (view_setting setting.now) (view_type ty.now) number) }
{
    let callee = match callee_numbered(setting.program, number) {
        Ok(callee) => callee,
        Err(trouble) => return Err(trouble),
    };
    match points_to(ty) {
        Some(visible) => by_type(alloc, setting, callee, visible),
        None => Err(Trouble::Memory),
    }
}

// The function that a pointer of a type points to.
fn callee_by<'a>(
    alloc: Global,
    setting: &Setting<'a>,
    ty: &Ty,
    value: Value,
) -> Result<Callee<'a>, Trouble>
    ensures { Finds view_callee result (callee_by (view_setting setting.now) (view_type ty.now) value) }
{
    match value {
        Value::Code(number) => by_pointer(alloc, setting, ty, number),
        Value::Null => Err(Trouble::Undefined(URule::U13)),
        Value::Object(_) => Err(Trouble::Memory),
        Value::Whole(_) => Err(Trouble::Memory),
    }
}

// The function that the first operand of a call points to.
fn callee_of<'a>(
    alloc: Global,
    setting: &Setting<'a>,
    pointer: &Operand<'_>,
) -> Result<Callee<'a>, Trouble>
    ensures { Finds view_callee result (callee_of (view_setting setting.now) (view_operand pointer.now)) }
{
    match scalar_value(&pointer.value) {
        Ok(value) => callee_by(alloc, setting, pointer.ty, value),
        Err(trouble) => Err(trouble),
    }
}

/// The operand in front, and those behind it.
#[derive(Drop)]
struct Front<'a> {
    pointer: Operand<'a>,
    args: Items<Operand<'a>>,
}

fn front_of<'a>(operands: Items<Operand<'a>>) -> Option<Front<'a>>
    ensures { IsFirst result operands.entry }
{
    let mut all = operands.into_vec();
    if all.is_empty() {
        return None;
    }
    let pointer = all.remove(0);
    Some(Front {
        pointer,
        args: Items::of(all),
    })
}

// The call of the function that the first operand points to, with the others.
fn called_by<'a>(
    alloc: Global,
    setting: &Setting<'a>,
    node: &'a CoreExpr,
    operands: Items<Operand<'a>>,
) -> Result<Called<'a>, Trouble>
    ensures { (marks : meaning.Marks) → Finds (view_calling marks) result (called_by (view_setting setting.now) (type_of (view_expr node.now)) (place_of (view_expr node.now)) marks
        (map view_operand operands.entry)) }
{
    let Some(Front { pointer, args }) = front_of(operands) else {
        return Err(Trouble::Memory);
    };
    match callee_of(alloc, setting, &pointer) {
        Ok(callee) => called_with(node, callee, args),
        Err(trouble) => Err(trouble),
    }
}

/// The call of the function that the first operand points to, with the others.
///
/// # Errors
///
/// `Undefined` by U1, U13 or U14.
pub fn called_by_pointer<'a>(
    alloc: Global,
    setting: &Setting<'a>,
    node: &'a CoreExpr,
    operands: Items<Operand<'a>>,
) -> Result<Calling<'a>, Trouble>
    ensures { Finds view_called_before result (pointer_calling (view_setting setting.now) (type_of (view_expr node.now)) (place_of (view_expr node.now))
        (map view_operand operands.entry)) }
{
    let mut marks = match united(alloc, operands.as_slice()) {
        Ok(marks) => marks,
        Err(trouble) => return Err(trouble),
    };
    match called_by(alloc, setting, node, operands) {
        Ok(called) => {
            marks.end_sequence(alloc);
            Ok(Calling { called, marks })
        }
        Err(trouble) => Err(trouble),
    }
}

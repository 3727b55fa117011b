//! Null pointer constants (ISO C99, 6.3.2.3p3), and the constants and uses of operands.

ghost use Rattle.std.specs.Prelude.{◌≡◌, ◌==◌, ◌&&◌, ◌||◌, Bool, true, false, not, Some, None, if◌then◌else◌};
ghost use Rattle.cx_core.specs.Trees.{form_of_type};
ghost use Rattle.cx_rules.specs.Types.{same_type, same_form, void_pointer_type, is_array, is_complete};
ghost use Rattle.cx_rules.specs.declared.kinds.OperandKind.TheVariants.{Value, Place, Function, VoidPlace};
ghost use Rattle.cx_core.specs.Views.{view_expr, view_type, view_types};
ghost use Rattle.cx_kinds.specs.Known.{IsKnown, types_in};
ghost use Rattle.cx_operands.specs.Views.{view_operand};
ghost use Rattle.cx_rules.specs.Operands.{constant_of, is_null_constant, is_null_pointer, is_null_form, has_value_zero, is_zero, value_of, value_by, gives_nothing, holds_nothing, is_register_array, is_place, width_of_operand};

use crate::constants::constant_of;
use crate::operand::{Operand, value_type};
use cr_base::Int;
use cx_core::{CoreExpr, Form, Ty, TyForm, Types};
use cx_kinds::{Known, is_array, is_complete, is_void};
use cx_rules::OperandKind;

/// Whether a value is a null pointer constant: an integer constant expression of value 0, or one cast to `void *`
/// (ISO C99, 6.3.2.3p3).
#[tactic(auto, unfolding(cx_rules::specs::Operands::is_null_constant))]
pub fn is_null_constant(types: &Types, e: &CoreExpr) -> bool
    ensures { result ≡ is_null_constant (view_types types.now) (view_expr e.now) }
{
    is_zero_constant(constant_of(types, e)) || is_null_pointer(e)
}

fn is_zero_constant(value: Option<Int>) -> bool
    ensures { result ≡ has_value_zero value }
{
    match value {
        None => false,
        Some(value) => value == 0,
    }
}

fn is_null_pointer(e: &CoreExpr) -> bool
    ensures { result ≡ is_null_pointer (view_expr e.now) }
{
    matches!(e.form, Form::Null) && is_void_pointer(&e.ty)
}

// Whether it is `void *`, without a qualifier.
fn is_void_pointer(t: &Ty) -> bool
    ensures { result ≡ same_type (view_type t.now) void_pointer_type }
{
    !t.is_const && points_to_void(t)
}

fn points_to_void(t: &Ty) -> bool
    ensures { result ≡ same_form (form_of_type (view_type t.now)) (form_of_type void_pointer_type) }
{
    match &t.form {
        TyForm::Pointer(to) => !to.get().is_const && is_void(to.get()),
        _ => false,
    }
}

/// The value of an operand that is an integer constant expression (ISO C99, 6.6p6).
pub fn operand_constant(types: &Types, operand: &Operand) -> Option<Int>
    ensures { result ≡ constant_of (view_types types.now) (value_of (view_operand operand.now)) }
{
    constant_by(types, operand.kind, operand.core.get())
}

#[tactic(auto, using(crate::proofs::Values::place_no_constant, crate::proofs::Values::nothing_no_constant))]
fn constant_by(types: &Types, kind: OperandKind, core: &CoreExpr) -> Option<Int>
    ensures { result ≡ constant_of (view_types types.now) (value_by kind (view_expr core.now)) }
{
    match kind {
        OperandKind::Place | OperandKind::VoidPlace => None,
        OperandKind::Value | OperandKind::Function => constant_of(types, core),
    }
}

/// Whether the value of an operand is a null pointer constant (ISO C99, 6.3.2.3p3).
pub fn is_null_operand(types: &Types, operand: &Operand) -> bool
    ensures { result ≡ is_null_constant (view_types types.now) (value_of (view_operand operand.now)) }
{
    null_by(types, operand.kind, operand.core.get())
}

#[tactic(auto, using(crate::proofs::Values::place_no_null, crate::proofs::Values::nothing_no_null))]
fn null_by(types: &Types, kind: OperandKind, core: &CoreExpr) -> bool
    ensures { result ≡ is_null_constant (view_types types.now) (value_by kind (view_expr core.now)) }
{
    match kind {
        OperandKind::Place | OperandKind::VoidPlace => false,
        OperandKind::Value | OperandKind::Function => is_null_constant(types, core),
    }
}

/// Whether an operand has no value: its type is `void` (ISO C99, 6.3.2.2).
pub fn gives_nothing(operand: &Operand) -> bool
    ensures { result ≡ gives_nothing (view_operand operand.now) }
{
    value_type(operand).is_void()
}

/// Whether it is an lvalue of incomplete type, which holds no value (ISO C99, 6.3.2.1p2).
pub fn holds_nothing(known: Known, operand: &Operand) -> bool
    requires { IsKnown known }
    ensures { result ≡ holds_nothing (types_in known.entry) (view_operand operand.now) }
{
    if !is_place(operand) {
        return false;
    }
    is_incomplete_object(known, &operand.core.get().ty)
}

fn is_incomplete_object(known: Known, t: &Ty) -> bool
    requires { IsKnown known }
    ensures { result ≡ (not (is_array (view_type t.now)) && not (is_complete (types_in known.entry) (view_type t.now))) }
{
    !is_array(t) && !is_complete(known, t)
}

/// Whether it is an array that is declared `register`, whose address can't be taken (ISO C99, 6.7.1, footnote 101).
pub fn is_register_array(operand: &Operand) -> bool
    ensures { result ≡ is_register_array (view_operand operand.now) }
{
    if !is_place(operand) {
        return false;
    }
    operand.is_register && is_array(&operand.core.get().ty)
}

/// Whether it is an lvalue (ISO C99, 6.3.2.1p1).
pub fn is_place(operand: &Operand) -> bool
    ensures { result ≡ is_place (view_operand operand.now) }
{
    is_place_kind(operand.kind)
}

fn is_place_kind(kind: OperandKind) -> bool
    ensures { result ≡ (elim kind as (λ _. Bool) [ Value ↦ false | Place ↦ true | Function ↦ false | VoidPlace ↦ false ]) }
{
    match kind {
        OperandKind::Place => true,
        OperandKind::Value | OperandKind::Function | OperandKind::VoidPlace => false,
    }
}

/// The width of a bit-field in bits, or None for another operand (ISO C99, 6.7.2.1p8).
pub fn width_of(operand: &Operand) -> Option<u32>
    ensures { result ≡ width_of_operand (view_operand operand.now) }
{
    match &operand.core.get().form {
        Form::Member(_, spot) => width_of_spot(spot.width),
        _ => None,
    }
}

fn width_of_spot(width: u32) -> Option<u32>
    ensures { result ≡ (if width == 0 then None else Some width) }
{
    if width == 0 { None } else { Some(width) }
}

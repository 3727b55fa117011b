//! Operators with one operand and with two (ISO C99, 6.5.3.3, 6.5.5 to 6.5.12).

ghost use Rattle.std.specs.Prelude.{◌≡◌, IfOk};
ghost use Rattle.cx_core.specs.Views.{view_expr, view_types};
ghost use Rattle.cx_kinds.specs.Known.{IsKnown, types_in};
ghost use Rattle.cx_operands.specs.Views.{view_operand};
ghost use Rattle.cx_rules.specs.Meanings.{by_pairing, binary_meaning, unary_meaning};
ghost use Rattle.cx_rules.specs.declared.kinds.Pairing.TheVariants.{Arithmetic, Shift, PointerInteger, IntegerPointer, Pointers, LeftConverted, RightConverted};

use crate::arithmetic::{fitted_value, promoted_value, value_in};
use crate::operands::a_value;
use crate::types::{common_ty, pointers_ty, promoted_ty, result_ty};
use cr_base::{Boxed, Memory, Place};
use cx_core::{Basic, CoreExpr, Op1, Op2, Types};
use cx_forms::{basic_ty, binary_node, unary_node, whole_node};
use cx_kinds::Known;
use cx_operands::Operand;
use cx_pairs::pairing_of;
use cx_rules::Pairing;
use cx_values::value_of;
use std::alloc::Global;

/// What a binary operator means of two operands that it takes in a way (ISO C99, 6.5.5 to 6.5.12). Refused only for want
/// of memory.
pub fn by_pairing(
    alloc: Global,
    types: &Types,
    at: Place,
    op: Op2,
    left: Operand,
    right: Operand,
    pairing: Pairing,
) -> Result<Boxed<CoreExpr>, Memory>
    ensures { IfOk result (λ made. view_expr made ≡ by_pairing at (view_types types.now) op (view_operand left) (view_operand right) pairing) }
{
    match pairing {
        Pairing::Arithmetic => arithmetic(alloc, types, at, op, left, right),
        Pairing::Shift => shift(alloc, types, at, op, left, right),
        Pairing::PointerInteger => as_left(alloc, types, at, op, left, right),
        Pairing::IntegerPointer => as_right(alloc, types, at, op, left, right),
        Pairing::Pointers => of_pointers(alloc, types, at, op, left, right),
        Pairing::LeftConverted => left_converted(alloc, types, at, op, left, right),
        Pairing::RightConverted => right_converted(alloc, types, at, op, left, right),
        Pairing::Tests | Pairing::Nothing => {
            let ty = basic_ty(alloc, Basic::Int)?;
            whole_node(alloc, ty, at, 0)
        }
    }
}

// Both are converted to their common type.
fn arithmetic(
    alloc: Global,
    types: &Types,
    at: Place,
    op: Op2,
    left: Operand,
    right: Operand,
) -> Result<Boxed<CoreExpr>, Memory>
    ensures { IfOk result (λ made. view_expr made ≡ by_pairing at (view_types types.now) op (view_operand left) (view_operand right) Arithmetic) }
{
    let common = common_ty(alloc, types, &left, &right)?;
    let first = value_in(alloc, common.get(), left)?;
    let second = value_in(alloc, common.get(), right)?;
    let ty = result_ty(alloc, op, common)?;
    binary_node(alloc, ty, at, op, first, second)
}

// Each is promoted by itself.
fn shift(
    alloc: Global,
    types: &Types,
    at: Place,
    op: Op2,
    left: Operand,
    right: Operand,
) -> Result<Boxed<CoreExpr>, Memory>
    ensures { IfOk result (λ made. view_expr made ≡ by_pairing at (view_types types.now) op (view_operand left) (view_operand right) Shift) }
{
    let ty = promoted_ty(alloc, types, &left)?;
    let first = value_in(alloc, ty.get(), left)?;
    let second = promoted_value(alloc, types, right)?;
    binary_node(alloc, ty, at, op, first, second)
}

// The type is that of the left operand.
#[tactic(auto, using(crate::proofs::Opened::type_of_view))]
fn as_left(
    alloc: Global,
    _types: &Types,
    at: Place,
    op: Op2,
    left: Operand,
    right: Operand,
) -> Result<Boxed<CoreExpr>, Memory>
    ensures { IfOk result (λ made. view_expr made ≡ by_pairing at (view_types _types.now) op (view_operand left) (view_operand right) PointerInteger) }
{
    let first = value_of(alloc, left)?;
    let second = value_of(alloc, right)?;
    let ty = first.get().ty.copy(alloc)?;
    binary_node(alloc, ty, at, op, first, second)
}

// The type is that of the right operand.
#[tactic(auto, using(crate::proofs::Opened::type_of_view))]
fn as_right(
    alloc: Global,
    _types: &Types,
    at: Place,
    op: Op2,
    left: Operand,
    right: Operand,
) -> Result<Boxed<CoreExpr>, Memory>
    ensures { IfOk result (λ made. view_expr made ≡ by_pairing at (view_types _types.now) op (view_operand left) (view_operand right) IntegerPointer) }
{
    let first = value_of(alloc, left)?;
    let second = value_of(alloc, right)?;
    let ty = second.get().ty.copy(alloc)?;
    binary_node(alloc, ty, at, op, first, second)
}

// Two pointers as they are.
fn of_pointers(
    alloc: Global,
    _types: &Types,
    at: Place,
    op: Op2,
    left: Operand,
    right: Operand,
) -> Result<Boxed<CoreExpr>, Memory>
    ensures { IfOk result (λ made. view_expr made ≡ by_pairing at (view_types _types.now) op (view_operand left) (view_operand right) Pointers) }
{
    let first = value_of(alloc, left)?;
    let second = value_of(alloc, right)?;
    let ty = pointers_ty(alloc, op)?;
    binary_node(alloc, ty, at, op, first, second)
}

// The left pointer is converted to the type of the right one.
#[tactic(auto, using(crate::proofs::Opened::type_of_view))]
fn left_converted(
    alloc: Global,
    types: &Types,
    at: Place,
    op: Op2,
    left: Operand,
    right: Operand,
) -> Result<Boxed<CoreExpr>, Memory>
    ensures { IfOk result (λ made. view_expr made ≡ by_pairing at (view_types types.now) op (view_operand left) (view_operand right) LeftConverted) }
{
    let second = value_of(alloc, right)?;
    let first = fitted_value(alloc, types, &second.get().ty, left)?;
    let ty = pointers_ty(alloc, op)?;
    binary_node(alloc, ty, at, op, first, second)
}

// The right pointer is converted to the type of the left one.
#[tactic(auto, using(crate::proofs::Opened::type_of_view))]
fn right_converted(
    alloc: Global,
    types: &Types,
    at: Place,
    op: Op2,
    left: Operand,
    right: Operand,
) -> Result<Boxed<CoreExpr>, Memory>
    ensures { IfOk result (λ made. view_expr made ≡ by_pairing at (view_types types.now) op (view_operand left) (view_operand right) RightConverted) }
{
    let first = value_of(alloc, left)?;
    let second = fitted_value(alloc, types, &first.get().ty, right)?;
    let ty = pointers_ty(alloc, op)?;
    binary_node(alloc, ty, at, op, first, second)
}

/// What a binary operator means (ISO C99, 6.5.5 to 6.5.12). Refused only for want of memory.
pub fn binary_meaning(
    alloc: Global,
    known: Known,
    at: Place,
    op: Op2,
    left: Operand,
    right: Operand,
) -> Result<Operand, Memory>
    requires { IsKnown known }
    ensures { IfOk result (λ made. view_operand made ≡ binary_meaning at (types_in known.entry) op (view_operand left) (view_operand right)) }
{
    let pairing = pairing_of(known, op, &left, &right);
    let core = by_pairing(alloc, known.types, at, op, left, right, pairing)?;
    Ok(a_value(core))
}

/// What a unary arithmetic operator means (ISO C99, 6.5.3.3). Refused only for want of memory.
pub fn unary_meaning(
    alloc: Global,
    types: &Types,
    at: Place,
    op: Op1,
    on: Operand,
) -> Result<Operand, Memory>
    ensures { IfOk result (λ made. view_operand made ≡ unary_meaning at (view_types types.now) op (view_operand on)) }
{
    match op {
        Op1::Not => {
            let value = value_of(alloc, on)?;
            let ty = basic_ty(alloc, Basic::Int)?;
            let core = unary_node(alloc, ty, at, op, value)?;
            Ok(a_value(core))
        }
        Op1::Plus | Op1::Minus | Op1::Complement => {
            let ty = promoted_ty(alloc, types, &on)?;
            let value = value_in(alloc, ty.get(), on)?;
            let core = unary_node(alloc, ty, at, op, value)?;
            Ok(a_value(core))
        }
    }
}

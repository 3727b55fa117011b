//! Assignments, `++` and `--` (ISO C99, 6.5.2.4, 6.5.3.1 and 6.5.16).

ghost use Rattle.std.specs.Prelude.{◌≡◌, IfOk};
ghost use Rattle.cx_core.specs.Trees.{expr, unqualified, type_of, assign_by};
ghost use Rattle.cx_core.specs.Views.{view_expr, view_type, view_types};
ghost use Rattle.cx_kinds.specs.Known.{IsKnown, types_in};
ghost use Rattle.cx_operands.specs.Views.{view_operand};
ghost use Rattle.cx_rules.specs.Meanings.{assign_meaning, assign_by_meaning, assigned_by, step_meaning};
ghost use Rattle.cx_rules.specs.declared.kinds.Pairing.{Pairing};
ghost use Rattle.cx_rules.specs.declared.kinds.Pairing.TheVariants.{Arithmetic, Shift, PointerInteger};

use crate::arithmetic::{fitted_value, promoted_value, value_in};
use crate::operands::a_value;
use crate::types::{common_ty, promoted_ty, ty_of};
use cr_base::{Boxed, Memory, Place};
use cx_core::{CoreExpr, Op2, Ty, Types};
use cx_forms::{assign_by_node, assign_node, step_node};
use cx_kinds::Known;
use cx_operands::{Operand, value_type};
use cx_pairs::pairing_of;
use cx_rules::Pairing;
use cx_values::{unqualified_copy, value_of};
use std::alloc::Global;

/// What a simple assignment means (ISO C99, 6.5.16p3, 6.5.16.1p2). Refused only for want of memory.
#[tactic(auto, using(crate::proofs::Opened::type_of_view))]
pub fn assign_meaning(
    alloc: Global,
    types: &Types,
    at: Place,
    target: Operand,
    value: Operand,
) -> Result<Operand, Memory>
    ensures { IfOk result (λ made. view_operand made ≡ assign_meaning at (view_types types.now) (view_operand target) (view_operand value)) }
{
    let value = fitted_value(alloc, types, &target.core.get().ty, value)?;
    let ty = unqualified_copy(alloc, &target.core.get().ty)?;
    let core = assign_node(alloc, ty, at, target.core, value)?;
    Ok(a_value(core))
}

/// What a compound assignment means (ISO C99, 6.5.16.2p3). Refused only for want of memory.
pub fn assign_by_meaning(
    alloc: Global,
    known: Known,
    at: Place,
    op: Op2,
    target: Operand,
    value: Operand,
) -> Result<Operand, Memory>
    requires { IsKnown known }
    ensures { IfOk result (λ made. view_operand made ≡ assign_by_meaning at (types_in known.entry) op (view_operand target) (view_operand value)) }
{
    let core = match pairing_of(known, op, &target, &value) {
        Pairing::Shift => by_shift(alloc, known.types, at, op, target, value)?,
        Pairing::PointerInteger => by_move(alloc, known.types, at, op, target, value)?,
        _ => by_numbers(alloc, known.types, at, op, target, value)?,
    };
    Ok(a_value(core))
}

// The target is promoted by itself.
fn by_shift(
    alloc: Global,
    types: &Types,
    at: Place,
    op: Op2,
    target: Operand,
    value: Operand,
) -> Result<Boxed<CoreExpr>, Memory>
    ensures { IfOk result (λ made. view_expr made
        ≡ expr (unqualified (type_of (view_expr target.core))) at (assigned_by at (view_types types.now) op (view_operand target) (view_operand value) Shift)) }
{
    let computes = promoted_ty(alloc, types, &target)?;
    let value = promoted_value(alloc, types, value)?;
    stored(alloc, at, op, computes, target.core, value)
}

// The target is a pointer that is moved.
fn by_move(
    alloc: Global,
    types: &Types,
    at: Place,
    op: Op2,
    target: Operand,
    value: Operand,
) -> Result<Boxed<CoreExpr>, Memory>
    ensures { IfOk result (λ made. view_expr made
        ≡ expr (unqualified (type_of (view_expr target.core))) at (assigned_by at (view_types types.now) op (view_operand target) (view_operand value) PointerInteger)) }
{
    let computes = ty_of(alloc, value_type(&target))?;
    let value = value_of(alloc, value)?;
    stored(alloc, at, op, computes, target.core, value)
}

// Both are converted to their common type.
fn by_numbers(
    alloc: Global,
    types: &Types,
    at: Place,
    op: Op2,
    target: Operand,
    value: Operand,
) -> Result<Boxed<CoreExpr>, Memory>
    ensures { IfOk result (λ made. view_expr made
        ≡ expr (unqualified (type_of (view_expr target.core))) at (assigned_by at (view_types types.now) op (view_operand target) (view_operand value) Arithmetic)) }
{
    let computes = common_ty(alloc, types, &target, &value)?;
    let value = value_in(alloc, computes.get(), value)?;
    stored(alloc, at, op, computes, target.core, value)
}

#[tactic(auto, using(crate::proofs::Opened::type_of_view))]
fn stored(
    alloc: Global,
    at: Place,
    op: Op2,
    computes: Boxed<Ty>,
    target: Boxed<CoreExpr>,
    value: Boxed<CoreExpr>,
) -> Result<Boxed<CoreExpr>, Memory>
    ensures { IfOk result (λ made. view_expr made
        ≡ expr (unqualified (type_of (view_expr target))) at (assign_by op (view_type computes) (view_expr target) (view_expr value))) }
{
    let ty = unqualified_copy(alloc, &target.get().ty)?;
    assign_by_node(alloc, ty, at, op, computes, target, value)
}

/// What `++` or `--` of an lvalue means, behind it or in front of it (ISO C99, 6.5.2.4p2, 6.5.3.1p2). Refused only for
/// want of memory.
#[tactic(auto, using(crate::proofs::Opened::type_of_view))]
pub fn step_meaning(
    alloc: Global,
    at: Place,
    up: bool,
    post: bool,
    on: Operand,
) -> Result<Operand, Memory>
    ensures { IfOk result (λ made. view_operand made ≡ step_meaning at up post (view_operand on)) }
{
    let ty = unqualified_copy(alloc, &on.core.get().ty)?;
    let core = step_node(alloc, ty, at, up, post, on.core)?;
    Ok(a_value(core))
}

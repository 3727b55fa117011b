//! Values of operands in the types in which operators compute (ISO C99, 6.3).

ghost use Rattle.std.specs.Prelude.{◌≡◌, IfOk};
ghost use Rattle.cx_core.specs.Views.{view_expr, view_type, view_types};
ghost use Rattle.cx_operands.specs.Views.{view_operand};
ghost use Rattle.cx_rules.specs.Operands.{converted_to, fitted, promoted_value, value_of};

use crate::types::promoted_ty;
use cr_base::{Boxed, Memory};
use cx_core::{CoreExpr, Ty, Types};
use cx_operands::Operand;
use cx_values::{converted_to, fitted, value_of};
use std::alloc::Global;

// The value of an operand, converted to a type.
pub(crate) fn value_in(alloc: Global, t: &Ty, operand: Operand) -> Result<Boxed<CoreExpr>, Memory>
    ensures { IfOk result (λ made. view_expr made ≡ converted_to (view_type t.now) (value_of (view_operand operand))) }
{
    let value = value_of(alloc, operand)?;
    let ty = t.copy(alloc)?;
    converted_to(alloc, ty, value)
}

/// The promoted value of an operand; another value than an integer stays (ISO C99, 6.3.1.1p2). Refused only for want of
/// memory.
pub fn promoted_value(
    alloc: Global,
    types: &Types,
    operand: Operand,
) -> Result<Boxed<CoreExpr>, Memory>
    ensures { IfOk result (λ made. view_expr made ≡ promoted_value (view_types types.now) (view_operand operand)) }
{
    let ty = promoted_ty(alloc, types, &operand)?;
    let value = value_of(alloc, operand)?;
    converted_to(alloc, ty, value)
}

/// The value of an operand, as it is stored where a type stands (ISO C99, 6.5.16.1p2). Refused only for want of memory.
pub fn fitted_value(
    alloc: Global,
    types: &Types,
    target: &Ty,
    operand: Operand,
) -> Result<Boxed<CoreExpr>, Memory>
    ensures { IfOk result (λ made. view_expr made ≡ fitted (view_types types.now) (view_type target.now) (value_of (view_operand operand))) }
{
    let value = value_of(alloc, operand)?;
    fitted(alloc, types, target, value)
}

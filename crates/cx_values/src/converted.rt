//! Values converted to types (ISO C99, 6.3).

ghost use Rattle.std.specs.Prelude.{◌≡◌, IfOk};
ghost use Rattle.cx_core.specs.Conversions.{IsIntegerType};
ghost use Rattle.cx_core.specs.Views.{view_expr, view_type, view_types};
ghost use Rattle.cx_operands.specs.Views.{view_operand};
ghost use Rattle.cx_rules.specs.Operands.{converted_to, fitted, promoted_value, dropped, value_type};

use crate::types::unqualified_copy;
use crate::values::value_of;
use cr_base::{Boxed, Memory};
use cx_core::{CoreExpr, Ty, Types, promote};
use cx_forms::{convert_node, null_node, void_ty};
use cx_kinds::{is_pointer, is_void, same_type};
use cx_operands::{Operand, is_null_constant, width_of};
use std::alloc::Global;

/// A value converted to a type: a node, unless it has that type (ISO C99, 6.3). Refused only for want of memory.
#[tactic(auto, using(crate::proofs::Opened::type_of_view, crate::proofs::Opened::place_of_view))]
pub fn converted_to(
    alloc: Global,
    ty: Boxed<Ty>,
    value: Boxed<CoreExpr>,
) -> Result<Boxed<CoreExpr>, Memory>
    ensures { IfOk result (λ made. view_expr made ≡ converted_to (view_type ty) (view_expr value)) }
{
    if same_type(&value.get().ty, ty.get()) {
        return Ok(value);
    }
    let place = value.get().place;
    convert_node(alloc, ty, place, value)
}

/// A value as it is stored where a type stands: a null pointer constant becomes a null pointer of that type (ISO C99,
/// 6.5.16.1p2, 6.3.2.3p3). Refused only for want of memory.
#[tactic(auto, using(crate::proofs::Opened::type_of_view, crate::proofs::Opened::place_of_view))]
pub fn fitted(
    alloc: Global,
    types: &Types,
    target: &Ty,
    value: Boxed<CoreExpr>,
) -> Result<Boxed<CoreExpr>, Memory>
    ensures { IfOk result (λ made. view_expr made ≡ fitted (view_types types.now) (view_type target.now) (view_expr value)) }
{
    let ty = unqualified_copy(alloc, target)?;
    if is_pointer(target) && is_null_constant(types, value.get()) {
        let place = value.get().place;
        return null_node(alloc, ty, place);
    }
    converted_to(alloc, ty, value)
}

/// The promoted value of an operand of integer type (ISO C99, 6.3.1.1p2). Refused only for want of memory.
#[tactic(auto, using(crate::proofs::Opened::type_of_view))]
pub fn promoted_value(
    alloc: Global,
    types: &Types,
    operand: Operand,
) -> Result<Boxed<CoreExpr>, Memory>
    requires { IsIntegerType (view_types types.now) (value_type (view_operand operand)) }
    ensures { IfOk result (λ made. view_expr made ≡ promoted_value (view_types types.now) (view_operand operand)) }
{
    let width = width_of(&operand);
    let value = value_of(alloc, operand)?;
    let promoted = promote(&value.get().ty, width, types);
    let ty = Boxed::new(alloc, promoted)?;
    converted_to(alloc, ty, value)
}

/// A value that isn't taken: it stands under a conversion to `void`, unless its type is `void` (ISO C99, 6.8.3p2).
/// Refused only for want of memory.
#[tactic(auto, using(crate::proofs::Opened::type_of_view, crate::proofs::Opened::place_of_view))]
pub fn dropped(alloc: Global, value: Boxed<CoreExpr>) -> Result<Boxed<CoreExpr>, Memory>
    ensures { IfOk result (λ made. view_expr made ≡ dropped (view_expr value)) }
{
    if is_void(&value.get().ty) {
        return Ok(value);
    }
    let place = value.get().place;
    let ty = void_ty(alloc)?;
    convert_node(alloc, ty, place, value)
}

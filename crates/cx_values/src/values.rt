//! Values of operands (ISO C99, 6.3.2.1).

ghost use Rattle.std.specs.Prelude.{◌≡◌, IfOk};
ghost use Rattle.cx_core.specs.Views.{view_expr};
ghost use Rattle.cx_operands.specs.Views.{view_operand};
ghost use Rattle.cx_rules.specs.Operands.{value_of, value_by, value_of_place, nothing_of};

use crate::types::place_value_type;
use cr_base::{Boxed, Memory};
use cx_core::CoreExpr;
use cx_forms::{address_node, convert_node, load_node, void_ty};
use cx_kinds::is_array;
use cx_operands::Operand;
use cx_rules::OperandKind;
use std::alloc::Global;

/// The value of an operand: what an lvalue holds, the address of the first element of an array, nothing of what a
/// pointer to `void` points to, and the value itself (ISO C99, 6.3.2.1p2 to p4). Refused only for want of memory.
pub fn value_of(alloc: Global, operand: Operand) -> Result<Boxed<CoreExpr>, Memory>
    ensures { IfOk result (λ made. view_expr made ≡ value_of (view_operand operand)) }
{
    value_by(alloc, operand.kind, operand.core)
}

fn value_by(
    alloc: Global,
    kind: OperandKind,
    core: Boxed<CoreExpr>,
) -> Result<Boxed<CoreExpr>, Memory>
    ensures { IfOk result (λ made. view_expr made ≡ value_by kind (view_expr core)) }
{
    match kind {
        OperandKind::Place => value_of_place(alloc, core),
        OperandKind::VoidPlace => nothing_of(alloc, core),
        OperandKind::Value | OperandKind::Function => Ok(core),
    }
}

#[tactic(auto, using(crate::proofs::Opened::by_array, crate::proofs::Opened::type_of_view, crate::proofs::Opened::place_of_view))]
fn value_of_place(alloc: Global, core: Boxed<CoreExpr>) -> Result<Boxed<CoreExpr>, Memory>
    ensures { IfOk result (λ made. view_expr made ≡ value_of_place (view_expr core)) }
{
    let place = core.get().place;
    let ty = place_value_type(alloc, &core.get().ty)?;
    if is_array(&core.get().ty) {
        address_node(alloc, ty, place, core)
    } else {
        load_node(alloc, ty, place, core)
    }
}

#[tactic(auto, using(crate::proofs::Opened::type_of_view, crate::proofs::Opened::place_of_view))]
fn nothing_of(alloc: Global, core: Boxed<CoreExpr>) -> Result<Boxed<CoreExpr>, Memory>
    ensures { IfOk result (λ made. view_expr made ≡ nothing_of (view_expr core)) }
{
    let place = core.get().place;
    let ty = void_ty(alloc)?;
    convert_node(alloc, ty, place, core)
}

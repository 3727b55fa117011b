//! `&&`, `||` and the comma operator (ISO C99, 6.5.13, 6.5.14 and 6.5.17).

ghost use Rattle.std.specs.Prelude.{◌≡◌, IfOk};
ghost use Rattle.cx_operands.specs.Views.{view_operand};
ghost use Rattle.cx_rules.specs.Meanings.{and_meaning, or_meaning, comma_meaning};

use crate::operands::a_value;
use cr_base::{Memory, Place};
use cx_core::Basic;
use cx_forms::{and_node, basic_ty, comma_node, or_node};
use cx_operands::Operand;
use cx_values::value_of;
use std::alloc::Global;

/// What `&&` means (ISO C99, 6.5.13p3). Refused only for want of memory.
pub fn and_meaning(
    alloc: Global,
    at: Place,
    left: Operand,
    right: Operand,
) -> Result<Operand, Memory>
    ensures { IfOk result (λ made. view_operand made ≡ and_meaning at (view_operand left) (view_operand right)) }
{
    let first = value_of(alloc, left)?;
    let second = value_of(alloc, right)?;
    let ty = basic_ty(alloc, Basic::Int)?;
    let core = and_node(alloc, ty, at, first, second)?;
    Ok(a_value(core))
}

/// What `||` means (ISO C99, 6.5.14p3). Refused only for want of memory.
pub fn or_meaning(
    alloc: Global,
    at: Place,
    left: Operand,
    right: Operand,
) -> Result<Operand, Memory>
    ensures { IfOk result (λ made. view_operand made ≡ or_meaning at (view_operand left) (view_operand right)) }
{
    let first = value_of(alloc, left)?;
    let second = value_of(alloc, right)?;
    let ty = basic_ty(alloc, Basic::Int)?;
    let core = or_node(alloc, ty, at, first, second)?;
    Ok(a_value(core))
}

/// What the comma operator means (ISO C99, 6.5.17p2). Refused only for want of memory.
#[tactic(auto, using(crate::proofs::Opened::type_of_view))]
pub fn comma_meaning(
    alloc: Global,
    at: Place,
    first: Operand,
    second: Operand,
) -> Result<Operand, Memory>
    ensures { IfOk result (λ made. view_operand made ≡ comma_meaning at (view_operand first) (view_operand second)) }
{
    let before = value_of(alloc, first)?;
    let value = value_of(alloc, second)?;
    let ty = value.get().ty.copy(alloc)?;
    let core = comma_node(alloc, ty, at, before, value)?;
    Ok(a_value(core))
}

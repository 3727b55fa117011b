//! Types of operands' values, and those in which operators compute (ISO C99, 6.3.1).

ghost use Rattle.std.specs.Prelude.{◌≡◌, IfOk};
ghost use Rattle.cx_core.specs.Conversions.{common_type};
ghost use Rattle.cx_core.specs.Trees.{unqualified};
ghost use Rattle.cx_core.specs.Views.{view_type, view_types};
ghost use Rattle.cx_operands.specs.Views.{view_operand, view_value_type};
ghost use Rattle.cx_rules.specs.Meanings.{is_comparison, result_of, pointers_result};
ghost use Rattle.cx_rules.specs.Operands.{promoted_type, common_of};

use cr_base::{Boxed, Memory};
use cx_core::{Basic, Op2, Ty, TyForm, Types, common_basic, promoted_basic};
use cx_forms::{basic_ty, pointer_to, void_ty};
use cx_operands::{Operand, ValueTy, value_type, width_of};
use cx_values::unqualified_copy;
use std::alloc::Global;

/// The type of a value, made (ISO C99, 6.3.2.1). Refused only for want of memory.
pub fn ty_of(alloc: Global, v: ValueTy<'_>) -> Result<Boxed<Ty>, Memory>
    ensures { IfOk result (λ made. view_type made ≡ view_value_type v.entry) }
{
    match v {
        ValueTy::Plain(t) => t.copy(alloc),
        ValueTy::Unqualified(t) => unqualified_copy(alloc, t),
        ValueTy::PointerTo(to) => pointer_to(alloc, to),
        ValueTy::Void => void_ty(alloc),
    }
}

// The unqualified version of the type of a value.
#[tactic(auto, using(crate::proofs::Opened::unqualified_twice))]
fn unqualified_ty_of(alloc: Global, v: ValueTy<'_>) -> Result<Boxed<Ty>, Memory>
    ensures { IfOk result (λ made. view_type made ≡ unqualified (view_value_type v.entry)) }
{
    match v {
        ValueTy::Plain(t) => unqualified_copy(alloc, t),
        ValueTy::Unqualified(t) => unqualified_copy(alloc, t),
        ValueTy::PointerTo(to) => pointer_to(alloc, to),
        ValueTy::Void => void_ty(alloc),
    }
}

/// The promoted type of an operand; another type than an integer type stays, without its qualifier (ISO C99, 6.3.1.1p2).
/// Refused only for want of memory.
pub fn promoted_ty(alloc: Global, types: &Types, operand: &Operand) -> Result<Boxed<Ty>, Memory>
    ensures { IfOk result (λ made. view_type made ≡ promoted_type (view_types types.now) (view_operand operand.now)) }
{
    let v = value_type(operand);
    match v.basic(types) {
        Some(which) => basic_ty(alloc, promoted_basic(which, width_of(operand))),
        None => unqualified_ty_of(alloc, v),
    }
}

/// The common type of two operands (ISO C99, 6.3.1.8). Refused only for want of memory.
pub fn common_ty(
    alloc: Global,
    types: &Types,
    left: &Operand,
    right: &Operand,
) -> Result<Boxed<Ty>, Memory>
    ensures { IfOk result (λ made. view_type made ≡ common_of (view_types types.now) (view_operand left.now) (view_operand right.now)) }
{
    let first = promoted_ty(alloc, types, left)?;
    let second = promoted_ty(alloc, types, right)?;
    joined_ty(alloc, first.get(), second.get())
}

// The common type of two values of promoted types.
fn joined_ty(alloc: Global, first: &Ty, second: &Ty) -> Result<Boxed<Ty>, Memory>
    ensures { IfOk result (λ made. view_type made ≡ common_type (view_type first.now) (view_type second.now)) }
{
    match (&first.form, &second.form) {
        (TyForm::Basic(one), TyForm::Basic(other)) => basic_ty(alloc, common_basic(*one, *other)),
        _ => unqualified_copy(alloc, first),
    }
}

fn is_comparison(op: Op2) -> bool
    ensures { result ≡ is_comparison op }
{
    match op {
        Op2::Less
        | Op2::Greater
        | Op2::LessOrEqual
        | Op2::GreaterOrEqual
        | Op2::Equal
        | Op2::NotEqual => true,
        _ => false,
    }
}

// The type of what an operator gives that computes in a type.
pub(crate) fn result_ty(alloc: Global, op: Op2, computes: Boxed<Ty>) -> Result<Boxed<Ty>, Memory>
    ensures { IfOk result (λ made. view_type made ≡ result_of op (view_type computes)) }
{
    if is_comparison(op) {
        basic_ty(alloc, Basic::Int)
    } else {
        Ok(computes)
    }
}

// The type of what an operator gives of two pointers (6.5.6p9, 6.5.8p6, 6.5.9p3).
pub(crate) fn pointers_ty(alloc: Global, op: Op2) -> Result<Boxed<Ty>, Memory>
    ensures { IfOk result (λ made. view_type made ≡ pointers_result op) }
{
    if is_comparison(op) {
        basic_ty(alloc, Basic::Int)
    } else {
        basic_ty(alloc, Basic::Long)
    }
}

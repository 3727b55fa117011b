//! What pointers point to, elements of arrays, and addresses (ISO C99, 6.5.2.1 and 6.5.3.2).

ghost use Rattle.std.specs.Prelude.{◌≡◌, IsTrue, IfOk, if◌then◌else◌, option_map};
ghost use Rattle.cx_core.specs.Trees.{expr, deref, type_of};
ghost use Rattle.cx_core.specs.Views.{view_expr, view_type};
ghost use Rattle.cx_kinds.specs.Known.{IsKnown, types_in};
ghost use Rattle.cx_nodes.specs.Pointers.{is_deref, pointer_in, deref_plain};
ghost use Rattle.cx_operands.specs.Views.{view_operand};
ghost use Rattle.cx_rules.specs.Meanings.{deref_meaning, index_meaning, address_meaning, address_of_place};
ghost use Rattle.cx_rules.specs.Operands.{a_value};
ghost use Rattle.cx_rules.specs.Types.{target_of};

use crate::constants::no_meaning;
use cr_base::{Boxed, Memory, Place};
use cx_core::{CoreExpr, Form, Op2, Ty};
use cx_forms::{address_node, deref_node, pointer_to};
use cx_kinds::{Known, is_function_pointer, is_void_pointer, target_of};
use cx_operands::{Operand, is_place};
use cx_operators::{a_place, a_value, by_pairing, of_kind};
use cx_pairs::pairing_of;
use cx_rules::OperandKind;
use std::alloc::Global;

/// What unary `*` means of a value: the object or the function to which it points (ISO C99, 6.5.3.2p4). Refused only for
/// want of memory.
#[tactic(auto, using(crate::proofs::Opened::type_of_view, crate::proofs::Addresses::by_target))]
pub fn deref_meaning(alloc: Global, at: Place, from: Boxed<CoreExpr>) -> Result<Operand, Memory>
    ensures { IfOk result (λ made. view_operand made ≡ deref_meaning at (view_expr from)) }
{
    if is_function_pointer(&from.get().ty) {
        return Ok(of_kind(OperandKind::Function, from));
    }
    if is_void_pointer(&from.get().ty) {
        return Ok(of_kind(OperandKind::VoidPlace, from));
    }
    object_behind(alloc, at, from)
}

#[tactic(auto, using(crate::proofs::Opened::type_of_view))]
fn object_behind(alloc: Global, at: Place, from: Boxed<CoreExpr>) -> Result<Operand, Memory>
    ensures { IfOk result (λ made. view_operand made ≡ deref_plain at (view_expr from) (target_of (type_of (view_expr from)))) }
{
    let target = target_copy(alloc, &from.get().ty)?;
    match target {
        None => no_meaning(alloc, at),
        Some(to) => {
            let core = deref_node(alloc, to, at, from)?;
            Ok(a_place(false, core))
        }
    }
}

// What a pointer type points to, copied.
fn target_copy(alloc: Global, t: &Ty) -> Result<Option<Boxed<Ty>>, Memory>
    ensures { IfOk result (λ made. option_map view_type made ≡ target_of (view_type t.now)) }
{
    match target_of(t) {
        None => Ok(None),
        Some(to) => Ok(Some(to.copy(alloc)?)),
    }
}

/// What unary `&` means of an operand: the address of an lvalue, and of a function and of what a pointer to `void` points
/// to that pointer (ISO C99, 6.5.3.2p3). Refused only for want of memory.
pub fn address_meaning(alloc: Global, at: Place, of: Operand) -> Result<Operand, Memory>
    ensures { IfOk result (λ made. view_operand made ≡ address_meaning at (view_operand of)) }
{
    let is_place = is_place(&of);
    addressed(alloc, at, is_place, of.core)
}

fn addressed(
    alloc: Global,
    at: Place,
    is_place: bool,
    core: Boxed<CoreExpr>,
) -> Result<Operand, Memory>
    ensures { IfOk result (λ made. view_operand made ≡ a_value (if is_place then address_of_place at (view_expr core) else view_expr core)) }
{
    if is_place {
        let made = address_of_place(alloc, at, core)?;
        Ok(a_value(made))
    } else {
        Ok(a_value(core))
    }
}

#[tactic(auto, using(crate::proofs::Opened::type_of_view, crate::proofs::Addresses::by_deref))]
fn address_of_place(
    alloc: Global,
    at: Place,
    core: Boxed<CoreExpr>,
) -> Result<Boxed<CoreExpr>, Memory>
    ensures { IfOk result (λ made. view_expr made ≡ address_of_place at (view_expr core)) }
{
    if is_deref(core.get()) {
        return Ok(pointer_of(core));
    }
    let ty = pointer_to(alloc, &core.get().ty)?;
    address_node(alloc, ty, at, core)
}

fn is_deref(e: &CoreExpr) -> bool
    ensures { result ≡ is_deref (view_expr e.now) }
{
    matches!(e.form, Form::Deref(_))
}

// The pointer behind a `*`.
fn pointer_of(core: Boxed<CoreExpr>) -> Boxed<CoreExpr>
    requires { IsTrue (is_deref (view_expr core)) }
    ensures { view_expr result ≡ pointer_in (view_expr core) }
{
    let CoreExpr {
        ty: _ty,
        place: _place,
        form,
    } = core.into_inner();
    match form {
        Form::Deref(from) => from,
        _ => unreachable!(),
    }
}

/// What an element of an array means: `a[i]` is `*(a + i)` (ISO C99, 6.5.2.1p2). Refused only for want of memory.
pub fn index_meaning(
    alloc: Global,
    known: Known,
    at: Place,
    of: Operand,
    index: Operand,
) -> Result<Operand, Memory>
    requires { IsKnown known }
    ensures { IfOk result (λ made. view_operand made ≡ index_meaning at (types_in known.entry) (view_operand of) (view_operand index)) }
{
    let pairing = pairing_of(known, Op2::Add, &of, &index);
    let moved = by_pairing(alloc, known.types, at, Op2::Add, of, index, pairing)?;
    deref_meaning(alloc, at, moved)
}

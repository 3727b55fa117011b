//! `?:` (ISO C99, 6.5.15).

ghost use Rattle.std.specs.Prelude.{◌≡◌, IfOk, option_map, Some};
ghost use Rattle.cx_core.specs.Views.{view_type, view_types};
ghost use Rattle.cx_operands.specs.Views.{view_operand, view_value_type};
ghost use Rattle.cx_pairs.specs.Choices.{choice_as};
ghost use Rattle.cx_rules.specs.Meanings.{cond_meaning, chosen_as, choice_type, pointer_to_both, unqualified_composite};
ghost use Rattle.cx_rules.specs.Types.{target_of, void_type};

use crate::constants::no_meaning;
use cr_base::{Boxed, Memory, Place};
use cx_core::{Ty, Types};
use cx_forms::{cond_node, void_ty};
use cx_operands::{Operand, ValueTy, value_type};
use cx_operators::{a_value, common_ty, fitted_value, ty_of};
use cx_pairs::{Choice, choice_of};
use cx_types::{qualified, unqualified_composite};
use cx_values::value_of;
use std::alloc::Global;

/// What `?:` means (ISO C99, 6.5.15p4 to p6). Refused only for want of memory.
pub fn cond_meaning(
    alloc: Global,
    types: &Types,
    at: Place,
    test: Operand,
    first: Operand,
    second: Operand,
) -> Result<Operand, Memory>
    ensures { IfOk result (λ made. view_operand made
        ≡ cond_meaning at (view_types types.now) (view_operand test) (view_operand first) (view_operand second)) }
{
    let found = choice_ty(alloc, types, &first, &second)?;
    match found {
        None => no_meaning(alloc, at),
        Some(ty) => chosen(alloc, types, at, test, first, second, ty),
    }
}

fn chosen(
    alloc: Global,
    types: &Types,
    at: Place,
    test: Operand,
    first: Operand,
    second: Operand,
    ty: Boxed<Ty>,
) -> Result<Operand, Memory>
    ensures { IfOk result (λ made. view_operand made
        ≡ chosen_as at (view_types types.now) (view_operand test) (view_operand first) (view_operand second) (Some (view_type ty))) }
{
    let test = value_of(alloc, test)?;
    let first = fitted_value(alloc, types, ty.get(), first)?;
    let second = fitted_value(alloc, types, ty.get(), second)?;
    let core = cond_node(alloc, ty, at, test, first, second)?;
    Ok(a_value(core))
}

// The type that two operands have together, where they are a pair that `?:` takes.
fn choice_ty(
    alloc: Global,
    types: &Types,
    first: &Operand,
    second: &Operand,
) -> Result<Option<Boxed<Ty>>, Memory>
    ensures { IfOk result (λ made. option_map view_type made ≡ choice_type (view_types types.now) (view_operand first.now) (view_operand second.now)) }
{
    chosen_ty(alloc, types, first, second, choice_of(types, first, second))
}

fn chosen_ty(
    alloc: Global,
    types: &Types,
    first: &Operand,
    second: &Operand,
    choice: Choice,
) -> Result<Option<Boxed<Ty>>, Memory>
    ensures { IfOk result (λ made. option_map view_type made ≡ choice_as (view_types types.now) (view_operand first.now) (view_operand second.now) choice) }
{
    match choice {
        Choice::Integers => Ok(Some(common_ty(alloc, types, first, second)?)),
        Choice::Voids => Ok(Some(void_ty(alloc)?)),
        Choice::First => Ok(Some(ty_of(alloc, value_type(first))?)),
        Choice::Second => Ok(Some(ty_of(alloc, value_type(second))?)),
        Choice::Targets => targets_ty(alloc, value_type(first), value_type(second)),
        Choice::VoidTargets => void_targets_ty(alloc, value_type(first), value_type(second)),
        Choice::Nothing => Ok(None),
    }
}

// A pointer to the composite type of what both point to, with the qualifiers of both.
fn targets_ty(
    alloc: Global,
    one: ValueTy<'_>,
    other: ValueTy<'_>,
) -> Result<Option<Boxed<Ty>>, Memory>
    ensures { IfOk result (λ made. option_map view_type made
        ≡ pointer_to_both unqualified_composite (target_of (view_value_type one.entry)) (target_of (view_value_type other.entry))) }
{
    let Some(first) = one.target() else {
        return Ok(None);
    };
    let Some(second) = other.target() else {
        return Ok(None);
    };
    let composite = unqualified_composite(alloc, first, second)?;
    let to = qualified(alloc, first.is_const || second.is_const, composite.get())?;
    Ok(Some(Ty::pointer(alloc, to, false)?))
}

// A pointer to `void`, with the qualifiers of what both point to.
fn void_targets_ty(
    alloc: Global,
    one: ValueTy<'_>,
    other: ValueTy<'_>,
) -> Result<Option<Boxed<Ty>>, Memory>
    ensures { IfOk result (λ made. option_map view_type made
        ≡ pointer_to_both (λ _ _. void_type) (target_of (view_value_type one.entry)) (target_of (view_value_type other.entry))) }
{
    let Some(first) = one.target() else {
        return Ok(None);
    };
    let Some(second) = other.target() else {
        return Ok(None);
    };
    let void = void_ty(alloc)?;
    let to = qualified(alloc, first.is_const || second.is_const, void.get())?;
    Ok(Some(Ty::pointer(alloc, to, false)?))
}

//! Whether the records of types have layouts. Those of typed units and programs do (`types_are_grounded` of `cx_layout`); of types of
//! which that isn't known it is asked.

ghost use Rattle.std.specs.Prelude.{◌≡◌, true, map, option_map, IfOk};
ghost use Rattle.std.specs.Option.{option_copied};
ghost use Rattle.cx_grounded.specs.Grounded.{AllFit, Fits, HoldsLower, IsGroundedAt, IsLower, rank_in};
ghost use Rattle.cx_core.specs.Trees.{form_of_type};
ghost use Rattle.cx_core.specs.Views.{view_member, view_record, view_type, view_types};
ghost use Rattle.cx_layout.specs.Calls.{AreGrounded, HasFittingBits, IsGrounded, IsWideEnough, record_at};

use cr_base::Memory;
use cx_core::{Member, RecordTy, Ty, TyForm, Types};
use std::alloc::Global;

fn rank_of(ranks: &[u32], number: usize) -> u32
    ensures { result ≡ rank_in ranks.now number }
{
    match ranks.get(number) {
        Some(rank) => *rank,
        None => 0,
    }
}

fn record_at(types: &Types, number: usize) -> Option<&RecordTy>
    ensures { option_map view_record (option_copied result) ≡ record_at (view_types types.now) number }
{
    match types.records.get(number) {
        Some(one) => one.as_ref(),
        None => None,
    }
}

// Whether a record is completed and of a lower rank.
fn is_lower(types: &Types, ranks: &[u32], rank: u32, number: usize) -> bool
    ensures { result ≡ true → IsLower (view_types types.now) ranks.now rank number }
{
    if record_at(types, number).is_none() {
        return false;
    }
    rank_of(ranks, number) < rank
}

// Whether an object of a type holds by value only completed records of a lower rank.
fn holds_lower(types: &Types, ranks: &[u32], rank: u32, ty: &Ty) -> bool
    ensures { result ≡ true → HoldsLower (view_types types.now) ranks.now rank (view_type ty.now) }
{
    match &ty.form {
        TyForm::Basic(_) => true,
        TyForm::Enum(_) => true,
        TyForm::Pointer(_) => true,
        TyForm::Array(element, Some(length)) => {
            *length > 0 && holds_lower(types, ranks, rank, element.get())
        }
        TyForm::Record(number) => is_lower(types, ranks, rank, *number as usize),
        TyForm::Array(_, None) => false,
        TyForm::Void => false,
        TyForm::Function(_) => false,
    }
}

fn is_wide_enough(ty: &Ty, width: u32) -> bool
    ensures { result ≡ true → IsWideEnough (form_of_type (view_type ty.now)) width }
{
    match &ty.form {
        TyForm::Basic(which) => width <= which.width(),
        TyForm::Enum(_) => width <= 32,
        _ => false,
    }
}

fn has_fitting_bits(one: &Member) -> bool
    ensures { result ≡ true → HasFittingBits (view_member one.now) }
{
    match one.bits {
        Some(width) => is_wide_enough(&one.ty, width),
        None => true,
    }
}

fn fits(types: &Types, ranks: &[u32], rank: u32, one: &Member) -> bool
    ensures { result ≡ true → Fits (view_types types.now) ranks.now rank (view_member one.now) }
{
    if !has_fitting_bits(one) {
        return false;
    }
    holds_lower(types, ranks, rank, &one.ty)
}

fn all_fit(types: &Types, ranks: &[u32], rank: u32, members: &[Member]) -> bool
    ensures { result ≡ true → AllFit (view_types types.now) ranks.now rank (map view_member members.now) }
{
    for one in members {
        if !fits(types, ranks, rank, one) {
            return false;
        }
    }
    true
}

fn is_grounded(types: &Types, ranks: &[u32], number: usize, one: &RecordTy) -> bool
    ensures { result ≡ true → IsGrounded (view_types types.now) (rank_in ranks.now) number (view_record one.now) }
{
    if one.number as usize != number {
        return false;
    }
    all_fit(types, ranks, rank_of(ranks, number), one.members.as_slice())
}

fn is_grounded_at(types: &Types, ranks: &[u32], number: usize) -> bool
    ensures { result ≡ true → IsGroundedAt (view_types types.now) ranks.now number }
{
    match record_at(types, number) {
        Some(one) => is_grounded(types, ranks, number, one),
        None => true,
    }
}

fn are_grounded_by(types: &Types, ranks: &[u32]) -> bool
    ensures { result ≡ true → AreGrounded (view_types types.now) }
{
    for number in 0..types.records.len() {
        if !is_grounded_at(types, ranks, number) {
            return false;
        }
    }
    true
}

// One more than the rank of a record that an object of a type holds by value, or 0.
fn above_held(ranks: &[u32], ty: &Ty) -> u32 {
    match &ty.form {
        TyForm::Array(element, _) => above_held(ranks, element.get()),
        TyForm::Record(number) => rank_of(ranks, *number as usize).saturating_add(1),
        _ => 0,
    }
}

fn rank_by_members(ranks: &[u32], one: &RecordTy) -> u32 {
    let mut rank = 0;
    for member in one.members.as_slice() {
        rank = rank.max(above_held(ranks, &member.ty));
    }
    rank
}

// Raises each record above those that it holds; whether one was raised.
fn raise(types: &Types, ranks: &mut Vec<u32>) -> bool {
    let mut raised = false;
    for number in 0..types.records.len() {
        if let Some(one) = record_at(types, number) {
            let rank = rank_by_members(ranks.as_slice(), one);
            if rank > rank_of(ranks.as_slice(), number) && number < ranks.len() {
                ranks[number] = rank;
                raised = true;
            }
        }
    }
    raised
}

fn no_ranks(alloc: Global, count: usize) -> Result<Vec<u32>, Memory> {
    let mut ranks = Vec::new(alloc);
    for _number in 0..count {
        ranks.push(0)?;
    }
    Ok(ranks)
}

/// Whether no completed record of types holds itself or an incomplete type by value (ISO C99, 6.7.2.1p2). Refused only for want of memory.
pub(crate) fn are_grounded(alloc: Global, types: &Types) -> Result<bool, Memory>
    ensures { IfOk result (λ found. found ≡ true → AreGrounded (view_types types.now)) }
{
    let mut ranks = no_ranks(alloc, types.records.len())?;
    for _pass in 0..types.records.len() {
        if !raise(types, &mut ranks) {
            break;
        }
    }
    let found = are_grounded_by(types, ranks.as_slice());
    Ok(found)
}

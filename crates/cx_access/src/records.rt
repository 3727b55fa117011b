//! Loads and stores of structures and unions (ISO C99, 6.3.2.1p2, 6.5.16.1p3).

ghost use Rattle.std.specs.Prelude.{◌≡◌, ◌<◌, None, Some, IfSome};
ghost use Rattle.cx_access.specs.Finds.{Finds};
ghost use Rattle.cx_access.specs.Records.{cells_put};
ghost use Rattle.cx_mean.specs.Accesses.{exact_or_apart, is_inexact, loaded_record, stored_record};
ghost use Rattle.cx_mean.specs.Operands.{cells};

use crate::cells::{put_record, record_cells, record_place};
use crate::places::part_fault;
use crate::ranges::{bits_of_bytes, is_unsequenced};
use crate::trouble::{Trouble, rule_of};
use cr_base::{Items, Laid, URule};
use cx_work::Marks;
use mem_bytes::{Cell, Ptr, Store};
use std::alloc::Global;

#[tactic(auto, using(crate::proofs::Parts::by_fault))]
pub(crate) fn loaded_record<S: Store>(
    alloc: Global,
    store: &S,
    at: Ptr,
    marks: &mut Marks,
    laid: Laid,
) -> Result<Items<Cell>, Trouble>
    ensures { Finds (λ held. record { value = cells held (Some at); marks = marks.new }) result (loaded_record (S.memory store.now) at marks.old laid) }
{
    if let Some(fault) = part_fault(store, at, laid.size) {
        return Err(Trouble::Undefined(rule_of(fault)));
    }
    let Some(range) = bits_of_bytes(at, laid.size) else {
        return Err(Trouble::Memory);
    };
    if is_unsequenced(marks, range) {
        return Err(Trouble::Undefined(URule::U1));
    }
    let held = match record_cells(alloc, store, at, laid) {
        Ok(held) => held,
        Err(trouble) => return Err(trouble),
    };
    match marks.read(range) {
        Ok(()) => Ok(held),
        Err(_) => Err(Trouble::Memory),
    }
}

// Whether two places of so many bytes overlap inexactly; none where no `u64` counts their ends.
fn is_inexact(size: u64, first: Ptr, second: Ptr) -> Option<bool>
    ensures { IfSome result (λ test. test ≡ is_inexact size first second) }
{
    let end = first.offset.checked_add(size)?;
    let other = second.offset.checked_add(size)?;
    if first.block != second.block {
        return Some(false);
    }
    if first.offset == second.offset {
        return Some(false);
    }
    Some(first.offset < other && second.offset < end)
}

// An object that is read and the one that is written don't overlap inexactly (6.5.16.1p3).
fn exact_or_apart(size: u64, at: Ptr, from: Option<Ptr>) -> Result<Ptr, Trouble>
    ensures { Finds (λ one. one) result (exact_or_apart size at from) }
{
    let Some(from) = from else {
        return Ok(at);
    };
    match is_inexact(size, at, from) {
        Some(true) => Err(Trouble::Undefined(URule::U16)),
        Some(false) => Ok(at),
        None => Err(Trouble::Memory),
    }
}

// Stores the cells of a structure or union that lie inside of their object.
#[tactic(auto, using(crate::proofs::Parts::by_fault))]
fn put_cells_at<S: Store>(
    store: &mut S,
    at: Ptr,
    marks: &mut Marks,
    held: &[Cell],
    from: Option<Ptr>,
    laid: Laid,
) -> Result<(), Trouble>
    requires { 0 < laid.align }
    ensures put { Finds (λ _. record { value = cells held.now None; marks = marks.new; blocks = S.memory store.new }) result
        (cells_put (S.memory store.old) at marks.old held.now from laid) }
    ensures limit { S.limit store.new ≡ S.limit store.old }
{
    let Some(range) = bits_of_bytes(at, laid.size) else {
        return Err(Trouble::Memory);
    };
    if is_unsequenced(marks, range) {
        return Err(Trouble::Undefined(URule::U1));
    }
    if let Some(fault) = record_place(store, at, laid) {
        return Err(Trouble::Undefined(rule_of(fault)));
    }
    if let Err(trouble) = exact_or_apart(laid.size, at, from) {
        return Err(trouble);
    }
    if put_record(store, at, laid.align, held).is_err() {
        return Err(Trouble::Memory);
    }
    match marks.write(range) {
        Ok(()) => Ok(()),
        Err(_) => Err(Trouble::Memory),
    }
}

/// Stores the cells of a structure or union.
#[tactic(auto, using(crate::proofs::Parts::by_fault))]
pub(crate) fn stored_record<S: Store>(
    store: &mut S,
    at: Ptr,
    marks: &mut Marks,
    held: &[Cell],
    from: Option<Ptr>,
    laid: Laid,
) -> Result<(), Trouble>
    ensures stored { Finds (λ _. record { value = cells held.now None; marks = marks.new; blocks = S.memory store.new }) result
        (stored_record (S.memory store.old) at marks.old (cells held.now from) laid) }
    ensures limit { S.limit store.new ≡ S.limit store.old }
{
    if held.len() as u64 != laid.size {
        return Err(Trouble::Memory);
    }
    if laid.align == 0 {
        return Err(Trouble::Memory);
    }
    if let Some(fault) = part_fault(store, at, laid.size) {
        return Err(Trouble::Undefined(rule_of(fault)));
    }
    put_cells_at(store, at, marks, held, from, laid)
}

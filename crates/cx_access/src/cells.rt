//! The cells of structures and unions, read and stored one after the other (ISO C99, 6.2.6.1p6).

ghost use Rattle.std.specs.Prelude.{◌≡◌, ◌<◌, IsTrue, IfOk, IfSome, Ok};
ghost use Rattle.cx_access.specs.Finds.{Finds, fault_in};
ghost use Rattle.cx_access.specs.Records.{misaligned};
ghost use Rattle.cx_mean.specs.Operands.{accessed};
ghost use Rattle.mem_bytes.specs.Access.{after_put_cell, after_put_record, cell_at, record_at};
ghost use Rattle.mem_bytes.specs.Calls.{IsCell, IsPointer};
ghost use Rattle.mem_bytes.specs.Laws.{after_put_cells, behind, cells_read};

use crate::trouble::{Trouble, rule_of};
use cr_base::{Items, Laid, Memory};
use mem_bytes::{Cell, Fault, Ptr, Store, Value, cells_go_one_by_one};
use std::alloc::Global;

// A place so many bytes behind another.
fn behind(at: Ptr, bytes: u64) -> Option<Ptr>
    ensures { IfSome result (λ one. one ≡ behind at bytes) }
{
    let offset = at.offset.checked_add(bytes)?;
    Some(Ptr {
        block: at.block,
        offset,
    })
}

// The cell so many bytes behind a place.
fn cell_behind<S: Store>(store: &S, at: Ptr, bytes: u64) -> Result<Cell, Memory>
    ensures { IfOk result (λ cell. cell_at (S.memory store.now) (behind at bytes) ≡ Ok cell) }
{
    let Some(place) = behind(at, bytes) else {
        return Err(Memory);
    };
    match store.cell(place) {
        Ok(cell) => Ok(cell),
        Err(_) => Err(Memory),
    }
}

// So many cells from a place on.
fn read_cells<S: Store>(
    alloc: Global,
    store: &S,
    at: Ptr,
    count: u64,
) -> Result<Items<Cell>, Memory>
    ensures { IfOk result (λ cells. cells_read (S.memory store.now) at count ≡ Ok cells) }
{
    let mut cells = Items::new(alloc);
    for index in 0..count {
        cells.push(cell_behind(store, at, index)?)?;
    }
    Ok(cells)
}

// What is wrong with the place of a structure or union, if something is.
fn record_fault<S: Store>(store: &S, at: Ptr, size: u64, align: u64) -> Option<Fault>
    requires { 0 < align }
    ensures { result ≡ fault_in (record_at (S.memory store.now) at size align) }
{
    let Some(state) = store.state(at.block) else {
        return Some(Fault::Dead);
    };
    if !state.live {
        return Some(Fault::Dead);
    }
    match at.offset.checked_add(size) {
        Some(end) if end <= state.size => aligned_fault(at.offset, state.align, align),
        _ => Some(Fault::Outside),
    }
}

fn aligned_fault(offset: u64, held: u64, align: u64) -> Option<Fault>
    requires { 0 < align }
    ensures { result ≡ misaligned align held offset }
{
    if offset % align != 0 {
        return Some(Fault::Misaligned);
    }
    if held < align {
        return Some(Fault::Misaligned);
    }
    None
}

/// The cells of a structure or union.
#[tactic(auto, using(crate::proofs::Celled::whole_read))]
pub(crate) fn record_cells<S: Store>(
    alloc: Global,
    store: &S,
    at: Ptr,
    laid: Laid,
) -> Result<Items<Cell>, Trouble>
    ensures { Finds (λ held. held) result (accessed (record_at (S.memory store.now) at laid.size laid.align)) }
{
    if laid.align == 0 {
        return Err(Trouble::Memory);
    }
    if let Some(fault) = record_fault(store, at, laid.size, laid.align) {
        return Err(Trouble::Undefined(rule_of(fault)));
    }
    cells_go_one_by_one();
    match read_cells(alloc, store, at, laid.size) {
        Ok(cells) => Ok(cells),
        Err(_) => Err(Trouble::Memory),
    }
}

/// What is wrong with the place of a structure or union, if something is.
pub(crate) fn record_place<S: Store>(store: &S, at: Ptr, laid: Laid) -> Option<Fault>
    requires { 0 < laid.align }
    ensures { result ≡ fault_in (record_at (S.memory store.now) at laid.size laid.align) }
{
    record_fault(store, at, laid.size, laid.align)
}

// Whether a cell is one that memory may hold.
fn is_cell(cell: Cell) -> bool
    ensures { IsTrue result → IsCell cell }
{
    match cell {
        Cell::Bits { .. } => true,
        Cell::PtrByte { of, index } => is_pointer(of) && index < 8,
    }
}

fn is_pointer(of: Value) -> bool
    ensures { IsTrue result → IsPointer of }
{
    matches!(of, Value::Object(_) | Value::Code(_))
}

// Sets the cell so many bytes behind a place.
fn put_behind<S: Store>(store: &mut S, at: Ptr, bytes: u64, cell: Cell) -> Result<(), Memory>
    ensures put { IfOk result (λ _. after_put_cell (S.memory store.old) (behind at bytes) cell ≡ Ok (S.memory store.new)) }
    ensures limit { S.limit store.new ≡ S.limit store.old }
{
    let Some(place) = behind(at, bytes) else {
        return Err(Memory);
    };
    if !is_cell(cell) {
        return Err(Memory);
    }
    match store.put_cell(place, cell) {
        Ok(()) => Ok(()),
        Err(_) => Err(Memory),
    }
}

// Sets the cells from a place on.
fn put_cells<S: Store>(store: &mut S, at: Ptr, cells: &[Cell]) -> Result<(), Memory>
    ensures put { IfOk result (λ _. after_put_cells (S.memory store.old) at cells.now ≡ Ok (S.memory store.new)) }
    ensures limit { S.limit store.new ≡ S.limit store.old }
{
    for index in 0..cells.len() {
        put_behind(store, at, index as u64, cells[index])?;
    }
    Ok(())
}

/// Stores the cells of a structure or union of an alignment.
pub fn put_record<S: Store>(
    store: &mut S,
    at: Ptr,
    align: u64,
    cells: &[Cell],
) -> Result<(), Memory>
    ensures put { IfOk result (λ _. after_put_record (S.memory store.old) at align cells.now ≡ Ok (S.memory store.new)) }
    ensures limit { S.limit store.new ≡ S.limit store.old }
{
    if align == 0 {
        return Err(Memory);
    }
    if record_fault(store, at, cells.len() as u64, align).is_some() {
        return Err(Memory);
    }
    cells_go_one_by_one();
    put_cells(store, at, cells)
}

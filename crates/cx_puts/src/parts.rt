//! Cells of an object that puts cover (ISO C99, 6.7.8).

ghost use Rattle.std.specs.Prelude.{◌≡◌, ◌+◌, ◌≤◌, length, take, drop, replicate, Ok, IfOk, IsTrue, OnOk, option_map};
ghost use Rattle.cx_access.specs.Views.{view_setting};
ghost use Rattle.cx_core.specs.Views.{view_put, view_puts};
ghost use Rattle.cx_mean.specs.Initialisers as meaning;
ghost use Rattle.cx_mean.specs.Initialisers.{field_unset, with_cells};
ghost use Rattle.mem_bytes.specs.Bits.{bytes_touched};
ghost use Rattle.mem_bytes.specs.Memory.{unset_cell};

use crate::bits::field_unset;
use cr_base::{Memory, Spot};
use cx_access::{Setting, extent_of, is_field_place};
use cx_core::Put;
use cx_work::OperandTy;
use mem_bytes::{Cell, bytes_touched};
use std::alloc::Global;

/// A byte of which no bit is set.
pub(crate) const UNSET: Cell = Cell::Bits { value: 0, set: 0 };

// A byte of bits that are 0 and set.
const ZERO: Cell = Cell::Bits { value: 0, set: 255 };

// So many cells that are alike.
fn repeated(alloc: Global, cell: Cell, count: u64) -> Result<Vec<Cell>, Memory>
    ensures { IfOk result (λ cells. cells.items ≡ replicate count cell) }
{
    let mut cells = Vec::new(alloc);
    for _index in 0..count {
        cells.push(cell)?;
    }
    Ok(cells)
}

// Unsets the cells from one index to another.
fn unset_cells(cells: &mut Vec<Cell>, from: usize, count: usize)
    requires { from + count ≤ length cells.old.items }
    ensures { cells.new.items ≡ with_cells from (replicate count unset_cell) cells.old.items }
{
    cells.as_mut_slice()[from..from + count].fill(UNSET);
}

// Writes cells over those from an index on.
fn write_cells(cells: &mut Vec<Cell>, from: usize, new: &[Cell])
    requires { from + length new.now ≤ length cells.old.items }
    ensures { cells.new.items ≡ with_cells from new.now cells.old.items }
{
    cells.as_mut_slice()[from..from + new.len()].copy_from_slice(new);
}

// Whether so many cells from a place on are among others.
fn are_within(cells: &Vec<Cell>, from: u64, count: u64) -> bool
    ensures { IsTrue result → from + count ≤ length cells.now.items }
{
    match from.checked_add(count) {
        Some(end) => end <= cells.len() as u64,
        None => false,
    }
}

// The cells of a part become unset. No typed program has a put that leaves its object.
fn unset_part(cells: &mut Vec<Cell>, from: u64, size: u64) -> Result<(), Memory>
    ensures { OnOk result (cells.new.items ≡ with_cells from (replicate size unset_cell) cells.old.items) }
{
    if !are_within(cells, from, size) {
        return Err(Memory);
    }
    unset_cells(cells, from as usize, size as usize);
    Ok(())
}

// The bits of a bit-field become unset.
fn unset_field(cells: &mut Vec<Cell>, spot: Spot) -> Result<(), Memory>
    ensures { OnOk result (cells.new.items ≡ with_cells spot.byte (field_unset spot.bit spot.width (take (bytes_touched spot.bit spot.width) (drop spot.byte cells.old.items))) cells.old.items) }
{
    if !is_field_place(spot.bit, spot.width) {
        return Err(Memory);
    }
    let count = bytes_touched(spot.bit, spot.width);
    if !are_within(cells, spot.byte, count) {
        return Err(Memory);
    }
    let from = spot.byte as usize;
    let held = &cells.as_slice()[from..from + count as usize];
    let new = field_unset(spot.bit, spot.width, held);
    write_cells(cells, from, &new[..count as usize]);
    Ok(())
}

// The bits that a put covers become unset.
fn unset_put(setting: &Setting<'_>, put: &Put, cells: &mut Vec<Cell>) -> Result<(), Memory>
    ensures { OnOk result (meaning.unset_put (view_setting setting.now) (view_put put.now) cells.old.items ≡ Ok cells.new.items) }
{
    let Some(laid) = extent_of(setting, OperandTy::Of(&put.ty)) else {
        return Err(Memory);
    };
    if put.spot.width == 0 {
        return unset_part(cells, put.spot.byte, laid.size);
    }
    unset_field(cells, put.spot)
}

// The bits that puts cover become unset.
fn unset_puts(setting: &Setting<'_>, puts: &[Put], cells: &mut Vec<Cell>) -> Result<(), Memory>
    ensures { OnOk result (meaning.unset_puts (view_setting setting.now) (view_puts puts.now) cells.old.items ≡ Ok cells.new.items) }
{
    for put in puts {
        unset_put(setting, put, cells)?;
    }
    Ok(())
}

/// The cells of an object of so many bytes before its puts: those that no put covers are 0, and the others unset; all are
/// where there is no initialiser.
///
/// # Errors
///
/// `Memory` for want of memory.
pub(crate) fn first_cells(
    alloc: Global,
    setting: &Setting<'_>,
    size: u64,
    puts: Option<&[Put]>,
) -> Result<Vec<Cell>, Memory>
    ensures { IfOk result (λ cells. meaning.first_cells (view_setting setting.now) size (option_map (λ list. view_puts list.now) puts.entry) ≡ Ok cells.items) }
{
    let Some(puts) = puts else {
        return repeated(alloc, UNSET, size);
    };
    let mut cells = repeated(alloc, ZERO, size)?;
    match unset_puts(setting, puts, &mut cells) {
        Ok(()) => Ok(cells),
        Err(memory) => Err(memory),
    }
}

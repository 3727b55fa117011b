ghost use Rattle.std.specs.Prelude.{◌≡◌, ◌==◌, ◌+◌, ◌-◌, ◌/◌, ◌%◌, ◌^◌, IsTrue, ◌<◌, ◌≤◌, ◌++◌, length, take, drop, replicate, Ok, Err, IfOk, MatchResult, All};
ghost use Rattle.mem_bytes.specs.Access.{part_of, scalar_part_of, block_value, block_with_value, block_field, block_with_field, block_with_fill, block_cell, block_with_cell, block_with_copy};
ghost use Rattle.mem_bytes.specs.Calls.{Does, IsCell, IsFieldPlace};
ghost use Rattle.cr_base.specs.Scalar.{is_width};
ghost use Rattle.mem_bytes.specs.Coding.{IsScalar, IsValueOf, scalar_size};
ghost use Rattle.mem_bytes.specs.Chunks.{no_block};
ghost use Rattle.mem_bytes.specs.Memory.{size_of, byte_cell, new_block, with_part};

use crate::cell::Cell;
use crate::coding::{decode, scalar_size, write_value};
use crate::fault::Fault;
use crate::field::{bytes_touched, field_in, with_field_in};
use crate::value::Value;
use cr_base::{Memory, Scalar};
use std::alloc::Global;
use std::marker::Model;
use std::mem;

// A live block, as a store of lists keeps it: each of its cells is one that memory may hold. Contracts
// see it as the block.
#[derive(Drop)]
pub(crate) struct Slot {
    align: u64,
    cells: Vec<Cell>,
}

impl Model for Slot {
    ghost use Rattle.mem_bytes.specs.Memory.{Block};

    ghost Value = { Block };

    ghost view = { λ slot. record { align = slot.align; cells = slot.cells.items } };

    ghost use Rattle.std.specs.Prelude.{All};
    ghost use Rattle.mem_bytes.specs.Calls.{IsCell};

    ghost invariant = { λ slot. All IsCell slot.cells.items };
}

impl Slot {
    // A block whose bits are all unset.
    pub(crate) fn new(alloc: Global, size: u64, align: u64) -> Result<Slot, Memory>
        ensures { IfOk result (λ slot. slot ≡ new_block size align) }
    {
        let cells = Vec::from_elem(alloc, Cell::UNSET, size as usize)?;
        Ok(Slot { align, cells })
    }

    // Takes the block, and leaves one without cells.
    pub(crate) fn take(&mut self) -> Slot
        ensures block { result ≡ self.old }
        ensures rest { self.new ≡ no_block }
    {
        let cells = Vec::new(*self.cells.allocator());
        mem::replace(self, Slot { align: 1, cells })
    }

    #[inline(always)]
    pub(crate) fn size(&self) -> u64
        ensures { result ≡ size_of self.now }
    {
        self.cells.len() as u64
    }

    pub(crate) fn align(&self) -> u64
        ensures { result ≡ self.now.align }
    {
        self.align
    }

    // The cells of an access.
    #[inline(always)]
    pub(crate) fn part(&self, offset: u64, count: u64) -> Result<&[Cell], Fault>
        ensures value { MatchResult result
            (λ part. part_of self.now offset count ≡ Ok part.now)
            (λ fault. part_of self.now offset count ≡ Err fault) }
        ensures held { IfOk result (λ part. All IsCell part.now) }
    {
        match offset.checked_add(count) {
            Some(end) if end <= self.size() => {
                Ok(&self.cells.as_slice()[offset as usize..end as usize])
            }
            _ => Err(Fault::Outside),
        }
    }

    // The cells of a scalar.
    #[inline(always)]
    fn scalar_part(&self, offset: u64, scalar: Scalar) -> Result<&[Cell], Fault>
        requires { IsScalar scalar }
        ensures { MatchResult result
            (λ part. scalar_part_of self.now offset scalar ≡ Ok part.now)
            (λ fault. scalar_part_of self.now offset scalar ≡ Err fault) }
    {
        let size = scalar_size(scalar) as u64;
        let part = self.part(offset, size)?;
        if !is_multiple(scalar, offset) {
            return Err(Fault::Misaligned);
        }
        if self.align < size {
            return Err(Fault::Misaligned);
        }
        Ok(part)
    }

    #[inline(always)]
    pub(crate) fn load(&self, offset: u64, scalar: Scalar) -> Result<Value, Fault>
        requires { IsScalar scalar }
        ensures value { result ≡ block_value self.now offset scalar }
        ensures in_type { IfOk result (IsValueOf scalar) }
    {
        match self.scalar_part(offset, scalar) {
            Ok(part) => decode(scalar, part),
            Err(fault) => Err(fault),
        }
    }

    pub(crate) fn load_bits(&self, offset: u64, bit: u32, width: u32) -> Result<u64, Fault>
        requires { IsFieldPlace bit width }
        ensures { result ≡ block_field self.now offset bit width }
    {
        match self.part(offset, bytes_touched(bit, width)) {
            Ok(part) => field_in(bit, width, part),
            Err(fault) => Err(fault),
        }
    }

    pub(crate) fn cell(&self, offset: u64) -> Result<Cell, Fault>
        ensures value { result ≡ block_cell self.now offset }
        ensures held { IfOk result IsCell }
    {
        match self.part(offset, 1) {
            Ok(part) => Ok(part[0]),
            Err(fault) => Err(fault),
        }
    }

    // Writes cells from an offset on.
    fn write(&mut self, offset: u64, cells: &[Cell])
        requires within { offset + length cells.now ≤ size_of self.old }
        requires held { All IsCell cells.now }
        ensures { self.new ≡ with_part self.old offset cells.now }
    {
        let held = self.cells.as_mut_slice();
        let start = offset as usize;
        let end = start + cells.len();
        held[start..end].copy_from_slice(cells);
    }

    #[inline(always)]
    pub(crate) fn put(&mut self, offset: u64, scalar: Scalar, value: Value) -> Result<(), Fault>
        requires scalar { IsScalar scalar }
        requires value { IsValueOf scalar value }
        ensures { Does result self.old self.new (block_with_value self.old offset scalar value) }
    {
        self.scalar_part(offset, scalar)?;
        let start = offset as usize;
        let end = start + scalar_size(scalar);
        write_value(&mut self.cells.as_mut_slice()[start..end], scalar, value);
        Ok(())
    }

    pub(crate) fn put_bits(
        &mut self,
        offset: u64,
        bit: u32,
        width: u32,
        field: u64,
    ) -> Result<(), Fault>
        requires place { IsFieldPlace bit width }
        requires value { field < 2 ^ width }
        ensures { Does result self.old self.new (block_with_field self.old offset bit width field) }
    {
        let count = bytes_touched(bit, width);
        let part = self.part(offset, count)?;
        let cells = with_field_in(bit, width, field, part)?;
        self.write(offset, &cells[..count as usize]);
        Ok(())
    }

    pub(crate) fn fill(&mut self, offset: u64, byte: u8, count: u64) -> Result<(), Fault>
        ensures { Does result self.old self.new (block_with_fill self.old offset byte count) }
    {
        self.part(offset, count)?;
        let start = offset as usize;
        set_bytes(&mut self.cells, start, start + count as usize, byte);
        Ok(())
    }

    pub(crate) fn put_cell(&mut self, offset: u64, cell: Cell) -> Result<(), Fault>
        requires { IsCell cell }
        ensures { Does result self.old self.new (block_with_cell self.old offset cell) }
    {
        self.part(offset, 1)?;
        self.write(offset, &[cell]);
        Ok(())
    }

    // Copies cells inside the block.
    pub(crate) fn copy(&mut self, from: u64, to: u64, count: u64) -> Result<(), Fault>
        ensures { Does result self.old self.new (block_with_copy self.old to self.old from count) }
    {
        self.part(from, count)?;
        self.part(to, count)?;
        let start = from as usize;
        let end = start + count as usize;
        self.cells.copy_within(start..end, to as usize);
        Ok(())
    }

    // Copies cells from another block.
    pub(crate) fn copy_from(
        &mut self,
        source: &Slot,
        from: u64,
        to: u64,
        count: u64,
    ) -> Result<(), Fault>
        ensures { Does result self.old self.new
            (block_with_copy self.old to source.now from count) }
    {
        let cells = source.part(from, count)?;
        self.part(to, count)?;
        self.write(to, cells);
        Ok(())
    }
}

// Sets the cells from one index to another to a byte.
fn set_bytes(cells: &mut Vec<Cell>, start: usize, end: usize, byte: u8)
    requires order { start ≤ end }
    requires within { end ≤ length cells.old.items }
    ensures { cells.new.items ≡ take start cells.old.items
        ++ replicate (end - start) (byte_cell byte) ++ drop end cells.old.items }
{
    let cell = Cell::Bits {
        value: byte,
        set: 255,
    };
    cells.as_mut_slice()[start..end].fill(cell);
}

// Whether an offset is a multiple of a scalar's alignment, which is its size. A case for each, so that
// no division is by a variable.
#[inline(always)]
fn is_multiple(scalar: Scalar, offset: u64) -> bool
    requires { IsScalar scalar }
    ensures { result ≡ (offset % scalar_size scalar == 0) }
{
    match scalar {
        Scalar::Truth => true,
        Scalar::Whole { width, .. } => is_multiple_of_width(width, offset),
        Scalar::Object | Scalar::Code => offset % 8 == 0,
    }
}

#[inline(always)]
fn is_multiple_of_width(width: u8, offset: u64) -> bool
    requires { IsTrue (is_width width) }
    ensures { result ≡ (offset % (width / 8) == 0) }
{
    match width {
        8 => true,
        16 => offset % 2 == 0,
        32 => offset % 4 == 0,
        _ => offset % 8 == 0,
    }
}

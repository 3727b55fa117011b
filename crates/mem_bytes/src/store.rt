ghost use Rattle.std.specs.Prelude.{◌≡◌, ◌<◌, ◌^◌, length, IfOk};
ghost use Rattle.mem_bytes.specs.Access.{value_at, after_put, field_at, after_put_bits, after_copy, after_fill, cell_at, after_put_cell, after_kill};
ghost use Rattle.mem_bytes.specs.Calls.{Allocates, Does, IsAlignment, IsBlockSize, IsCell, IsFieldPlace};
ghost use Rattle.mem_bytes.specs.Coding.{IsScalar, IsValueOf};
ghost use Rattle.mem_bytes.specs.Counted.{after_alloc};
ghost use Rattle.mem_bytes.specs.Memory.{block_state};

use crate::cell::Cell;
use crate::fault::{Fault, StoreFault};
use crate::value::{Ptr, Value};
use cr_base::Scalar;

/// What is told of a block that was made.
#[derive(Clone, Copy, Debug, PartialEq, Eq)]
pub struct BlockState {
    /// In bytes; 0 for a block that has died.
    pub size: u64,
    /// In bytes; 1 for a block that has died.
    pub align: u64,
    /// Whether its life hasn't ended.
    pub live: bool,
}

/// A memory of blocks of bytes (ISO C99, 6.2.4 and 6.2.6). Only `alloc` may take memory of the
/// machine. After a fault nothing changed.
pub trait Store {
    ghost use Rattle.std.specs.Prelude.{Option};
    ghost use Rattle.mem_bytes.specs.Counted.{Limit};
    ghost use Rattle.mem_bytes.specs.Memory.{Blocks};

    // Its blocks, with their cells.
    ghost memory: { Self → Blocks };

    // How much it holds, where that is limited.
    ghost limit: { Self → Option Limit };

    /// Makes a block of `size` bytes, all of whose bits are unset, and answers its number. Numbers
    /// count up from 0 and are never used again.
    ///
    /// `size` is at most 16,777,216 and `align` is 1, 2, 4, 8 or 16, both in bytes.
    ///
    /// # Errors
    ///
    /// `Full` exactly where the store has a limit and the block goes past it; `Memory` for want of
    /// memory.
    fn alloc(&mut self, size: u64, align: u64) -> Result<u64, StoreFault>
        requires size { IsBlockSize size }
        requires align { IsAlignment align }
        requires number { length (memory self.old) < 2 ^ 60 }
        ensures outcome { Allocates result (memory self.old) (memory self.new)
            (after_alloc (limit self.old) (memory self.old) size align) }
        ensures limit { limit self.new ≡ limit self.old };

    /// Ends the life of a block.
    ///
    /// # Errors
    ///
    /// `Dead` exactly where the block isn't live.
    fn kill(&mut self, block: u64) -> Result<(), Fault>
        ensures outcome { Does result (memory self.old) (memory self.new)
            (after_kill (memory self.old) block) }
        ensures limit { limit self.new ≡ limit self.old };

    /// The value of the scalar at a place (6.3.2.1p2). It is a value of the scalar's type.
    ///
    /// # Errors
    ///
    /// Any fault; `BadBool` for a `_Bool` alone.
    fn load(&self, at: Ptr, scalar: Scalar) -> Result<Value, Fault>
        requires { IsScalar scalar }
        ensures value { result ≡ value_at (memory self.now) at scalar }
        ensures in_type { IfOk result (IsValueOf scalar) };

    /// Stores a value of the scalar's type at a place (6.5.16.1p2).
    ///
    /// # Errors
    ///
    /// `Dead`, `Outside` or `Misaligned`.
    fn put(&mut self, at: Ptr, scalar: Scalar, value: Value) -> Result<(), Fault>
        requires scalar { IsScalar scalar }
        requires value { IsValueOf scalar value }
        ensures outcome { Does result (memory self.old) (memory self.new)
            (after_put (memory self.old) at scalar value) }
        ensures limit { limit self.new ≡ limit self.old };

    /// The bits of a bit-field (6.7.2.1p9) as a number from 0 on. It begins at the bit `bit`, from
    /// 0 to 7, of the byte at a place, and has `width` bits, from 1 to 32.
    ///
    /// # Errors
    ///
    /// `Dead`, `Outside`, `Unset` where a bit of the field is unset, or `MixedPointer` where a byte
    /// that it touches is a pointer's.
    fn load_bits(&self, at: Ptr, bit: u32, width: u32) -> Result<u64, Fault>
        requires { IsFieldPlace bit width }
        ensures { result ≡ field_at (memory self.now) at bit width };

    /// Stores a number below 2^`width` in a bit-field, at a place as in `load_bits`. The bits
    /// beside the field stay.
    ///
    /// # Errors
    ///
    /// `Dead`, `Outside`, or `MixedPointer` where a byte that the field touches is a pointer's.
    fn put_bits(&mut self, at: Ptr, bit: u32, width: u32, field: u64) -> Result<(), Fault>
        requires place { IsFieldPlace bit width }
        requires value { field < 2 ^ width }
        ensures outcome { Does result (memory self.old) (memory self.new)
            (after_put_bits (memory self.old) at bit width field) }
        ensures limit { limit self.new ≡ limit self.old };

    /// Copies `count` cells, unset ones and bytes of pointers too. The places may overlap, and a
    /// copy of no cells does nothing (7.21.2.2).
    ///
    /// # Errors
    ///
    /// `Dead` where one of the blocks isn't live, or `Outside` where the cells leave one.
    fn copy(&mut self, from: Ptr, to: Ptr, count: u64) -> Result<(), Fault>
        ensures outcome { Does result (memory self.old) (memory self.new)
            (after_copy (memory self.old) from to count) }
        ensures limit { limit self.new ≡ limit self.old };

    /// Sets `count` bytes to one value (7.21.6.1).
    ///
    /// # Errors
    ///
    /// `Dead` or `Outside`.
    fn fill(&mut self, at: Ptr, byte: u8, count: u64) -> Result<(), Fault>
        ensures outcome { Does result (memory self.old) (memory self.new)
            (after_fill (memory self.old) at byte count) }
        ensures limit { limit self.new ≡ limit self.old };

    /// The cell at a place, as it is: unset or of a pointer too. It is one that `put_cell` takes.
    ///
    /// # Errors
    ///
    /// `Dead` or `Outside`.
    fn cell(&self, at: Ptr) -> Result<Cell, Fault>
        ensures value { result ≡ cell_at (memory self.now) at }
        ensures held { IfOk result IsCell };

    /// Sets the cell at a place. A pointer's byte is one of the eight of a pointer that isn't null.
    ///
    /// # Errors
    ///
    /// `Dead` or `Outside`.
    fn put_cell(&mut self, at: Ptr, cell: Cell) -> Result<(), Fault>
        requires { IsCell cell }
        ensures outcome { Does result (memory self.old) (memory self.new)
            (after_put_cell (memory self.old) at cell) }
        ensures limit { limit self.new ≡ limit self.old };

    /// What is told of a block, or None exactly where no such block was made.
    fn state(&self, block: u64) -> Option<BlockState>
        ensures { result ≡ block_state (memory self.now) block };
}

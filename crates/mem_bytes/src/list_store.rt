ghost use Rattle.std.specs.Prelude.{◌≡◌, ◌≢◌, ◌<◌, ◌^◌, ◌++◌, if◌then◌else◌, [], ◌∷◌, length, slice_set, Some, None, true, is_some, MatchResult};
ghost use Rattle.mem_bytes.specs.Access.{block_with_copy, live_change, copied_between};
ghost use Rattle.mem_bytes.specs.Calls.{Does};
ghost use Rattle.mem_bytes.specs.Chunks.{IsDeadAt, emptied};
ghost use Rattle.mem_bytes.specs.Memory.{live_block, state_of};

use crate::cell::Cell;
use crate::chunk::Chunk;
use crate::fault::{Fault, StoreFault};
use crate::slot::Slot;
use crate::store::{BlockState, Store};
use crate::value::{Ptr, Value};
use cr_base::{Memory, Scalar};
use std::alloc::Global;
use std::marker::Model;

/// A store without limit, which keeps the cells of each block in a list of their own. A block that has
/// died leaves next to nothing: the blocks stand in chunks of 64, and a chunk whose blocks have all died
/// is let go. Contracts see the store as its memory.
#[derive(Drop)]
pub struct ListStore {
    // How many blocks were made.
    made: u64,
    // None for a chunk of dead blocks alone.
    chunks: Vec<Option<Chunk>>,
}

impl Model for ListStore {
    ghost use Rattle.mem_bytes.specs.Memory.{Blocks};
    ghost use Rattle.mem_bytes.specs.Chunks.{all_blocks, Holds};

    ghost Value = { Blocks };

    ghost view = { λ store. all_blocks store.chunks.items };

    ghost invariant = { λ store. Holds store.made store.chunks.items };
}

impl ListStore {
    /// A store in which no block was made. It takes memory only as blocks are made.
    pub fn new(alloc: Global) -> ListStore
        ensures { result ≡ [] }
    {
        ListStore {
            made: 0,
            chunks: Vec::new(alloc),
        }
    }

    // Adds a block with the next number.
    fn push(&mut self, slot: Slot) -> Result<(), Memory>
        requires { length self.old < 2 ^ 60 }
        ensures { MatchResult result
            (λ _. self.new ≡ self.old ++ Some slot ∷ [])
            (λ _. self.new ≡ self.old) }
    {
        let Some(place) = self.chunks.get_mut((self.made / 64) as usize) else {
            push_chunk(&mut self.chunks, slot)?;
            self.made += 1;
            return Ok(());
        };
        let Some(chunk) = place else {
            return Err(Memory);
        };
        chunk.push(slot)?;
        self.made += 1;
        Ok(())
    }

    // The live block with a number, to read.
    #[inline(always)]
    fn live(&self, block: u64) -> Result<&Slot, Fault>
        ensures { MatchResult result
            (λ slot. live_block self.now block ≡ Some slot.now)
            (λ fault. (live_block self.now block ≡ None) × (fault ≡ Fault.Dead)) }
    {
        let Some(place) = self.chunks.get((block / 64) as usize) else {
            return Err(Fault::Dead);
        };
        let Some(chunk) = place else {
            return Err(Fault::Dead);
        };
        chunk.live(block % 64)
    }

    // Takes the live block with a number, and leaves one without cells in its place.
    fn take_block(&mut self, block: u64) -> Option<Slot>
        ensures block { result ≡ live_block self.old block }
        ensures rest { self.new ≡ emptied self.old block }
    {
        let Some(place) = self.chunks.get_mut((block / 64) as usize) else {
            return None;
        };
        let Some(chunk) = place else {
            return None;
        };
        chunk.take(block % 64)
    }

    // Puts a block, or none, in the place of a live one.
    fn set_block(&mut self, block: u64, slot: Option<Slot>)
        requires { is_some (live_block self.old block) ≡ true }
        ensures { self.new ≡ slice_set self.old block slot }
    {
        let Some(place) = self.chunks.get_mut((block / 64) as usize) else {
            return;
        };
        let Some(chunk) = place else {
            return;
        };
        chunk.set(block % 64, slot);
    }

    // Lets a chunk go, where all of its blocks have died.
    fn drop_chunk(&mut self, place: usize)
        ensures { self.new ≡ self.old }
    {
        if is_dead(&self.chunks, place) {
            clear(&mut self.chunks, place);
        }
    }

    // Copies cells from one block to another. The first is taken out for that time.
    fn copy_between(&mut self, from: Ptr, to: Ptr, count: u64) -> Result<(), Fault>
        requires { from.block ≢ to.block }
        ensures { Does result self.old self.new
            (copied_between self.old from to count
            (live_block self.old from.block) (live_block self.old to.block)) }
    {
        let Some(source) = self.take_block(from.block) else {
            return Err(Fault::Dead);
        };
        let outcome = self.copy_from(&source, from.offset, to, count);
        self.set_block(from.block, Some(source));
        outcome
    }

    // Copies cells to a block from one that was taken out.
    fn copy_from(&mut self, source: &Slot, from: u64, to: Ptr, count: u64) -> Result<(), Fault>
        ensures { Does result self.old self.new
            (live_change self.old to.block
            (λ target. block_with_copy target to.offset source.now from count)) }
    {
        let Some(mut target) = self.take_block(to.block) else {
            return Err(Fault::Dead);
        };
        let outcome = target.copy_from(source, from, to.offset, count);
        self.set_block(to.block, Some(target));
        outcome
    }
}

impl Store for ListStore {
    ghost use Rattle.std.specs.Prelude.{None};

    ghost memory = { λ store. store };

    ghost limit = { λ _. None };

    fn alloc(&mut self, size: u64, align: u64) -> Result<u64, StoreFault> {
        let number = self.made;
        let slot = Slot::new(*self.chunks.allocator(), size, align)?;
        match self.push(slot) {
            Ok(()) => Ok(number),
            Err(_) => Err(StoreFault::Memory),
        }
    }

    fn kill(&mut self, block: u64) -> Result<(), Fault> {
        if self.take_block(block).is_none() {
            return Err(Fault::Dead);
        }
        self.set_block(block, None);
        self.drop_chunk((block / 64) as usize);
        Ok(())
    }

    fn load(&self, at: Ptr, scalar: Scalar) -> Result<Value, Fault> {
        self.live(at.block)?.load(at.offset, scalar)
    }

    fn put(&mut self, at: Ptr, scalar: Scalar, value: Value) -> Result<(), Fault> {
        let Some(place) = self.chunks.get_mut((at.block / 64) as usize) else {
            return Err(Fault::Dead);
        };
        let Some(chunk) = place else {
            return Err(Fault::Dead);
        };
        chunk.put(at.block % 64, at.offset, scalar, value)
    }

    fn load_bits(&self, at: Ptr, bit: u32, width: u32) -> Result<u64, Fault> {
        self.live(at.block)?.load_bits(at.offset, bit, width)
    }

    fn put_bits(&mut self, at: Ptr, bit: u32, width: u32, field: u64) -> Result<(), Fault> {
        let Some(mut slot) = self.take_block(at.block) else {
            return Err(Fault::Dead);
        };
        let outcome = slot.put_bits(at.offset, bit, width, field);
        self.set_block(at.block, Some(slot));
        outcome
    }

    fn copy(&mut self, from: Ptr, to: Ptr, count: u64) -> Result<(), Fault> {
        if count == 0 {
            return Ok(());
        }
        if from.block != to.block {
            return self.copy_between(from, to, count);
        }
        let Some(mut slot) = self.take_block(from.block) else {
            return Err(Fault::Dead);
        };
        let outcome = slot.copy(from.offset, to.offset, count);
        self.set_block(from.block, Some(slot));
        outcome
    }

    fn fill(&mut self, at: Ptr, byte: u8, count: u64) -> Result<(), Fault> {
        let Some(mut slot) = self.take_block(at.block) else {
            return Err(Fault::Dead);
        };
        let outcome = slot.fill(at.offset, byte, count);
        self.set_block(at.block, Some(slot));
        outcome
    }

    fn cell(&self, at: Ptr) -> Result<Cell, Fault> {
        self.live(at.block)?.cell(at.offset)
    }

    fn put_cell(&mut self, at: Ptr, cell: Cell) -> Result<(), Fault> {
        let Some(mut slot) = self.take_block(at.block) else {
            return Err(Fault::Dead);
        };
        let outcome = slot.put_cell(at.offset, cell);
        self.set_block(at.block, Some(slot));
        outcome
    }

    fn state(&self, block: u64) -> Option<BlockState> {
        match self.live(block) {
            Ok(slot) => Some(BlockState {
                size: slot.size(),
                align: slot.align(),
                live: true,
            }),
            Err(_) => dead_state(block < self.made),
        }
    }
}

// What is told of a block that isn't live: nothing, where it wasn't made.
fn dead_state(made: bool) -> Option<BlockState>
    ensures { result ≡ (if made then Some (state_of None) else None) }
{
    if made {
        Some(BlockState {
            size: 0,
            align: 1,
            live: false,
        })
    } else {
        None
    }
}

// Adds a chunk of one block.
fn push_chunk(chunks: &mut Vec<Option<Chunk>>, slot: Slot) -> Result<(), Memory>
    ensures { MatchResult result
        (λ _. chunks.new.items ≡ chunks.old.items ++ Some (Some slot ∷ []) ∷ [])
        (λ _. chunks.new.items ≡ chunks.old.items) }
{
    let chunk = Chunk::new(*chunks.allocator(), slot)?;
    match chunks.push(Some(chunk)) {
        Ok(()) => Ok(()),
        Err(_) => Err(Memory),
    }
}

// Whether the blocks of a chunk have all died.
fn is_dead(chunks: &[Option<Chunk>], place: usize) -> bool
    ensures { (result ≡ true) → IsDeadAt chunks.now place }
{
    let Some(held) = chunks.get(place) else {
        return false;
    };
    match held {
        Some(chunk) => chunk.is_dead(),
        None => false,
    }
}

fn clear(chunks: &mut Vec<Option<Chunk>>, place: usize)
    requires { place < length chunks.old.items }
    ensures { chunks.new.items ≡ slice_set chunks.old.items place None }
{
    chunks[place] = None;
}

ghost use Rattle.std.specs.Prelude.{◌≡◌, ◌<◌, ◌==◌, ◌&&◌, ◌++◌, [], ◌∷◌, length, slice_set, Some, None, is_none, IfOk, MatchResult};
ghost use Rattle.std.specs.List.{list_all};
ghost use Rattle.mem_bytes.specs.Access.{block_with_value, live_change};
ghost use Rattle.mem_bytes.specs.Calls.{Does};
ghost use Rattle.mem_bytes.specs.Chunks.{emptied};
ghost use Rattle.mem_bytes.specs.Coding.{IsScalar, IsValueOf};
ghost use Rattle.mem_bytes.specs.Memory.{live_block};

use crate::fault::Fault;
use crate::slot::Slot;
use crate::value::Value;
use cr_base::{Memory, Scalar};
use std::alloc::Global;
use std::marker::Model;

// The blocks of 64 numbers in a row, or of the first of these. Contracts see it as a memory of its own,
// in which a block's number is its place.
#[derive(Drop)]
pub(crate) struct Chunk {
    slots: Vec<Option<Slot>>,
}

impl Model for Chunk {
    ghost use Rattle.mem_bytes.specs.Memory.{Blocks};

    ghost Value = { Blocks };

    ghost view = { λ chunk. chunk.slots.items };
}

impl Chunk {
    // A chunk of one block, with room for all 64.
    pub(crate) fn new(alloc: Global, slot: Slot) -> Result<Chunk, Memory>
        ensures { IfOk result (λ chunk. chunk ≡ Some slot ∷ []) }
    {
        let mut slots = Vec::with_capacity(alloc, 64)?;
        slots.push(Some(slot))?;
        Ok(Chunk { slots })
    }

    pub(crate) fn push(&mut self, slot: Slot) -> Result<(), Memory>
        ensures { MatchResult result
            (λ _. self.new ≡ self.old ++ Some slot ∷ [])
            (λ _. self.new ≡ self.old) }
    {
        match self.slots.push(Some(slot)) {
            Ok(()) => Ok(()),
            Err(_) => Err(Memory),
        }
    }

    // The live block at a place, to read.
    #[inline(always)]
    pub(crate) fn live(&self, place: u64) -> Result<&Slot, Fault>
        ensures { MatchResult result
            (λ slot. live_block self.now place ≡ Some slot.now)
            (λ fault. (live_block self.now place ≡ None) × (fault ≡ Fault.Dead)) }
    {
        match self.slots.get(place as usize) {
            Some(Some(slot)) => Ok(slot),
            _ => Err(Fault::Dead),
        }
    }

    #[inline(always)]
    pub(crate) fn put(
        &mut self,
        place: u64,
        offset: u64,
        scalar: Scalar,
        value: Value,
    ) -> Result<(), Fault>
        requires scalar { IsScalar scalar }
        requires value { IsValueOf scalar value }
        ensures { Does result self.old self.new
            (live_change self.old place (λ block. block_with_value block offset scalar value)) }
    {
        let Some(held) = self.slots.get_mut(place as usize) else {
            return Err(Fault::Dead);
        };
        let Some(slot) = held else {
            return Err(Fault::Dead);
        };
        slot.put(offset, scalar, value)
    }

    // Takes the live block at a place, and leaves one without cells there.
    pub(crate) fn take(&mut self, place: u64) -> Option<Slot>
        ensures block { result ≡ live_block self.old place }
        ensures rest { self.new ≡ emptied self.old place }
    {
        let Some(held) = self.slots.get_mut(place as usize) else {
            return None;
        };
        let Some(slot) = held else {
            return None;
        };
        Some(slot.take())
    }

    // Puts a block, or none, in the place of another.
    pub(crate) fn set(&mut self, place: u64, slot: Option<Slot>)
        requires { place < length self.old }
        ensures { self.new ≡ slice_set self.old place slot }
    {
        self.slots[place as usize] = slot;
    }

    // Whether it has 64 blocks and none of them is live.
    pub(crate) fn is_dead(&self) -> bool
        ensures { result ≡ (length self.now == 64 && list_all is_none self.now) }
    {
        self.slots.len() == 64 && self.is_all_dead()
    }

    fn is_all_dead(&self) -> bool
        ensures { result ≡ list_all is_none self.now }
    {
        self.slots.iter().all(|slot| slot.is_none())
    }
}

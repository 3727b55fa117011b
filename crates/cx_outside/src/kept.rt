//! What is kept of a run beside its memory and its host.

ghost use Rattle.std.specs.Prelude.{◌≡◌, pos, [], ◌∷◌, ◌++◌, OnOk, OnErr, IsTrue};
ghost use Rattle.cx_outside.specs.Moves.{IsNewest, Released};

use cr_base::{Items, Memory};
use std::alloc::Global;
use std::cmp::Reverse;
use std::collections::BTreeSet;
use std::marker::Model;

/// The answers that a run has taken, and the blocks that its allocations gave and that live still.
#[derive(Drop)]
pub struct Kept {
    alloc: Global,
    trail: Items<i64>,
    // The newest first: the numbers of blocks rise.
    heap: BTreeSet<Reverse<u64>, Global>,
}

impl Model for Kept {
    ghost use Rattle.cx_outside.specs.States.{KeptState, numbers_of};

    ghost Value = { KeptState };

    ghost view = { λ kept. record { trail = kept.trail; heap = numbers_of kept.heap.keys } };
}

impl Kept {
    /// Before a run.
    pub fn new(alloc: Global) -> Kept
        ensures { result ≡ record { trail = []; heap = [] } }
    {
        Kept {
            alloc,
            trail: Items::new(alloc),
            heap: BTreeSet::new(alloc),
        }
    }

    /// The allocator of the run.
    pub fn alloc(&self) -> Global {
        self.alloc
    }

    /// The answers that were taken, in order.
    pub fn into_trail(self) -> Items<i64>
        ensures { result ≡ self.trail }
    {
        let Kept { trail, .. } = self;
        trail
    }

    /// Notes an answer that was taken.
    pub(crate) fn note(&mut self, answer: i64) -> Result<(), Memory>
        ensures ok { OnOk result (self.new ≡ record self.old { trail = self.old.trail ++ answer ∷ [] }) }
        ensures err { OnErr result (self.new ≡ self.old) }
    {
        self.trail.push(answer)
    }

    /// Notes a block that an allocation gave, by its answer 1. None is noted behind one with a greater number.
    pub(crate) fn granted(&mut self, block: u64) -> Result<(), Memory>
        ensures { OnOk result (self.new ≡ record self.old { trail = self.old.trail ++ pos 1 ∷ []; heap = block ∷ self.old.heap }) }
    {
        if !is_newest(&self.heap, block) {
            return Err(Memory);
        }
        self.trail.push(1)?;
        self.heap.insert(Reverse(block))?;
        Ok(())
    }

    /// Forgets an allocated block, if it is one.
    pub(crate) fn release(&mut self, block: u64) -> bool
        ensures { Released result block self.old self.new }
    {
        self.heap.remove(&Reverse(block))
    }
}

// Whether a number is greater than those that are held.
fn is_newest(heap: &BTreeSet<Reverse<u64>, Global>, block: u64) -> bool
    ensures { IsTrue result → IsNewest block heap.now.keys }
{
    match heap.first() {
        Some(newest) => newest.0 < block,
        None => true,
    }
}

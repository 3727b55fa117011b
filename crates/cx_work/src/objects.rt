//! The objects in scope and the blocks in which they live (ISO C99, 6.2.1 and 6.2.4).

ghost use Rattle.std.specs.Prelude.{◌≡◌, ◌∷◌, [], ◌++◌, drop, OnOk, OnErr};
ghost use Rattle.cx_mean.specs.Operands.{slot_of};

use cr_base::{Items, Memory};
use mem_bytes::Ptr;
use std::alloc::Global;
use std::marker::Model;

/// An object, by its number, with the block in which it lives.
#[derive(Clone, Copy)]
pub struct Slot {
    pub object: u32,
    pub block: u64,
}

impl Model for Slot {
    ghost use Rattle.cx_mean.specs.Operands as meaning;

    ghost Value = { meaning.Slot };

    ghost view = { λ one. record { object = one.object; block = one.block } };

    ghost inverse = { λ one. record { object = one.object; block = one.block } };
}

/// Objects in scope.
pub trait Objects {
    ghost use Rattle.cx_mean.specs.Operands.{Frame};

    // Their slots, those that are looked at first in front.
    ghost frame: { Self → Frame };

    /// The place of the object with a number; none where it isn't in scope.
    fn place_of(&self, object: u32) -> Option<Ptr>
        ensures { result ≡ slot_of (frame self.now) object };
}

/// Objects in scope, as the list of their slots.
#[derive(Drop)]
pub struct Frame {
    slots: Items<Slot>,
}

impl Model for Frame {
    ghost use Rattle.std.specs.Prelude.{List};
    ghost use Rattle.cx_mean.specs.Operands as meaning;

    ghost Value = { List meaning.Slot };

    ghost view = { λ one. one.slots };
}

impl Frame {
    /// No object; it takes no memory until one is added.
    pub fn new(alloc: Global) -> Frame
        ensures { result ≡ [] }
    {
        Frame {
            slots: Items::new(alloc),
        }
    }

    /// Adds an object behind the others. Refused only for want of memory, and then nothing changed.
    pub fn push(&mut self, slot: Slot) -> Result<(), Memory>
        ensures ok { OnOk result (self.new ≡ self.old ++ slot ∷ []) }
        ensures err { OnErr result (self.new ≡ self.old) }
    {
        self.slots.push(slot)
    }

    /// The slots, to read.
    pub fn as_slice(&self) -> &[Slot]
        ensures { result.now ≡ self.now }
    {
        self.slots.as_slice()
    }
}

impl Objects for Frame {
    ghost frame = { λ one. one };

    fn place_of(&self, object: u32) -> Option<Ptr> {
        slot_in(self.slots.as_slice(), object)
    }
}

/// The place of the object with a number, by the first slot that names it.
pub fn slot_in(slots: &[Slot], object: u32) -> Option<Ptr>
    ensures { result ≡ slot_of slots.now object }
{
    for slot in slots {
        if slot.object == object {
            return Some(Ptr {
                block: slot.block,
                offset: 0,
            });
        }
    }
    None
}

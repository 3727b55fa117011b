use cr_base::Memory;

/// What is wrong with an access to memory. Of several faults the first in this order is found.
#[derive(Clone, Copy, Debug, PartialEq, Eq)]
pub enum Fault {
    /// The block isn't live: it has died, or was never made.
    Dead,
    /// The bytes of the access leave the block.
    Outside,
    /// The offset is no multiple of the scalar's alignment, or the alignment of the block is less.
    Misaligned,
    /// A bit that is read was never set.
    Unset,
    /// The byte of a `_Bool` is neither 0 nor 1.
    BadBool,
    /// Bytes of a stored pointer are read as another kind of value, or a bit-field covers them.
    MixedPointer,
}

/// Why a store gives no new block.
#[derive(Clone, Copy, Debug, PartialEq, Eq)]
pub enum StoreFault {
    /// The block goes past the store's limit: the bytes that it needs, and the bytes that are left.
    Full { need: u64, left: u64 },
    /// Want of memory.
    Memory,
}

impl From<Memory> for StoreFault {
    ghost use Rattle.std.specs.Prelude.{◌≡◌};
    ghost use Rattle.mem_bytes.specs.declared.fault.StoreFault.TheVariants.{Memory};

    ghost from_gives = { λ _ fault. fault ≡ Memory };

    fn from(_memory: Memory) -> StoreFault {
        StoreFault::Memory
    }
}

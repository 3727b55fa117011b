//! What the outside gives to a run: answers of calls, and blocks of objects and allocations.

ghost use Rattle.std.specs.Prelude.{◌≡◌, ◌<◌, ◌^◌, Option, length, IsTrue};
ghost use Rattle.cr_world.specs.World.{answered, granted, object_begun};
ghost use Rattle.mem_bytes.specs.Calls.{IsAlignment, IsBlockSize};
ghost use Rattle.mem_bytes.specs.Counted.{Limit};
ghost use Rattle.mem_bytes.specs.Memory.{Blocks};
ghost use Rattle.cx_outside.specs.Blocks.{Begins};
ghost use Rattle.cx_outside.specs.Comes.{Steps, StoreSteps};
ghost use Rattle.cx_outside.specs.States.{KeptState, around};
ghost use Rattle.cx_outside.specs.Wanting.{StepWants};

use crate::kept::Kept;
use cr_base::MOST_BYTES;
use ext_calls::{Call, Host, HostFault};
use mem_bytes::{Ptr, Store, StoreFault, Value};

/// What a run lacks, so that it goes no further.
#[derive(Clone, Copy)]
pub enum Lack<'a> {
    /// An object goes past the store's limit: the bytes that it needs, and those that are left.
    Full { need: u64, left: u64 },
    /// The host doesn't take a call of the function with this name.
    Refused(&'a [u8]),
    /// The outside failed.
    Failed,
    /// Want of memory.
    Memory,
}

/// The answer to a call of the function with this name, whose effect isn't known.
pub fn tell<'a, H: Host>(
    kept: &mut Kept,
    host: &mut H,
    call: &Call,
    name: &'a [u8],
) -> Result<i64, Lack<'a>>
    requires { call.now.name ≡ name.now }
    ensures steps { (blocks : Blocks) (limit : Option Limit) → Steps (answered call.now) result
        (around kept.old blocks limit (H.state host.old)) (around kept.new blocks limit (H.state host.new)) }
    ensures wants { (blocks : Blocks) (limit : Option Limit) → StepWants (answered call.now) result
        (around kept.old blocks limit (H.state host.old)) (around kept.new blocks limit (H.state host.new)) }
{
    let answer = match host.answer(call) {
        Ok(answer) => answer,
        Err(HostFault::Failed) => return Err(Lack::Failed),
        Err(HostFault::Refused) => return Err(Lack::Refused(name)),
        Err(HostFault::Memory) => return Err(Lack::Memory),
    };
    match kept.note(answer) {
        Ok(()) => Ok(answer),
        Err(_) => Err(Lack::Memory),
    }
}

// Whether a block may have this size and this alignment, and one more block may be made.
fn may_begin<S: Store>(store: &S, size: u64, align: u64) -> bool
    ensures { IsTrue result → IsBlockSize size × IsAlignment align × (length (S.memory store.now) < 2 ^ 60) }
{
    if MOST_BYTES < size {
        return false;
    }
    if store.state(LAST_BLOCK).is_some() {
        return false;
    }
    is_alignment(align)
}

// The number of the last block that may be made.
const LAST_BLOCK: u64 = 0xfff_ffff_ffff_ffff;

fn is_alignment(align: u64) -> bool
    ensures { IsTrue result → IsAlignment align }
{
    matches!(align, 1 | 2 | 4 | 8 | 16)
}

// Makes a block of a size and an alignment, with bytes that are 0 or unset.
fn new_block<S: Store>(
    store: &mut S,
    is_zero: bool,
    size: u64,
    align: u64,
) -> Result<u64, StoreFault>
    ensures block { Begins result is_zero size align (S.limit store.old) (S.memory store.old) (S.memory store.new) }
    ensures limit { S.limit store.new ≡ S.limit store.old }
{
    if !may_begin(store, size, align) {
        return Err(StoreFault::Memory);
    }
    let block = match store.alloc(size, align) {
        Ok(block) => block,
        Err(fault) => return Err(fault),
    };
    if !is_zero {
        return Ok(block);
    }
    match store.fill(Ptr { block, offset: 0 }, 0, size) {
        Ok(()) => Ok(block),
        Err(_) => Err(StoreFault::Memory),
    }
}

/// The life of an object begins, with bytes that are 0 or unset; answers its place.
pub fn begin<'a, S: Store>(
    store: &mut S,
    is_zero: bool,
    size: u64,
    align: u64,
) -> Result<Ptr, Lack<'a>>
    ensures steps { (kept : KeptState) → StoreSteps (object_begun is_zero size align) result kept kept
        (S.memory store.old) (S.memory store.new) (S.limit store.old) (S.limit store.new) }
    ensures limit { S.limit store.new ≡ S.limit store.old }
{
    match new_block(store, is_zero, size, align) {
        Ok(block) => Ok(Ptr { block, offset: 0 }),
        Err(StoreFault::Full { need, left }) => Err(Lack::Full { need, left }),
        Err(StoreFault::Memory) => Err(Lack::Memory),
    }
}

// The alignment of a block that `malloc` or `calloc` gives.
const HEAP_ALIGN: u64 = 16;

/// What an allocation of so many bytes gives: null, or a pointer to a new block.
pub fn grant<'a, S: Store>(
    kept: &mut Kept,
    store: &mut S,
    is_zero: bool,
    size: u64,
) -> Result<Value, Lack<'a>>
    ensures steps { StoreSteps (granted is_zero size) result kept.old kept.new
        (S.memory store.old) (S.memory store.new) (S.limit store.old) (S.limit store.new) }
    ensures limit { S.limit store.new ≡ S.limit store.old }
{
    let block = match new_block(store, is_zero, size, HEAP_ALIGN) {
        Ok(block) => block,
        Err(StoreFault::Full { .. }) => {
            return match kept.note(0) {
                Ok(()) => Ok(Value::Null),
                Err(_) => Err(Lack::Memory),
            };
        }
        Err(StoreFault::Memory) => return Err(Lack::Memory),
    };
    match kept.granted(block) {
        Ok(()) => Ok(Value::Object(Ptr { block, offset: 0 })),
        Err(_) => Err(Lack::Memory),
    }
}

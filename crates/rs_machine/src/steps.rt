//! Steps of a run over a store: loads and stores, and lives of objects (the Rust Reference, "Place
//! expressions", "Functions" and "Static items").

ghost use Rattle.std.specs.Prelude.{◌≡◌, ◌<◌, ◌^◌, length, IsTrue};
ghost use Rattle.mem_bytes.specs.Calls.{IsAlignment, IsBlockSize};
ghost use Rattle.rs_machine.specs.Blocks.{Begins, place_of};
ghost use Rattle.rs_machine.specs.Does.{end_of};
ghost use Rattle.rs_machine.specs.Steps.{LookDoes, StoreDoes};
ghost use Rattle.rs_mean.specs.Calls as piece;
ghost use Rattle.rs_tree.specs.Views.{ty_view};
ghost use Rattle.rs_value.specs.Views.{spot_view, typed_view};

use crate::accesses::{loaded, put};
use crate::halt::{Halt, halt_of, halt_of_store};
use cr_base::{Laid, MOST_BYTES};
use mem_bytes::{Ptr, Store, StoreFault, Value};
use rs_mean::Cause;
use rs_tree::RTy;
use rs_value::{TypedValue, ValueSpot};

/// The value that a place holds.
#[inline(always)]
pub fn load<'t, S: Store>(store: &S, place: ValueSpot<'t>) -> Result<TypedValue<'t>, Halt<'t>>
    ensures { LookDoes (piece.load (spot_view place.entry)) (end_of typed_view result) (S.memory store.now) }
{
    match loaded(store, place) {
        Ok(value) => Ok(value),
        Err(why) => Err(Halt::Wrong(why)),
    }
}

/// Stores a value at a place, whose base is aligned or isn't.
#[inline(always)]
pub fn store_at<'t, S: Store>(
    store: &mut S,
    is_based: bool,
    ty: &RTy,
    at: Value,
    value: Value,
) -> Result<(), Halt<'t>>
    ensures { StoreDoes (piece.store (piece.based is_based (ty_view ty.now) at) value) (end_of (λ _. tt) result)
        (S.memory store.old) (S.memory store.new) (S.limit store.old) (S.limit store.new) }
{
    match put(store, is_based, ty, at, value) {
        Ok(()) => Ok(()),
        Err(trouble) => Err(halt_of(trouble)),
    }
}

// Whether a block may have this size and this alignment, and one more block may be made.
fn may_begin<S: Store>(store: &S, size: u64, align: u64) -> bool
    ensures { IsTrue result → IsBlockSize size × IsAlignment align × (length (S.memory store.now) < 2 ^ 60) }
{
    if MOST_BYTES < size {
        return false;
    }
    if store.state(LAST_BLOCK).is_some() {
        return false;
    }
    is_alignment(align)
}

// The number of the last block that may be made.
const LAST_BLOCK: u64 = 0xfff_ffff_ffff_ffff;

fn is_alignment(align: u64) -> bool
    ensures { IsTrue result → IsAlignment align }
{
    matches!(align, 1 | 2 | 4 | 8 | 16)
}

/// Makes a block of a size and an alignment, with bytes that are 0 or unset.
pub(crate) fn new_block<S: Store>(
    store: &mut S,
    is_zero: bool,
    size: u64,
    align: u64,
) -> Result<u64, StoreFault>
    ensures block { Begins result is_zero size align (S.limit store.old) (S.memory store.old) (S.memory store.new) }
    ensures limit { S.limit store.new ≡ S.limit store.old }
{
    if !may_begin(store, size, align) {
        return Err(StoreFault::Memory);
    }
    let block = match store.alloc(size, align) {
        Ok(block) => block,
        Err(fault) => return Err(fault),
    };
    if !is_zero {
        return Ok(block);
    }
    match store.fill(Ptr { block, offset: 0 }, 0, size) {
        Ok(()) => Ok(block),
        Err(_) => Err(StoreFault::Memory),
    }
}

/// The life of an object of a layout begins, with bytes that are 0; answers its block.
pub fn begin<'t, S: Store>(store: &mut S, laid: Option<Laid>) -> Result<u64, Halt<'t>>
    ensures { StoreDoes (piece.begins_laid laid) (end_of place_of result)
        (S.memory store.old) (S.memory store.new) (S.limit store.old) (S.limit store.new) }
{
    let Some(laid) = laid else {
        return Err(Halt::Wrong(Cause::WrongCall));
    };
    match new_block(store, true, laid.size, laid.align) {
        Ok(block) => Ok(block),
        Err(fault) => Err(halt_of_store(fault)),
    }
}

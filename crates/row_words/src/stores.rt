//! Stores, as rows ask for them.

ghost use Rattle.std.specs.Prelude.{◌≡◌, [], IfSome};

use crate::asked::Asked;
use crate::fault::RowFault;
use mem_region::{MOST_BLOCKS, MOST_BYTES, RegionStore};
use std::alloc::Global;

/// A store in a region that holds so many bytes and live blocks, and no block yet; None where it can't be had, which is a
/// fault of the row.
pub fn region(alloc: Global, bytes: u64, blocks: u64, asked: &mut Asked) -> Option<RegionStore>
    ensures { IfSome result (λ store. store.memory ≡ []) }
{
    if bytes > MOST_BYTES {
        asked.refuse();
        return None;
    }
    if blocks > MOST_BLOCKS {
        asked.refuse();
        return None;
    }
    match RegionStore::open(alloc, bytes, blocks) {
        Ok(store) => Some(store),
        Err(_) => {
            asked.fail(RowFault::Memory);
            None
        }
    }
}

ghost use Rattle.std.specs.Prelude.{◌≡◌, [], IfSome};

use crate::asked::Asked;
use crate::fault::RowFault;
use mem_region::{MOST_BLOCKS, MOST_BYTES, RegionStore};
use std::alloc::Global;

/// The store of a word `region:BYTES:BLOCKS`, with no block yet; None where it can't be had, which is a fault of the row.
pub(crate) fn region(alloc: Global, word: &str, asked: &mut Asked) -> Option<RegionStore>
    ensures { IfSome result (λ store. store.memory ≡ []) }
{
    let sizes = word.strip_prefix("region:").unwrap_or("");
    let (bytes, blocks) = sizes.split_once(':').unwrap_or(("", ""));
    let bytes = asked.found(bytes.parse().ok(), 0);
    let blocks = asked.found(blocks.parse().ok(), 0);
    open(alloc, bytes, blocks, asked)
}

fn open(alloc: Global, bytes: u64, blocks: u64, asked: &mut Asked) -> Option<RegionStore>
    ensures { IfSome result (λ store. store.memory ≡ []) }
{
    if bytes > MOST_BYTES {
        asked.refuse();
        return None;
    }
    if blocks > MOST_BLOCKS {
        asked.refuse();
        return None;
    }
    match RegionStore::open(alloc, bytes, blocks) {
        Ok(store) => Some(store),
        Err(_) => {
            asked.fail(RowFault::Memory);
            None
        }
    }
}

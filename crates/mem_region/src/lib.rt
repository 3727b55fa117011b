//! A store of bytes in a region that is reserved once (ISO C99, 6.2.4 and 6.2.6). Once it is open, no call takes
//! memory of the machine, and a block is refused exactly where the live blocks leave no room for it.
#![tactic(auto)]

mod packed;
mod region_store;
mod table;

pub use region_store::{MOST_BLOCKS, MOST_BYTES, RegionStore};

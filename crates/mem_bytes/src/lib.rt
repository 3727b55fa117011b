//! The memory of both meanings, as bytes (ISO C99, 6.2.6): blocks of cells, the accesses to them
//! with the order of their faults, operations on pointers, and a store that keeps a memory in lists.
#![tactic(auto)]

mod cell;
mod chunk;
mod coding;
mod fault;
mod field;
mod laws;
mod list_store;
mod pointer;
mod slot;
mod store;
mod value;

pub use cell::Cell;
pub use coding::{decode, encode, scalar_size};
pub use fault::{Fault, StoreFault};
pub use field::{bytes_touched, field_in, with_field_in};
pub use laws::{
    bits_beside_stay, blocks_are_counted, calls_keep_cells, calls_write, cells_go_one_by_one,
    copy_copies_cells, decode_of_encode, limit_is_kept, load_after_put, load_bits_after_put_bits,
    new_is_unset, null_is_zero_bytes, numbers_never_used_again, writes_nothing_else,
};
pub use list_store::ListStore;
pub use pointer::{PointerFault, difference, distance, equality, moved, place_moved, usable};
pub use store::{BlockState, Store};
pub use value::{Ptr, Value};

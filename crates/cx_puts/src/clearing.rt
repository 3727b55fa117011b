//! Objects that are made anew (ISO C99, 6.2.4p5, 6.5.2.5 and 6.7.8).

ghost use Rattle.std.specs.Prelude.{◌≡◌, Some, Ok, IfOk, IfSome, option_map};
ghost use Rattle.cx_access.specs.Views.{view_setting};
ghost use Rattle.cx_core.specs.Views.{view_puts};
ghost use Rattle.cx_mean.specs.Initialisers.{object_cleared};
ghost use Rattle.cx_mean.specs.Marks.{at_sequence_point, bits_of_bytes, no_marks, with_write};
ghost use Rattle.mem_bytes.specs.Memory.{live_block, size_of};

use crate::parts::first_cells;
use cr_base::Memory;
use cx_access::{Setting, bits_of_bytes, put_record};
use cx_core::Put;
use cx_work::{Marks, Objects};
use mem_bytes::{Ptr, Store};
use std::alloc::Global;

/// An object that was made anew: its place and its size.
#[derive(Clone, Copy)]
pub struct Cleared {
    pub at: Ptr,
    pub size: u64,
}

/// An object is made anew where its declaration, or its compound literal, is reached: the bits that no put of its
/// initialiser covers become 0, and the others unset; all do without an initialiser.
///
/// # Errors
///
/// `Memory` for want of memory, and for what no typed program has.
pub fn clear_object<S: Store, O: Objects>(
    alloc: Global,
    store: &mut S,
    objects: &O,
    setting: &Setting<'_>,
    number: u32,
    puts: Option<&[Put]>,
) -> Result<Cleared, Memory>
    ensures cleared { IfOk result (λ one. object_cleared (view_setting setting.now) (O.frame objects.now) number (option_map (λ list. view_puts list.now) puts.entry) (S.memory store.old)
        ≡ Ok (record { at = one.at; size = one.size; blocks = S.memory store.new })) }
    ensures limit { S.limit store.new ≡ S.limit store.old }
{
    let Some(at) = objects.place_of(number) else {
        return Err(Memory);
    };
    let Some(size) = live_size(store, at.block) else {
        return Err(Memory);
    };
    let cells = first_cells(alloc, setting, size, puts)?;
    if cells.len() as u64 != size {
        return Err(Memory);
    }
    put_record(store, at, 1, cells.as_slice())?;
    Ok(Cleared { at, size })
}

// The size of a live block.
fn live_size<S: Store>(store: &S, block: u64) -> Option<u64>
    ensures { IfSome result (λ size. option_map size_of (live_block (S.memory store.now) block) ≡ Some size) }
{
    match store.state(block) {
        Some(state) => {
            if state.live {
                return Some(state.size);
            }
            None
        }
        None => None,
    }
}

impl Cleared {
    /// The accesses of a compound literal whose object was made anew: all of it was written, and there is a sequence point.
    pub fn marks(&self, alloc: Global) -> Result<Marks, Memory>
        ensures { IfOk result (λ marks. marks ≡ at_sequence_point (with_write (bits_of_bytes self.now.at self.now.size) no_marks)) }
    {
        let mut marks = Marks::new(alloc);
        let Some(range) = bits_of_bytes(self.at, self.size) else {
            return Err(Memory);
        };
        marks.write(range)?;
        marks.end_sequence(alloc);
        Ok(marks)
    }
}

ghost use Rattle.std.specs.Prelude.{◌≡◌, ◌↔◌, IfOk, IsTrue};
ghost use Rattle.cx_core.specs.Compatible.{AreCompatible};
ghost use Rattle.cx_core.specs.Needed.{needed, needed_by_pair, gathered, answer};
ghost use Rattle.cx_core.specs.Views.{view_type, view_types};

use crate::meets::types_meet;
use crate::records::pair_meets;
use crate::ty::{Ty, Types};
use cr_base::{Items, Memory};
use std::alloc::Global;

/// Two records, by their numbers.
#[derive(Clone, Copy)]
pub(crate) struct RecordPair {
    pub(crate) first: u32,
    pub(crate) second: u32,
}

/// Whether two types are compatible (ISO C99, 6.2.7). Refused only for want of memory.
pub fn compatible(alloc: Global, a: &Ty, b: &Ty, types: &Types) -> Result<bool, Memory>
    ensures { IfOk result (λ found. IsTrue found ↔ AreCompatible (view_types types.now) (view_type a.now) (view_type b.now)) }
{
    let mut pairs = Items::new(alloc);
    if !types_meet(types, a, b, &mut pairs)? {
        return Ok(false);
    }
    for index in 0..usize::MAX {
        let Some(found) = pairs.get(index) else {
            return Ok(true);
        };
        let pair = *found;
        if !pair_meets(types, pair, &mut pairs)? {
            return Ok(false);
        }
    }
    // No list is longer than a `usize` counts, so each pair was looked at.
    let _count = pairs.len();
    Ok(true)
}

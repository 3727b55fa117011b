//! The `calloc` that is called in the place of `malloc` (ISO C99, 7.20.3.1).

ghost use Rattle.std.specs.Prelude.{◌≡◌, map, IfOk};
ghost use Rattle.whole_given.specs.Whole.{named};
ghost use Rattle.whole_keys.specs.Kept.{has_function};
ghost use Rattle.whole_keys.specs.Views.{view_key};
ghost use Rattle.whole_names.specs.Kept.{calloc_key, first_key};

use cr_base::Memory;
use std::alloc::Global;
use whole_given::Whole;
use whole_keys::{NameKey, has_function, numbers_named};

// The first of these keys that is that of a function with one of these numbers.
fn first_key(numbers: &[u32], keys: &[NameKey]) -> NameKey
    ensures { view_key result ≡ first_key (has_function numbers.now) (map view_key keys.now) }
{
    for one in keys {
        if has_function(numbers, *one) {
            return *one;
        }
    }
    NameKey::Calloc
}

/// The program's own external `calloc`, where the unit has it, or the one that the module declares. Refused only for want of memory.
pub(crate) fn calloc_key(alloc: Global, whole: &Whole<'_>, unit: u32) -> Result<NameKey, Memory>
    ensures { IfOk result (λ key. view_key key ≡ calloc_key (named whole.now) unit) }
{
    let externals = whole.parts().externals.as_slice();
    let numbers = numbers_named(alloc, externals, b"calloc".as_slice())?;
    let things = whole.things_of(unit)?;
    Ok(first_key(numbers.as_slice(), things.as_slice()))
}

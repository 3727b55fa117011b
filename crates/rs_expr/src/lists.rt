//! Lists that grow by what was read.

ghost use Rattle.std.specs.Prelude.{◌≡◌, [], ◌∷◌, ◌++◌, IfOk};

use cr_base::{Boxed, Items, Memory};

/// A list with one more element. Refused only for want of memory.
pub(crate) fn with_last<T: Drop>(list: Items<T>, one: Boxed<T>) -> Result<Items<T>, Memory>
    ensures { IfOk result (λ all. all ≡ list ++ one ∷ []) }
{
    let mut list = list;
    match list.push(one.into_inner()) {
        Ok(()) => Ok(list),
        Err(memory) => Err(memory),
    }
}

//! Lists that grow by what was read.

ghost use Rattle.std.specs.Prelude.{◌≡◌, [], ◌∷◌, ◌++◌, IfOk};

use cr_base::{Boxed, Items, Memory};

/// A list with one more element. Refused only for want of memory.
pub(crate) fn with_last<T: Drop>(list: Items<T>, one: T) -> Result<Items<T>, Memory>
    ensures { IfOk result (λ all. all ≡ list ++ one ∷ []) }
{
    let mut list = list;
    list.push(one)?;
    Ok(list)
}

/// A list with one more element, which is in a box. Refused only for want of memory.
pub(crate) fn with_boxed<T: Drop>(list: Items<T>, one: Boxed<T>) -> Result<Items<T>, Memory>
    ensures { IfOk result (λ all. all ≡ list ++ one ∷ []) }
{
    with_last(list, one.into_inner())
}

//! Steps on lists.

ghost use Rattle.std.specs.Prelude.{◌≡◌, ◌-◌, length, take, slice_set};

use cr_base::Items;

// Drops the last element.
pub(crate) fn drop_last<T: Drop>(list: &mut Items<T>)
    ensures { list.new ≡ take (length list.old - 1) list.old }
{
    let _last = list.pop();
}

// Drops the last elements, down to so many.
pub(crate) fn shorten<T: Drop>(list: &mut Items<T>, count: usize)
    ensures { list.new ≡ take count list.old }
{
    while count < list.len() {
        let _last = list.pop();
    }
}

// Replaces the element at an index, where there is one.
pub(crate) fn replace_at<T: Drop>(list: &mut Items<T>, index: usize, element: T)
    ensures { list.new ≡ slice_set list.old index element }
{
    if index < list.len() {
        list.set(index, element);
    }
}

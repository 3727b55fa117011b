ghost use Rattle.std.specs.Prelude.{◌≡◌, ◌≤◌, ◌<◌, Some, Option};
ghost use Rattle.cr_base.specs.Layout.{most_bytes};
ghost use Rattle.cr_base.specs.declared.layout.Laid.{Laid};
ghost use Rattle.cx_core.specs.Layouts.{array_extent, elements, bytes};
ghost use Rattle.cx_layout.specs.Extents.{told};
ghost use Rattle.cx_layout.specs.Rows.{IsFine, IsFineExtent};

use cr_base::{Laid, MOST_BYTES};

// What is known of the size and the alignment of a type.
#[derive(Clone, Copy)]
pub(crate) enum Extent {
    // The type is incomplete or a function.
    Unknown,
    // The size is more than the most bytes.
    TooLarge,
    Known(Laid),
}

impl Extent {
    // So many bytes, with this alignment.
    pub(crate) fn of_bytes(size: u64) -> Extent
        requires { (0 < size) × (size ≤ most_bytes) }
        ensures told { result ≡ told (Some (bytes size)) }
        ensures fine { IsFineExtent result }
    {
        Extent::Known(Laid { size, align: size })
    }

    // So many elements of this extent, or None where their number isn't known.
    pub(crate) fn times(self, length: Option<u64>) -> Extent
        ensures told { (element : Option Laid) → self ≡ told element → result ≡ told (array_extent length element) }
        ensures fine { IsFineExtent self → IsFineExtent result }
    {
        match length {
            Some(count) => self.times_count(count),
            None => Extent::Unknown,
        }
    }

    fn times_count(self, count: u64) -> Extent
        ensures told { (element : Option Laid) → self ≡ told element → result ≡ told (elements count element) }
        ensures fine { IsFineExtent self → IsFineExtent result }
    {
        if count == 0 {
            return Extent::Unknown;
        }
        match self {
            Extent::Unknown => Extent::Unknown,
            Extent::TooLarge => Extent::TooLarge,
            Extent::Known(one) => many(one, count),
        }
    }
}

// So many elements, one or more.
fn many(one: Laid, count: u64) -> Extent
    requires { 0 < count }
    ensures told { result ≡ told (elements count (Some one)) }
    ensures fine { IsFine one → IsFineExtent result }
{
    match count.checked_mul(one.size) {
        Some(size) => of_size(size, one.align),
        None => Extent::TooLarge,
    }
}

fn of_size(size: u64, align: u64) -> Extent
    ensures told { result ≡ told (Some (record { size = size; align = align })) }
    ensures fine { (0 < align) × (align ≤ most_bytes) → IsFineExtent result }
{
    if size <= MOST_BYTES {
        Extent::Known(Laid { size, align })
    } else {
        Extent::TooLarge
    }
}

//! The bits of an access, and what was written there before it (ISO C99, 6.5p2).

ghost use Rattle.std.specs.Prelude.{◌≡◌, ◌+◌, [], ◌∷◌, IfSome};
ghost use Rattle.cx_mean.specs.Marks.{any_overlap, bits_of_bytes, bits_of_field};

use cx_work::{Marks, Range, any_overlap};
use mem_bytes::Ptr;

// How many bits a byte has.
const BYTE: u64 = 8;

// So many bits from a bit of a block on.
fn range(block: u64, from: u64, count: u64) -> Option<Range>
    ensures { IfSome result (λ one. one ≡ record { block = block; from = from; to = from + count }) }
{
    let to = from.checked_add(count)?;
    Some(Range { block, from, to })
}

/// The bits of so many bytes at a place; none where no `u64` counts them.
pub fn bits_of_bytes(at: Ptr, count: u64) -> Option<Range>
    ensures { IfSome result (λ one. one ≡ bits_of_bytes at count) }
{
    let from = at.offset.checked_mul(BYTE)?;
    let count = count.checked_mul(BYTE)?;
    range(at.block, from, count)
}

/// The bits of a bit-field; none where no `u64` counts them.
pub(crate) fn bits_of_field(at: Ptr, bit: u32, width: u32) -> Option<Range>
    ensures { IfSome result (λ one. one ≡ bits_of_field at bit width) }
{
    let from = at.offset.checked_mul(BYTE)?;
    let from = from.checked_add(u64::from(bit))?;
    range(at.block, from, u64::from(width))
}

/// Whether an access overlaps what the operands of its node wrote since their last sequence points.
pub(crate) fn is_unsequenced(marks: &Marks, range: Range) -> bool
    ensures { result ≡ any_overlap marks.now.still (range ∷ []) }
{
    any_overlap(marks.still.as_slice(), &[range])
}

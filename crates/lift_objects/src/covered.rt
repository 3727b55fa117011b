//! Whether values leave bits of an object free (ISO C99, 6.7.8p10, p21).

ghost use Rattle.std.specs.Prelude.{◌≡◌, ◌+◌, ◌*◌, map, IfOk};
ghost use Rattle.cx_core.specs.Views.{puts_of, view_put, view_type};
ghost use Rattle.lift_exprs.specs.Objects.{bit_behind, is_zeroed, leave_bits};
ghost use Rattle.lift_stores.specs.Names.{lift_names};
ghost use Rattle.rs_items.specs.Known.{view_names};

use cr_base::{Memory, Spot};
use cx_core::{Put, Ty};
use rs_items::{NameMap, size_of};

// The first bit of so many bytes. Refused where it is no number of 64 bits.
fn bits(bytes: u64) -> Result<u64, Memory>
    ensures { IfOk result (λ count. count ≡ 8 * bytes) }
{
    match bytes.checked_mul(8) {
        Some(count) => Ok(count),
        None => Err(Memory),
    }
}

fn sum(one: u64, other: u64) -> Result<u64, Memory>
    ensures { IfOk result (λ count. count ≡ one + other) }
{
    match one.checked_add(other) {
        Some(count) => Ok(count),
        None => Err(Memory),
    }
}

// The first bit of a part.
fn first_bit(spot: Spot) -> Result<u64, Memory>
    ensures { IfOk result (λ count. count ≡ 8 * spot.byte + spot.bit) }
{
    let first = bits(spot.byte)?;
    sum(first, u64::from(spot.bit))
}

// The first bit behind a part.
fn bit_behind(names: &NameMap, spot: Spot, ty: &Ty) -> Result<u64, Memory>
    ensures { IfOk result (λ count. count ≡ bit_behind (lift_names (view_names names.now)) spot (view_type ty.now)) }
{
    if spot.width > 0 {
        let first = first_bit(spot)?;
        sum(first, u64::from(spot.width))
    } else {
        let size = size_of(ty, names)?;
        let behind = sum(spot.byte, size)?;
        bits(behind)
    }
}

/// Whether values, which stand in the order of their places, leave a bit free up to another, where all below one are covered. Refused where a bit's number passes 64 bits.
fn leave_bits(names: &NameMap, puts: &[Put], all: u64) -> Result<bool, Memory>
    ensures { IfOk result (λ free. free ≡ leave_bits (lift_names (view_names names.now)) (puts_of (map view_put puts.now)) 0 all) }
{
    let mut covered = 0u64;
    for one in puts {
        if covered < first_bit(one.spot)? {
            return Ok(true);
        }
        covered = bit_behind(names, one.spot, &one.ty)?.max(covered);
    }
    Ok(covered < all)
}

/// Whether an object is made zero before it gets these values: they leave bits of it, or the program has a bit-field member.
pub fn is_zeroed(names: &NameMap, ty: &Ty, puts: &[Put]) -> Result<bool, Memory>
    ensures { IfOk result (λ zero. zero ≡ is_zeroed (lift_names (view_names names.now)) (view_type ty.now) (puts_of (map view_put puts.now))) }
{
    if names.bits() {
        return Ok(true);
    }
    let size = size_of(ty, names)?;
    leave_bits(names, puts, bits(size)?)
}

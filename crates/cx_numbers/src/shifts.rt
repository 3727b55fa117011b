//! Shifts (ISO C99, 6.5.7).

ghost use Rattle.std.specs.Prelude.{◌≡◌, ◌*◌, ◌/◌, ◌^◌, ◌<◌, ◌≤◌, true, pos, negsuc, IsTrue, false, IfSome, IfNone};
ghost use Rattle.cr_base.specs.Scalar.{is_width, IsInteger};
ghost use Rattle.cr_base.specs.declared.rule.URule.TheVariants.{U4};
ghost use Rattle.cx_numbers.specs.Calls.{IsNumber, is_count};
ghost use Rattle.cx_numbers.specs.Numbers.{represents, in_type, width_of_scalar, left_shifted, right_shifted, shifted};

use crate::ranges::half_of;
use crate::why::Why;
use cr_base::{Int, Scalar, URule};

// A number shifted to the left; one that is negative breaks U4, as a signed result that isn't representable does.
pub(crate) fn left_shift(kind: Scalar, value: Int, count: Int) -> Result<Int, Why>
    requires integer { IsInteger kind }
    requires represented { represents kind value ≡ true }
    ensures { IsNumber result (shifted left_shifted kind value count) }
{
    let Some(count) = count_within(kind, count) else {
        return Err(Why::Breaks(URule::U4));
    };
    if value < 0 {
        return Err(Why::Breaks(URule::U4));
    }
    natural_in_type(kind, times_power(value as u64, count))
}

// A number shifted to the right; a negative one brings its sign in.
pub(crate) fn right_shift(kind: Scalar, value: Int, count: Int) -> Result<Int, Why>
    requires integer { IsInteger kind }
    requires represented { represents kind value ≡ true }
    ensures { IsNumber result (shifted right_shifted kind value count) }
{
    match count_within(kind, count) {
        None => Err(Why::Breaks(URule::U4)),
        Some(count) => Ok(value >> count),
    }
}

// A count that isn't negative and is below the width of the type.
fn count_within(kind: Scalar, count: Int) -> Option<u32>
    requires { IsInteger kind }
    ensures none { IfNone result (is_count kind count ≡ false) }
    ensures some { IfSome result (λ number. (is_count kind count ≡ true) × (count ≡ pos number) × (number < 64)) }
{
    let Scalar::Whole { width, .. } = kind else {
        return None;
    };
    if count < 0 {
        return None;
    }
    if count >= Int::from(width) {
        return None;
    }
    Some(count as u32)
}

// A number times a power of two.
fn times_power(value: u64, count: u32) -> u128
    requires { count < 64 }
    ensures { result ≡ value * 2 ^ count }
{
    u128::from(value) * u128::from(1u64 << count)
}

// What a number that isn't negative becomes in a type that is shifted to the left.
fn natural_in_type(kind: Scalar, value: u128) -> Result<Int, Why>
    requires { IsInteger kind }
    ensures { IsNumber result (in_type U4 kind (pos value)) }
{
    match kind {
        Scalar::Whole { width, signed } => natural_in_whole(width, signed, value),
        _ => Err(Why::Stuck),
    }
}

fn natural_in_whole(width: u8, signed: bool, value: u128) -> Result<Int, Why>
    requires { IsInteger (Scalar.Whole width signed) }
    ensures { IsNumber result (in_type U4 (Scalar.Whole width signed) (pos value)) }
{
    if signed {
        natural_in_signed(width, value)
    } else {
        Ok((value % (1u128 << width)) as Int)
    }
}

fn natural_in_signed(width: u8, value: u128) -> Result<Int, Why>
    requires { IsInteger (Scalar.Whole width true) }
    ensures { IsNumber result (in_type U4 (Scalar.Whole width true) (pos value)) }
{
    if value < u128::from(half_of(width)) {
        Ok(value as Int)
    } else {
        Err(Why::Breaks(URule::U4))
    }
}

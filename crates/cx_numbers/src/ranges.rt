ghost use Rattle.std.specs.Prelude.{◌≡◌, ◌&&◌, ◌^◌, ◌-◌, pos, neg_ℤ, IsTrue, int_le, int_lt};
ghost use Rattle.cr_base.specs.Scalar.{is_width, IsInteger, wrapped};
ghost use Rattle.cx_numbers.specs.Calls.{IsNumber};
ghost use Rattle.cx_numbers.specs.Numbers.{represents, represented, in_type};

use crate::why::Why;
use cr_base::{Int, Scalar, URule, wrap};

/// Whether an integer type represents a number (ISO C99, 6.2.6.2).
pub fn is_represented(kind: Scalar, value: Int) -> bool
    requires { IsInteger kind }
    ensures { result ≡ represents kind value }
{
    match kind {
        Scalar::Whole { width, signed } => is_whole(width, signed, value),
        _ => is_within(0, value, 2),
    }
}

fn is_whole(width: u8, signed: bool, value: Int) -> bool
    requires { IsInteger (Scalar.Whole width signed) }
    ensures { result ≡ represents (Scalar.Whole width signed) value }
{
    if signed {
        let half = Int::from(half_of(width));
        is_within(-half, value, half)
    } else {
        is_within(0, value, 1i128 << width)
    }
}

// Half of 2^width: the first number above the values of a signed type.
pub(crate) fn half_of(width: u8) -> u64
    requires { IsTrue (is_width width) }
    ensures { result ≡ 2 ^ (width - 1) }
{
    1u64 << (width - 1)
}

fn is_within(low: Int, value: Int, above: Int) -> bool
    ensures { result ≡ (int_le low value && int_lt value above) }
{
    low <= value && value < above
}

// A number in a type, or the rule that is broken where the type doesn't represent it.
pub(crate) fn represented(rule: URule, kind: Scalar, value: Int) -> Result<Int, Why>
    requires { IsInteger kind }
    ensures { IsNumber result (represented rule kind value) }
{
    if is_represented(kind, value) {
        Ok(value)
    } else {
        Err(Why::Breaks(rule))
    }
}

// What an arithmetic operator gives in a type: an unsigned one reduces it (6.2.5p9).
pub(crate) fn in_type(rule: URule, kind: Scalar, value: Int) -> Result<Int, Why>
    requires { IsInteger kind }
    ensures { IsNumber result (in_type rule kind value) }
{
    match kind {
        Scalar::Whole { width, signed } => in_whole(rule, width, signed, value),
        _ => Err(Why::Stuck),
    }
}

fn in_whole(rule: URule, width: u8, signed: bool, value: Int) -> Result<Int, Why>
    requires { IsInteger (Scalar.Whole width signed) }
    ensures { IsNumber result (in_type rule (Scalar.Whole width signed) value) }
{
    if signed {
        represented(rule, Scalar::Whole { width, signed }, value)
    } else {
        Ok(wrap(Scalar::Whole { width, signed }, value))
    }
}

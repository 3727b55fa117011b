//! Products and bits of numbers of two's complement (ISO C99, 6.2.6.2, 6.5.5 and 6.5.10 to 6.5.12).

ghost use Rattle.std.specs.Prelude.{◌≡◌, ◌*◌, ◌%◌, ◌^◌, ◌<◌, ◌*ℤ◌, true, false, pos, IsTrue, bit_and, bit_or, bit_xor};
ghost use Rattle.cr_base.specs.Scalar.{is_width, IsInteger, wrapped, residue, modulus};
ghost use Rattle.cr_base.specs.declared.rule.URule.TheVariants.{U2};
ghost use Rattle.cx_numbers.specs.Calls.{IsNumber};
ghost use Rattle.cx_numbers.specs.Numbers.{represents, in_type, combined};

use crate::ranges::represented;
use crate::unary::wrapped;
use crate::why::Why;
use cr_base::{Int, Scalar, URule};

// What `*` gives in a type (6.5.5p5).
pub(crate) fn multiplied(kind: Scalar, left: Int, right: Int) -> Result<Int, Why>
    requires integer { IsInteger kind }
    requires left { represents kind left ≡ true }
    requires right { represents kind right ≡ true }
    ensures { IsNumber result (in_type U2 kind (left *ℤ right)) }
{
    match kind {
        Scalar::Whole { width, signed } => whole_product(width, signed, left, right),
        _ => Err(Why::Stuck),
    }
}

fn whole_product(width: u8, signed: bool, left: Int, right: Int) -> Result<Int, Why>
    requires integer { IsInteger (Scalar.Whole width signed) }
    requires left { represents (Scalar.Whole width signed) left ≡ true }
    requires right { represents (Scalar.Whole width signed) right ≡ true }
    ensures { IsNumber result (in_type U2 (Scalar.Whole width signed) (left *ℤ right)) }
{
    if signed {
        signed_product(width, left, right)
    } else {
        Ok(unsigned_product(width, left as u64, right as u64))
    }
}

fn signed_product(width: u8, left: Int, right: Int) -> Result<Int, Why>
    requires { IsInteger (Scalar.Whole width true) }
    ensures { IsNumber result (in_type U2 (Scalar.Whole width true) (left *ℤ right)) }
{
    let kind = Scalar::Whole {
        width,
        signed: true,
    };
    match left.checked_mul(right) {
        Some(product) => represented(URule::U2, kind, product),
        None => Err(Why::Breaks(URule::U2)),
    }
}

// The product modulo 2^width.
fn unsigned_product(width: u8, left: u64, right: u64) -> Int
    requires { IsTrue (is_width width) }
    ensures { result ≡ pos ((left * right) % 2 ^ width) }
{
    let product = u128::from(left) * u128::from(right);
    (product % (1u128 << width)) as Int
}

pub(crate) fn both_bits(kind: Scalar, left: Int, right: Int) -> Int
    requires integer { IsInteger kind }
    ensures { result ≡ combined bit_and kind left right }
{
    wrapped(kind, Int::from(bits_of(kind, left) & bits_of(kind, right)))
}

pub(crate) fn other_bits(kind: Scalar, left: Int, right: Int) -> Int
    requires integer { IsInteger kind }
    ensures { result ≡ combined bit_xor kind left right }
{
    wrapped(kind, Int::from(bits_of(kind, left) ^ bits_of(kind, right)))
}

pub(crate) fn either_bits(kind: Scalar, left: Int, right: Int) -> Int
    requires integer { IsInteger kind }
    ensures { result ≡ combined bit_or kind left right }
{
    wrapped(kind, Int::from(bits_of(kind, left) | bits_of(kind, right)))
}

// The bits of a number in a type.
fn bits_of(kind: Scalar, value: Int) -> u64
    requires { IsInteger kind }
    ensures { result ≡ residue value (modulus kind) }
{
    match kind {
        Scalar::Whole { width, .. } => residue_of(value, width),
        _ => value.rem_euclid(2) as u64,
    }
}

fn residue_of(value: Int, width: u8) -> u64
    requires { IsTrue (is_width width) }
    ensures { result ≡ residue value (2 ^ width) }
{
    value.rem_euclid(1i128 << width) as u64
}

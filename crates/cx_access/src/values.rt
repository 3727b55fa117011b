//! Scalar values of operands (ISO C99, 6.2.5p21).

ghost use Rattle.std.specs.Prelude.{◌≡◌, ◌<◌, ◌≤◌, ◌+◌, ◌-◌, ◌%◌, ◌^◌, pos, IsTrue, IfOk};
ghost use Rattle.cr_base.specs.Scalar.{from_half, wrapped};
ghost use Rattle.cx_access.specs.Finds.{Finds};
ghost use Rattle.cx_mean.specs.Accesses.{field_value, is_field_place};
ghost use Rattle.cx_mean.specs.Operands.{scalar_value};
ghost use Rattle.cx_mean.specs.Values.{is_of_kind, number_in, value_of_kind};
ghost use Rattle.cx_work.specs.Views.{view_finished};
ghost use Rattle.mem_bytes.specs.Calls.{IsFieldPlace};
ghost use Rattle.mem_bytes.specs.Coding.{IsScalar, IsValueOf};

use crate::trouble::Trouble;
use cr_base::{Int, Scalar, URule};
use cx_numbers::is_represented;
use cx_work::Finished;
use mem_bytes::Value;

/// The scalar value that an operand gives.
///
/// # Errors
///
/// `Undefined(U14)` where it gives none.
pub fn scalar_value(value: &Finished) -> Result<Value, Trouble>
    ensures { Finds (λ one. one) result (scalar_value (view_finished value.now)) }
{
    match value {
        Finished::Scalar(value) => Ok(*value),
        Finished::Missing => Err(Trouble::Undefined(URule::U14)),
        Finished::Cells(_, _) => Err(Trouble::Memory),
        Finished::Names(_) => Err(Trouble::Memory),
        Finished::Designates(_) => Err(Trouble::Memory),
        Finished::Bits(_, _, _) => Err(Trouble::Memory),
    }
}

/// Whether a value is one of a scalar type.
pub fn is_of_kind(kind: Scalar, value: Value) -> bool
    requires { IsScalar kind }
    ensures { result ≡ is_of_kind kind value }
{
    match kind {
        Scalar::Truth => match value {
            Value::Whole(number) => is_represented(Scalar::Truth, number),
            _ => false,
        },
        Scalar::Whole { width, signed } => match value {
            Value::Whole(number) => is_represented(Scalar::Whole { width, signed }, number),
            _ => false,
        },
        Scalar::Object => matches!(value, Value::Null | Value::Object(_)),
        Scalar::Code => matches!(value, Value::Null | Value::Code(_)),
    }
}

/// The scalar value of a kind that an operand gives.
///
/// # Errors
///
/// `Undefined(U14)` where it gives none.

pub fn value_of_kind(kind: Scalar, value: &Finished) -> Result<Value, Trouble>
    requires { IsScalar kind }
    ensures value { Finds (λ one. one) result (value_of_kind kind (view_finished value.now)) }
    ensures fits { IfOk result (IsValueOf kind) }
{
    let one = match scalar_value(value) {
        Ok(one) => one,
        Err(trouble) => return Err(trouble),
    };
    if is_of_kind(kind, one) {
        Ok(one)
    } else {
        Err(Trouble::Memory)
    }
}

/// The number that a value is.
pub fn number_in(value: Value) -> Result<Int, Trouble>
    ensures { Finds (λ one. one) result (number_in value) }
{
    match value {
        Value::Whole(number) => Ok(number),
        Value::Null => Err(Trouble::Memory),
        Value::Object(_) => Err(Trouble::Memory),
        Value::Code(_) => Err(Trouble::Memory),
    }
}

// The number from -half to half - 1 that leaves a residue.
fn from_half(half: u64, rest: u64) -> Int
    requires { half < 2 ^ 63 }
    ensures { result ≡ from_half half rest }
{
    if rest < half {
        return Int::from(rest);
    }
    Int::from(rest) - Int::from(half + half)
}

// A number of so many bits, one with a sign.
fn signed_bits(width: u32, bits: u64) -> Int
    requires least { 1 ≤ width }
    requires most { width ≤ 32 }
    ensures { result ≡ from_half (2 ^ (width - 1)) (bits % (2 ^ (width - 1) + 2 ^ (width - 1))) }
{
    let half = 1u64 << (width - 1);
    from_half(half, bits % (half + half))
}

fn whole_bits(width: u32, signed: bool, bits: u64) -> Int
    requires least { 1 ≤ width }
    requires most { width ≤ 32 }
    ensures { result ≡ wrapped (Scalar.Whole width signed) (pos bits) }
{
    if signed {
        return signed_bits(width, bits);
    }
    Int::from(bits % (1u64 << width))
}

/// The value that a bit-field of a declared type has, by its bits (6.7.2.1p9).
pub fn field_value(kind: Scalar, width: u32, bits: u64) -> Result<Value, Trouble>
    requires least { 1 ≤ width }
    requires most { width ≤ 32 }
    ensures { Finds (λ one. one) result (field_value kind width bits) }
{
    match kind {
        Scalar::Truth => Ok(Value::Whole(Int::from(bits))),
        Scalar::Whole { signed, .. } => Ok(Value::Whole(whole_bits(width, signed, bits))),
        Scalar::Object => Err(Trouble::Memory),
        Scalar::Code => Err(Trouble::Memory),
    }
}

/// Whether a bit-field may begin at a bit of its first byte and have so many bits.
pub fn is_field_place(bit: u32, width: u32) -> bool
    ensures value { result ≡ is_field_place bit width }
    ensures place { IsTrue result → IsFieldPlace bit width }
{
    if bit >= 8 {
        return false;
    }
    if width < 1 {
        return false;
    }
    width <= 32
}

//! Operators over numbers (the Rust Reference, "Operator expressions").

ghost use Rattle.std.specs.Prelude.{◌≡◌, ℤ, pos, neg_ℤ, ◌*ℤ◌, ◌^◌, ◌<◌, ◌≤◌, Some, Ok};
ghost use Rattle.cr_base.specs.Scalar.{IsWhole, IsInteger, converted, modulus, residue};
ghost use Rattle.rs_mean.specs.Numbers as number;
ghost use Rattle.rs_mean.specs.Scalars as scalar;
ghost use Rattle.rs_text.specs.declared.operator.Operator.TheVariants as op;
ghost use Rattle.rs_value.specs.Finds.{Finds, Counts, right_by};

use crate::trouble::Trouble;
use cr_base::{Int, Scalar, convert, wrap};
use rs_mean::{Cause, fits_integer};
use rs_tree::{IntegerTy, Operator, Wrapping};

#[inline(always)]
fn whole(width: u8, signed: bool) -> Scalar
    ensures { result ≡ Scalar.Whole width signed }
{
    Scalar::Whole { width, signed }
}

/// An integer type as memory sees it.
#[inline(always)]
pub fn integer_scalar(ty: IntegerTy) -> Scalar
    ensures scalar { result ≡ scalar.integer_scalar ty }
    ensures whole { IsWhole result }
    ensures integer { IsInteger result }
{
    match ty {
        IntegerTy::I8 => whole(8, true),
        IntegerTy::I16 => whole(16, true),
        IntegerTy::I32 => whole(32, true),
        IntegerTy::I64 | IntegerTy::Isize => whole(64, true),
        IntegerTy::U8 => whole(8, false),
        IntegerTy::U16 => whole(16, false),
        IntegerTy::U32 => whole(32, false),
        IntegerTy::U64 | IntegerTy::Usize => whole(64, false),
    }
}

// The bits of a value of an integer type.
fn width_of(ty: IntegerTy) -> u8
    ensures value { result ≡ scalar.width_of ty }
    ensures least { 8 ≤ result }
    ensures most { result ≤ 64 }
{
    match ty {
        IntegerTy::I8 | IntegerTy::U8 => 8,
        IntegerTy::I16 | IntegerTy::U16 => 16,
        IntegerTy::I32 | IntegerTy::U32 => 32,
        IntegerTy::I64 | IntegerTy::U64 | IntegerTy::Isize | IntegerTy::Usize => 64,
    }
}

// A number modulo 2 to the width of the type.
fn wrapped_in(ty: IntegerTy, value: Int) -> Int
    ensures { result ≡ number.wrapped_in ty value }
{
    wrap(integer_scalar(ty), value)
}

/// A number converted to an integer type.
pub fn converted_to(ty: IntegerTy, value: Int) -> Int
    ensures { result ≡ converted (scalar.integer_scalar ty) value }
{
    convert(integer_scalar(ty), value)
}

/// A number converted to `bool`.
pub fn truth_of(value: Int) -> Int
    ensures { result ≡ converted Scalar.Truth value }
{
    convert(Scalar::Truth, value)
}

// A number that has to be a value of its type.
#[inline(always)]
fn checked(why: Cause, ty: IntegerTy, value: Int) -> Result<Int, Trouble>
    ensures { Finds (λ n. n) result (number.checked why ty value) }
{
    if fits_integer(ty, value) {
        Ok(value)
    } else {
        Err(Trouble::Wrong(why))
    }
}

#[inline(always)]
fn sum(ty: IntegerTy, left: Int, right: Int) -> Result<Int, Trouble>
    ensures { Finds (λ n. n) result (number.computed op.Add ty left right) }
{
    match left.checked_add(right) {
        Some(value) => checked(Cause::Overflow, ty, value),
        None => Err(Trouble::Memory),
    }
}

#[inline(always)]
fn difference(ty: IntegerTy, left: Int, right: Int) -> Result<Int, Trouble>
    ensures { Finds (λ n. n) result (number.computed op.Sub ty left right) }
{
    match left.checked_sub(right) {
        Some(value) => checked(Cause::Overflow, ty, value),
        None => Err(Trouble::Memory),
    }
}

// A product of i128 that isn't one is no value of a type, so want of memory isn't its answer.
fn product(ty: IntegerTy, left: Int, right: Int) -> Result<Int, Trouble>
    ensures { Finds (λ n. n) result (number.computed op.Mul ty left right) }
{
    match left.checked_mul(right) {
        Some(value) => checked(Cause::Overflow, ty, value),
        None => Err(Trouble::Wrong(Cause::Overflow)),
    }
}

fn quotient(ty: IntegerTy, left: Int, right: Int) -> Result<Int, Trouble>
    ensures { Finds (λ n. n) result (number.computed op.Div ty left right) }
{
    if right == 0 {
        return Err(Trouble::Wrong(Cause::Divisor));
    }
    match left.checked_div(right) {
        Some(value) => checked(Cause::Divisor, ty, value),
        None => Err(Trouble::Memory),
    }
}

fn remainder(ty: IntegerTy, left: Int, right: Int) -> Result<Int, Trouble>
    ensures { Finds (λ n. n) result (number.computed op.Rem ty left right) }
{
    if let Err(trouble) = quotient(ty, left, right) {
        return Err(trouble);
    }
    match left.checked_rem(right) {
        Some(rest) => Ok(rest),
        None => Err(Trouble::Memory),
    }
}

// What is left of a number after division by 2 to the width of the type.
fn residue_in(ty: IntegerTy, value: Int) -> u64
    ensures { result ≡ residue value (modulus (scalar.integer_scalar ty)) }
{
    residue_of(width_of(ty), value)
}

fn residue_of(width: u8, value: Int) -> u64
    requires least { 8 ≤ width }
    requires most { width ≤ 64 }
    ensures { result ≡ residue value (2 ^ width) }
{
    value.rem_euclid(1i128 << width) as u64
}

// Bits of two's complement as a number of the type.
fn combined(ty: IntegerTy, bits: u64) -> Int
    ensures { result ≡ number.wrapped_in ty (pos bits) }
{
    wrapped_in(ty, Int::from(bits))
}

fn power(count: u64) -> Int
    requires { count < 64 }
    ensures { result ≡ pos (2 ^ count) }
{
    Int::from(1u64 << count)
}

fn shifted_left(ty: IntegerTy, value: Int, count: u64) -> Result<Int, Trouble>
    requires { count < 64 }
    ensures { Finds (λ n. n) result (Ok (number.wrapped_in ty (value *ℤ pos (2 ^ count)))) }
{
    match value.checked_mul(power(count)) {
        Some(product) => Ok(wrapped_in(ty, product)),
        None => Err(Trouble::Memory),
    }
}

fn shifted_right(value: Int, count: u64) -> Int
    requires { count < 64 }
    ensures { result ≡ right_by value count }
{
    value >> count
}

// A count of bits that is less than the width.
fn shift_count(ty: IntegerTy, count: Int) -> Result<u64, Trouble>
    ensures { Counts ty result count }
{
    if 0 <= count && count < Int::from(width_of(ty)) {
        Ok(count as u64)
    } else {
        Err(Trouble::Wrong(Cause::Shift))
    }
}

fn shl(ty: IntegerTy, left: Int, right: Int) -> Result<Int, Trouble>
    ensures { Finds (λ n. n) result (number.computed op.Shl ty left right) }
{
    match shift_count(ty, right) {
        Ok(count) => shifted_left(ty, left, count),
        Err(trouble) => Err(trouble),
    }
}

fn shr(ty: IntegerTy, left: Int, right: Int) -> Result<Int, Trouble>
    ensures { Finds (λ n. n) result (number.computed op.Shr ty left right) }
{
    match shift_count(ty, right) {
        Ok(count) => Ok(shifted_right(left, count)),
        Err(trouble) => Err(trouble),
    }
}

/// What an operator computes of two numbers of an integer type.
pub(crate) fn computed(
    operator: Operator,
    ty: IntegerTy,
    left: Int,
    right: Int,
) -> Result<Int, Trouble>
    ensures { Finds (λ n. n) result (number.computed operator ty left right) }
{
    match operator {
        Operator::Add => sum(ty, left, right),
        Operator::Sub => difference(ty, left, right),
        Operator::Mul => product(ty, left, right),
        Operator::Div => quotient(ty, left, right),
        Operator::Rem => remainder(ty, left, right),
        Operator::BitAnd => Ok(combined(ty, residue_in(ty, left) & residue_in(ty, right))),
        Operator::BitOr => Ok(combined(ty, residue_in(ty, left) | residue_in(ty, right))),
        Operator::BitXor => Ok(combined(ty, residue_in(ty, left) ^ residue_in(ty, right))),
        Operator::Shl => shl(ty, left, right),
        Operator::Shr => shr(ty, left, right),
        Operator::Equal
        | Operator::NotEqual
        | Operator::Less
        | Operator::LessEqual
        | Operator::Greater
        | Operator::GreaterEqual => Err(Trouble::Wrong(Cause::WrongCall)),
    }
}

/// What an operator computes of two truth values.
pub(crate) fn computed_truth(operator: Operator, left: Int, right: Int) -> Result<Int, Trouble>
    ensures { Finds (λ n. n) result (number.computed_truth operator left right) }
{
    match operator {
        Operator::BitAnd => Ok(Int::from(bit_of(left) & bit_of(right))),
        Operator::BitOr => Ok(Int::from(bit_of(left) | bit_of(right))),
        Operator::BitXor => Ok(Int::from(bit_of(left) ^ bit_of(right))),
        _ => Err(Trouble::Wrong(Cause::WrongCall)),
    }
}

fn bit_of(value: Int) -> u64
    ensures { result ≡ residue value 2 }
{
    value.rem_euclid(2) as u64
}

/// Whether an operator compares.
#[inline(always)]
pub(crate) fn is_comparison(operator: Operator) -> bool
    ensures { result ≡ number.is_comparison operator }
{
    matches!(
        operator,
        Operator::Equal
            | Operator::NotEqual
            | Operator::Less
            | Operator::LessEqual
            | Operator::Greater
            | Operator::GreaterEqual
    )
}

/// What a comparison says of two numbers.
#[inline(always)]
pub(crate) fn compared(operator: Operator, left: Int, right: Int) -> bool
    ensures { result ≡ number.compared operator left right }
{
    match operator {
        Operator::Equal => left == right,
        Operator::NotEqual => left != right,
        Operator::Less => left < right,
        Operator::LessEqual => left <= right,
        Operator::Greater => right < left,
        Operator::GreaterEqual => right <= left,
        _ => false,
    }
}

// The product of two numbers from 0 to 2^64 - 1 modulo 2 to the width.
fn large_product(ty: IntegerTy, left: Int, right: Int) -> Result<Int, Trouble>
    ensures { Finds (λ n. n) result (Ok (number.wrapped_in ty (left *ℤ right))) }
{
    if left < 0 || right < 0 || LARGEST < left || LARGEST < right {
        return Err(Trouble::Memory);
    }
    let product = (left as u128) * (right as u128);
    Ok(wrapped_in(ty, (product % (1u128 << width_of(ty))) as Int))
}

const LARGEST: Int = 0xffff_ffff_ffff_ffff;

/// An operation modulo 2 to the width.
pub(crate) fn wrapping(
    operation: Wrapping,
    ty: IntegerTy,
    left: Int,
    right: Int,
) -> Result<Int, Trouble>
    ensures { Finds (λ n. n) result (Ok (number.wrapping operation ty left right)) }
{
    match operation {
        Wrapping::WrappingAdd => match left.checked_add(right) {
            Some(value) => Ok(wrapped_in(ty, value)),
            None => Err(Trouble::Memory),
        },
        Wrapping::WrappingSub => match left.checked_sub(right) {
            Some(value) => Ok(wrapped_in(ty, value)),
            None => Err(Trouble::Memory),
        },
        Wrapping::WrappingMul => match left.checked_mul(right) {
            Some(value) => Ok(wrapped_in(ty, value)),
            None => large_product(ty, left, right),
        },
    }
}

/// Minus a number, which has to be a value of its type.
pub(crate) fn negated(ty: IntegerTy, value: Int) -> Result<Int, Trouble>
    ensures { Finds (λ n. n) result (number.checked Cause.Overflow ty (neg_ℤ value)) }
{
    match value.checked_neg() {
        Some(negated) => checked(Cause::Overflow, ty, negated),
        None => Err(Trouble::Memory),
    }
}

/// Minus a number, modulo 2 to the width.
pub(crate) fn wrapping_negated(ty: IntegerTy, value: Int) -> Result<Int, Trouble>
    ensures { Finds (λ n. n) result (Ok (number.wrapped_in ty (neg_ℤ value))) }
{
    match value.checked_neg() {
        Some(negated) => Ok(wrapped_in(ty, negated)),
        None => Err(Trouble::Memory),
    }
}

/// All bits of a number turned.
pub(crate) fn complement(ty: IntegerTy, value: Int) -> Result<Int, Trouble>
    ensures { Finds (λ n. n) result (Ok (number.complement ty value)) }
{
    let Some(negated) = value.checked_neg() else {
        return Err(Trouble::Memory);
    };
    match negated.checked_sub(1) {
        Some(turned) => Ok(wrapped_in(ty, turned)),
        None => Err(Trouble::Memory),
    }
}

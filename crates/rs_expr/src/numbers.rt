//! Literals of integers (the Rust Reference, "Integer literals").

ghost use Rattle.std.specs.Prelude.{◌≡◌, ◌≤◌, ◌<◌, ◌^◌, ◌-◌, pos, length, take, drop, MatchOption};
ghost use Rattle.std.specs.List.{prefix_len};
ghost use Rattle.rs_text.specs.Names.{is_digit};
ghost use Rattle.rs_expr.specs.Numbers as numbers;

use crate::cursor::Cursor;
use crate::sign::Sign;
use crate::words::integer_of;
use cr_base::Int;
use rs_tree::IntegerTy;

fn is_digit(b: u8) -> bool
    ensures { result ≡ is_digit b }
{
    b'0' <= b && b <= b'9'
}

// How many digits come first.
fn digits_size(word: &[u8]) -> usize
    ensures value { result ≡ prefix_len is_digit word.now }
    ensures within { result ≤ length word.now }
{
    word.iter().take_while(|b| is_digit(**b)).count()
}

fn digit_value(digit: u8) -> u128
    ensures { result ≡ digit - 48 }
{
    u128::from(digit.saturating_sub(b'0'))
}

// The number that digits write, or None where it is over 128 bits.
fn number_of(mut digits: &[u8]) -> Option<u128>
    ensures { MatchOption result (2 ^ 128 ≤ numbers.number_of digits.entry.now)
        (λ value. value ≡ numbers.number_of digits.entry.now) }
{
    let mut value: u128 = 0;
    while let [digit, rest @ ..] = digits {
        let Some(scaled) = value.checked_mul(10) else {
            return None;
        };
        let Some(sum) = scaled.checked_add(digit_value(*digit)) else {
            return None;
        };
        value = sum;
        digits = rest;
    }
    Some(value)
}

// The number of the digits that a word begins with, or 0 where it is over 127 bits.
fn value_of(word: &[u8]) -> u128
    ensures value { result ≡ numbers.value_of word.now }
    ensures within { result < 2 ^ 127 }
{
    let size = digits_size(word);
    match number_of(&word[..size]) {
        Some(value) if value < 1 << 127 => value,
        _ => 0,
    }
}

/// The number of 64 bits that a word writes, or 0 where it is over them.
pub fn size_of(word: &[u8]) -> u64
    ensures { result ≡ numbers.size_of word.now }
{
    let size = digits_size(word);
    match number_of(&word[..size]) {
        Some(value) if value <= u128::from(u64::MAX) => value as u64,
        _ => 0,
    }
}

// The type that a literal has as suffix.
fn suffix_ty(word: &[u8]) -> IntegerTy
    ensures { result ≡ numbers.integer_of (numbers.suffix_of word.now) }
{
    let size = digits_size(word);
    integer_of(&word[size..])
}

fn positive(word: &[u8]) -> Int
    ensures { result ≡ pos (numbers.value_of word.now) }
{
    value_of(word) as Int
}

fn negative(word: &[u8]) -> Int
    ensures { result ≡ numbers.negated (numbers.value_of word.now) }
{
    -positive(word)
}

/// Reads a literal with its type as suffix, and the sign before it.
#[tactic(auto, unfolding(crate::specs::Numbers::literal))]
pub fn literal(cursor: &mut Cursor<'_>) -> (Int, IntegerTy)
    ensures { (numbers.literal cursor.old) ≡ ((result.0, result.1), cursor.new) }
{
    if cursor.peek() == Sign::Minus {
        cursor.skip(1);
        let read = (negative(cursor.text()), suffix_ty(cursor.text()));
        cursor.skip(1);
        return read;
    }
    let read = (positive(cursor.text()), suffix_ty(cursor.text()));
    cursor.skip(1);
    read
}

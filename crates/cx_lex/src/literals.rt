//! Escape sequences, character constants and string literals.

ghost use Rattle.std.specs.Prelude.{◌≡◌, ◌≤◌, ◌<◌, ◌+◌, ◌^◌, length, drop, MatchOption, MatchResult, Ok, Err};
ghost use Rattle.cx_lex.specs.Bytes.{number_of};
ghost use Rattle.cx_lex.specs.Escapes.{simple_escape, escape_at};
ghost use Rattle.cx_lex.specs.Literals.{escape_item, item_at, letter_from, signed_of};
ghost use Rattle.cx_lex.specs.Mirror.{item_seen, IsWithin, IsTextOf, value_item};

use crate::bytes::{byte, hex_size, octal_size, tail};
use crate::fault::Fault;
use crate::numbers::value_of;
use cr_base::{Name, Rule};
use std::alloc::Global;

// What comes next behind an opening quote.
#[derive(Clone, Copy)]
enum Item {
    // The closing quote.
    Closes,
    // A rule is broken.
    Breaks(Rule),
    // A character or an escape sequence, with its size in bytes and the byte that it stands for.
    Member { size: usize, value: u8 },
}

// What a simple escape sequence stands for (ISO C99, 6.4.4.4), by the byte behind the backslash.
fn simple_escape(b: u8) -> Option<u8>
    ensures { result ≡ simple_escape b }
{
    match b {
        b'\'' | b'"' | b'?' | b'\\' => Some(b),
        b'a' => Some(7),
        b'b' => Some(8),
        b'f' => Some(12),
        b'n' => Some(b'\n'),
        b'r' => Some(b'\r'),
        b't' => Some(b'\t'),
        b'v' => Some(11),
        _ => None,
    }
}

// The byte whose digits these are, or None where they are over 255.
fn byte_of(base: u64, digits: &[u8]) -> Option<u8>
    requires { 1 ≤ base }
    ensures { MatchOption result (255 < number_of base digits.now)
        (λ value. value ≡ number_of base digits.now) }
{
    let Some(value) = value_of(base, digits) else {
        return None;
    };
    if 255 < value {
        return None;
    }
    Some(value as u8)
}

// An escape sequence of a size behind the backslash, whose value is over 255 where it is None.
fn value_item(size: usize, value: Option<u8>) -> Item
    requires { size < 2 ^ 63 }
    ensures { item_seen result ≡ value_item size value }
{
    match value {
        None => Item::Breaks(Rule::X3),
        Some(value) => Item::Member {
            size: 1 + size,
            value,
        },
    }
}

// The escape sequence that the bytes behind a backslash begin with.
fn escape_item(bytes: &[u8]) -> Item
    ensures value { item_seen result ≡ escape_item (escape_at bytes.now) }
    ensures within { IsWithin result (length bytes.now + 1) }
{
    if let Some(value) = simple_escape(byte(bytes, 0)) {
        return value_item(1, Some(value));
    }
    let octals = octal_size(bytes).min(3);
    if 0 < octals {
        return value_item(octals, byte_of(8, &bytes[..octals]));
    }
    let digits = tail(bytes);
    let hexes = hex_size(digits);
    if byte(bytes, 0) == b'x' && 0 < hexes {
        return value_item(1 + hexes, byte_of(16, &digits[..hexes]));
    }
    Item::Breaks(Rule::X3)
}

// What comes next in a literal with this quote.
fn item_at(quote: u8, bytes: &[u8]) -> Item
    ensures value { item_seen result ≡ item_at quote bytes.now }
    ensures within { IsWithin result (length bytes.now) }
{
    let [b, rest @ ..] = bytes else {
        return Item::Breaks(Rule::X2);
    };
    if *b == quote {
        return Item::Closes;
    }
    if *b == b'\n' {
        return Item::Breaks(Rule::X2);
    }
    if *b != b'\\' {
        return Item::Member { size: 1, value: *b };
    }
    if byte(rest, 0) == b'U' || byte(rest, 0) == b'u' {
        return Item::Breaks(Rule::X7);
    }
    escape_item(rest)
}

/// A string literal behind its opening quote (ISO C99, 6.4.5): the bytes that it stands for, and its
/// size with the closing quote. Refused by the first of X2, X3 and X7 that it breaks, or for want of
/// memory.
pub fn text_from(alloc: Global, bytes: &[u8]) -> Result<(Name, usize), Fault>
    ensures { IsTextOf bytes.now result }
{
    let mut values = Vec::new(alloc);
    let mut at = 0;
    while at < bytes.len() {
        match item_at(b'"', &bytes[at..]) {
            Item::Closes => return Ok((Name::of(values), at + 1)),
            Item::Breaks(rule) => return Err(Fault::Broken(rule)),
            Item::Member { size, value } => {
                values.push(value)?;
                at += size;
            }
        }
    }
    Err(Fault::Broken(Rule::X2))
}

/// A character constant behind its opening quote (ISO C99, 6.4.4.4): the byte that it stands for, and
/// its size with the closing quote. Refused by the first of X2, X3 and X7 that it breaks.
pub fn letter_from(bytes: &[u8]) -> Result<(u8, usize), Rule>
    ensures value { MatchResult result (λ read. letter_from bytes.now ≡ Ok (read.0, drop read.1 bytes.now))
        (λ rule. letter_from bytes.now ≡ Err rule) }
    ensures within { MatchResult result (λ read. read.1 ≤ length bytes.now) (λ rule. Unit {0}) }
{
    match item_at(b'\'', bytes) {
        Item::Closes => Err(Rule::X2),
        Item::Breaks(rule) => Err(rule),
        Item::Member { size, value } => {
            if byte(bytes, size) == b'\'' {
                Ok((value, size + 1))
            } else {
                Err(Rule::X2)
            }
        }
    }
}

/// A byte as a signed `char`, converted to `int`.
pub fn signed_of(value: u8) -> i32
    ensures { result ≡ signed_of value }
{
    if value < 128 {
        i32::from(value)
    } else {
        i32::from(value) - 256
    }
}

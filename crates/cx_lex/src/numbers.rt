//! Numbers: integer constants, and the rules that other numbers break.

ghost use Rattle.std.specs.List.{prefix_len};
ghost use Rattle.std.specs.Prelude.{◌≡◌, ◌≤◌, ◌<◌, ◌+◌, ◌^◌, true, nat_lt, length, find, option_map, MatchOption};
ghost use Rattle.cx_lex.specs.Bytes.{digit_value, number_of};
ghost use Rattle.cx_lex.specs.Numbers as spec;
ghost use Rattle.cx_lex.specs.Mirror.{run_size, suffix_seen, other_rule};

use crate::bytes::{byte, digits_size, hex_size, is_letter, is_word_byte, octal_size, tail};
use crate::token::Ty0;
use cr_base::Rule;

/// Whether a number begins here: a digit, or a point and a digit (ISO C99, 6.4.8).
pub fn begins_number(bytes: &[u8]) -> bool
    ensures { result ≡ spec.begins_number bytes.now }
{
    let first = byte(bytes, 0);
    first.is_ascii_digit() || (first == b'.' && byte(bytes, 1).is_ascii_digit())
}

fn is_exponent_letter(b: u8) -> bool
    ensures { result ≡ spec.is_exponent_letter b }
{
    is_letter(b'E', b) || is_letter(b'P', b)
}

fn is_sign(b: u8) -> bool
    ensures { result ≡ spec.is_sign b }
{
    b == b'+' || b == b'-'
}

fn continues_number(previous: u8, b: u8) -> bool
    ensures { result ≡ spec.continues_number previous b }
{
    is_word_byte(b) || b == b'.' || (is_sign(b) && is_exponent_letter(previous))
}

/// The size of the number that begins here, where one does (ISO C99, 6.4.8).
pub fn number_size(mut bytes: &[u8]) -> usize
    ensures value { result ≡ run_size 0 bytes.entry.now }
    ensures within { result ≤ length bytes.entry.now }
{
    let mut previous = 0;
    let mut size = 0;
    while let [b, rest @ ..] = bytes {
        if !continues_number(previous, *b) {
            return size;
        }
        previous = *b;
        size += 1;
        bytes = rest;
    }
    size
}

fn digit_value(b: u8) -> u64
    ensures value { result ≡ digit_value b }
{
    u64::from(if b'a' <= b {
        b - 87
    } else if b'A' <= b {
        b - 55
    } else {
        b.saturating_sub(b'0')
    })
}

/// The number that digits write in a base, or None where it is over 64 bits.
pub fn value_of(base: u64, mut digits: &[u8]) -> Option<u64>
    requires { 1 ≤ base }
    ensures { MatchOption result (2 ^ 64 ≤ number_of base digits.entry.now)
        (λ value. value ≡ number_of base digits.entry.now) }
{
    let mut value: u64 = 0;
    while let [digit, rest @ ..] = digits {
        let Some(scaled) = value.checked_mul(base) else {
            return None;
        };
        let Some(sum) = scaled.checked_add(digit_value(*digit)) else {
            return None;
        };
        value = sum;
        digits = rest;
    }
    Some(value)
}

fn is_hexadecimal(text: &[u8]) -> bool
    ensures value { result ≡ spec.is_hexadecimal text.now }
    ensures within { result ≡ true → 2 ≤ length text.now }
{
    byte(text, 0) == b'0' && is_letter(b'X', byte(text, 1))
}

fn base_of(text: &[u8]) -> u64
    ensures value { result ≡ spec.base_of text.now }
    ensures within { 1 ≤ result }
{
    if is_hexadecimal(text) {
        16
    } else if byte(text, 0) == b'0' {
        8
    } else {
        10
    }
}

fn behind_prefix(text: &[u8]) -> &[u8]
    ensures { result.now ≡ spec.behind_prefix text.now }
{
    if is_hexadecimal(text) {
        &text[2..]
    } else {
        text
    }
}

fn count_of_digits(base: u64, digits: &[u8]) -> usize
    ensures value { result ≡ prefix_len (spec.is_digit_in base) digits.now }
    ensures within { result ≤ length digits.now }
{
    match base {
        16 => hex_size(digits),
        8 => octal_size(digits),
        _ => digits_size(digits),
    }
}

fn digits_of(text: &[u8]) -> &[u8]
    ensures { result.now ≡ spec.digits_of text.now }
{
    let body = behind_prefix(text);
    &body[..count_of_digits(base_of(text), body)]
}

fn suffix_text(text: &[u8]) -> &[u8]
    ensures { result.now ≡ spec.suffix_text text.now }
{
    let body = behind_prefix(text);
    &body[count_of_digits(base_of(text), body)..]
}

// What a suffix of an integer constant says: whether it has a `u`, and how many `l`.
#[derive(Clone, Copy)]
struct Suffix {
    unsigned: bool,
    longs: u8,
}

fn longs_of(text: &[u8]) -> Option<u8>
    ensures { result ≡ spec.longs_of text.now }
{
    match text {
        [] => Some(0),
        [a] if is_letter(b'L', *a) => Some(1),
        [a, b] if is_letter(b'L', *a) && *a == *b => Some(2),
        _ => None,
    }
}

fn with_longs(unsigned: bool, longs: Option<u8>) -> Option<Suffix>
    ensures { suffix_seen result ≡ spec.with_longs unsigned longs }
{
    match longs {
        None => None,
        Some(longs) => Some(Suffix { unsigned, longs }),
    }
}

fn suffix_of(text: &[u8]) -> Option<Suffix>
    ensures { suffix_seen result ≡ spec.suffix_of text.now }
{
    let Some(last) = text.len().checked_sub(1) else {
        return with_longs(false, Some(0));
    };
    if is_letter(b'U', text[0]) {
        return with_longs(true, longs_of(&text[1..]));
    }
    if is_letter(b'U', text[last]) {
        return with_longs(true, longs_of(&text[..last]));
    }
    with_longs(false, longs_of(text))
}

fn holds(ty: Ty0, value: u64) -> bool
    ensures { result ≡ nat_lt value (spec.above ty) }
{
    match ty {
        Ty0::Int => value < 1 << 31,
        Ty0::Unsigned => value < 1 << 32,
        Ty0::Long | Ty0::LongLong => value < 1 << 63,
        Ty0::UnsignedLong | Ty0::UnsignedLongLong => true,
    }
}

fn types_of(decimal: bool, unsigned: bool, longs: u8) -> &'static [Ty0]
    ensures { result.now ≡ spec.types_of decimal unsigned longs }
{
    match longs {
        0 if unsigned => &[Ty0::Unsigned, Ty0::UnsignedLong, Ty0::UnsignedLongLong],
        0 if decimal => &[Ty0::Int, Ty0::Long, Ty0::LongLong],
        0 => &[
            Ty0::Int,
            Ty0::Unsigned,
            Ty0::Long,
            Ty0::UnsignedLong,
            Ty0::LongLong,
            Ty0::UnsignedLongLong,
        ],
        1 if unsigned => &[Ty0::UnsignedLong, Ty0::UnsignedLongLong],
        1 if decimal => &[Ty0::Long, Ty0::LongLong],
        1 => &[
            Ty0::Long,
            Ty0::UnsignedLong,
            Ty0::LongLong,
            Ty0::UnsignedLongLong,
        ],
        _ if unsigned => &[Ty0::UnsignedLongLong],
        _ if decimal => &[Ty0::LongLong],
        _ => &[Ty0::LongLong, Ty0::UnsignedLongLong],
    }
}

fn first_holding(types: &[Ty0], value: u64) -> Option<Ty0>
    ensures { result ≡ find (λ ty. nat_lt value (spec.above ty)) types.now }
{
    types.iter().copied().find(|ty| holds(*ty, value))
}

fn is_floating_suffix(bytes: &[u8]) -> bool
    ensures { result ≡ spec.is_floating_suffix bytes.now }
{
    match bytes {
        [] => true,
        [a] => is_letter(b'F', *a) || is_letter(b'L', *a),
        _ => false,
    }
}

fn behind_sign(bytes: &[u8]) -> &[u8]
    ensures { result.now ≡ spec.behind_sign bytes.now }
{
    if is_sign(byte(bytes, 0)) {
        tail(bytes)
    } else {
        bytes
    }
}

fn is_exponent_tail(bytes: &[u8]) -> bool
    ensures { result ≡ spec.is_exponent_tail bytes.now }
{
    let digits = behind_sign(bytes);
    let count = digits_size(digits);
    0 < count && is_floating_suffix(&digits[count..])
}

fn is_floating_tail(letter: u8, optional: bool, bytes: &[u8]) -> bool
    requires { letter < 128 }
    ensures { result ≡ spec.is_floating_tail letter optional bytes.now }
{
    if is_letter(letter, byte(bytes, 0)) {
        return is_exponent_tail(tail(bytes));
    }
    optional && is_floating_suffix(bytes)
}

fn is_floating_with(base: u64, letter: u8, optional: bool, bytes: &[u8]) -> bool
    requires { letter < 128 }
    ensures { result ≡ spec.is_floating_with (spec.is_digit_in base) letter optional bytes.now }
{
    let whole = count_of_digits(base, bytes);
    let behind = &bytes[whole..];
    if byte(behind, 0) != b'.' {
        return 0 < whole && is_floating_tail(letter, false, behind);
    }
    let rest = tail(behind);
    let fraction = count_of_digits(base, rest);
    0 < whole + fraction && is_floating_tail(letter, optional, &rest[fraction..])
}

fn is_floating(text: &[u8]) -> bool
    ensures { result ≡ spec.is_floating text.now }
{
    if is_hexadecimal(text) {
        is_floating_with(16, b'P', false, &text[2..])
    } else {
        is_floating_with(10, b'E', true, text)
    }
}

// The rule that a number breaks which isn't an integer constant.
fn other_rule(text: &[u8]) -> Rule
    ensures { result ≡ other_rule text.now }
{
    if is_floating(text) {
        Rule::X5
    } else {
        Rule::X4
    }
}

/// The value and the type of a number's bytes. Refused by X6 where no type of its list holds an
/// integer constant, by X5 where it is a floating constant, and by X4 where it is neither (ISO C99,
/// 6.4.4.1, 6.4.4.2).
pub fn number_from(text: &[u8]) -> Result<(u64, Ty0), Rule>
    ensures { result ≡ spec.number_from text.now }
{
    let digits = digits_of(text);
    if digits.is_empty() {
        return Err(other_rule(text));
    }
    let Some(suffix) = suffix_of(suffix_text(text)) else {
        return Err(other_rule(text));
    };
    let base = base_of(text);
    let Some(value) = value_of(base, digits) else {
        return Err(Rule::X6);
    };
    let types = types_of(base == 10, suffix.unsigned, suffix.longs);
    match first_holding(types, value) {
        Some(ty) => Ok((value, ty)),
        None => Err(Rule::X6),
    }
}

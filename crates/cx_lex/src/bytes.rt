//! Bytes by their classes, and how many bytes of a class come first.

ghost use Rattle.std.specs.Prelude.{◌≡◌, ◌≢◌, ◌<◌, ◌≤◌, ◌+◌, length, drop, slice_index};
ghost use Rattle.std.specs.List.{prefix_len};
ghost use Rattle.std.specs.Char.{is_ascii_digit, is_ascii_hexdigit};
ghost use Rattle.cx_lex.specs.Bytes.{is_letter, is_white, is_margin, is_nondigit, is_word_byte, is_octal};
ghost use Rattle.cx_lex.specs.Place.{is_in_line};

/// The byte at an index, or 0 past the end.
pub fn byte(bytes: &[u8], at: usize) -> u8
    ensures value { result ≡ slice_index bytes.now at }
    ensures within { result ≢ 0 → at < length bytes.now }
{
    if at < bytes.len() { bytes[at] } else { 0 }
}

/// The bytes behind the first one, where there is one.
pub fn tail(bytes: &[u8]) -> &[u8]
    ensures { result.now ≡ drop 1 bytes.now }
{
    match bytes {
        [] => bytes,
        [_, rest @ ..] => rest,
    }
}

/// Whether the byte is this upper letter or its lower one.
pub fn is_letter(upper: u8, b: u8) -> bool
    requires { upper < 128 }
    ensures { result ≡ is_letter upper b }
{
    b == upper || b == upper + 32
}

/// Whether the byte is white space by itself (ISO C99, 6.4p3).
pub fn is_white(b: u8) -> bool
    ensures { result ≡ is_white b }
{
    matches!(b, b' ' | b'\t'..=b'\r')
}

/// Whether the byte is a blank or a tab.
pub fn is_margin(b: u8) -> bool
    ensures { result ≡ is_margin b }
{
    b == b' ' || b == b'\t'
}

/// Whether an identifier can begin with the byte (ISO C99, 6.4.2.1).
pub fn is_nondigit(b: u8) -> bool
    ensures { result ≡ is_nondigit b }
{
    b.is_ascii_alphabetic() || b == b'_'
}

/// Whether an identifier can go on with the byte (ISO C99, 6.4.2.1).
pub fn is_word_byte(b: u8) -> bool
    ensures { result ≡ is_word_byte b }
{
    b.is_ascii_digit() || is_nondigit(b)
}

/// Whether the byte is an octal digit (ISO C99, 6.4.4.1).
pub fn is_octal(b: u8) -> bool
    ensures { result ≡ is_octal b }
{
    matches!(b, b'0'..=b'7')
}

/// How many bytes come before the first newline.
pub fn line_size(bytes: &[u8]) -> usize
    ensures value { result ≡ prefix_len is_in_line bytes.now }
    ensures within { result ≤ length bytes.now }
{
    bytes.iter().take_while(|b| **b != b'\n').count()
}

/// How many blanks and tabs come first.
pub fn margin_size(bytes: &[u8]) -> usize
    ensures value { result ≡ prefix_len is_margin bytes.now }
    ensures within { result ≤ length bytes.now }
{
    bytes.iter().take_while(|b| is_margin(**b)).count()
}

/// How many bytes come first that an identifier can go on with.
pub fn word_size(bytes: &[u8]) -> usize
    ensures value { result ≡ prefix_len is_word_byte bytes.now }
    ensures within { result ≤ length bytes.now }
{
    bytes.iter().take_while(|b| is_word_byte(**b)).count()
}

/// How many decimal digits come first.
pub fn digits_size(bytes: &[u8]) -> usize
    ensures value { result ≡ prefix_len is_ascii_digit bytes.now }
    ensures within { result ≤ length bytes.now }
{
    bytes.iter().take_while(|b| b.is_ascii_digit()).count()
}

/// How many octal digits come first.
pub fn octal_size(bytes: &[u8]) -> usize
    ensures value { result ≡ prefix_len is_octal bytes.now }
    ensures within { result ≤ length bytes.now }
{
    bytes.iter().take_while(|b| is_octal(**b)).count()
}

/// How many hexadecimal digits come first.
pub fn hex_size(bytes: &[u8]) -> usize
    ensures value { result ≡ prefix_len is_ascii_hexdigit bytes.now }
    ensures within { result ≤ length bytes.now }
{
    bytes.iter().take_while(|b| b.is_ascii_hexdigit()).count()
}

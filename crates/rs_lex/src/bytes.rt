//! Bytes by their classes, and how many bytes of a class come first.

ghost use Rattle.std.specs.Prelude.{◌≡◌, ◌≢◌, ◌<◌, ◌≤◌, length, slice_index};
ghost use Rattle.std.specs.List.{prefix_len};
ghost use Rattle.rs_text.specs.Names as names;
ghost use Rattle.rs_text.specs.Tokens as tokens;

/// The byte at an index, or 0 past the end.
pub(crate) fn byte(bytes: &[u8], at: usize) -> u8
    ensures value { result ≡ slice_index bytes.now at }
    ensures within { result ≢ 0 → at < length bytes.now }
{
    if at < bytes.len() { bytes[at] } else { 0 }
}

/// Whether the byte is white space ("Whitespace").
pub(crate) fn is_blank(b: u8) -> bool
    ensures { result ≡ tokens.is_blank b }
{
    matches!(b, b' ' | b'\t'..=b'\r')
}

fn is_digit(b: u8) -> bool
    ensures { result ≡ names.is_digit b }
{
    b'0' <= b && b <= b'9'
}

/// Whether the byte is a letter, a digit or `_`.
pub(crate) fn is_word_byte(b: u8) -> bool
    ensures { result ≡ names.is_word_byte b }
{
    is_digit(b) || b'A' <= b && b <= b'Z' || b'a' <= b && b <= b'z' || b == b'_'
}

/// Whether the byte is a quote or `#`, which no word stands directly before.
pub(crate) fn is_prefix_mark(b: u8) -> bool
    ensures { result ≡ tokens.is_prefix_mark b }
{
    b == b'"' || b == b'\'' || b == b'#'
}

fn is_quoted_byte(b: u8) -> bool
    ensures { result ≡ tokens.is_quoted_byte b }
{
    b != b'"' && b != b'\\'
}

/// How many letters, digits and `_` come first.
pub(crate) fn word_size(bytes: &[u8]) -> usize
    ensures value { result ≡ tokens.word_size bytes.now }
    ensures within { result ≤ length bytes.now }
{
    bytes.iter().take_while(|b| is_word_byte(**b)).count()
}

/// How many bytes come before the quote that ends a text.
pub(crate) fn quoted_size(bytes: &[u8]) -> usize
    ensures value { result ≡ tokens.quoted_size bytes.now }
    ensures within { result ≤ length bytes.now }
{
    bytes.iter().take_while(|b| is_quoted_byte(**b)).count()
}

/// How many newlines there are.
pub(crate) fn newlines(bytes: &[u8]) -> usize {
    bytes.iter().filter(|b| **b == b'\n').count()
}

//! White space: comments and linemarkers.

ghost use Rattle.std.specs.Prelude.{◌≡◌, ◌≤◌, ◌<◌, ◌+◌, false, length, slice_index, IfSome};
ghost use Rattle.std.specs.Option.{option_copied};
ghost use Rattle.std.specs.List.{list_all};
ghost use Rattle.cx_lex.specs.Space.{behind_quoted, behind_name, is_flag, is_marker};
ghost use Rattle.cx_lex.specs.Mirror.{comment_size};

use crate::bytes::{byte, digits_size, is_margin, margin_size};

/// The size of a comment that begins with `/*` (ISO C99, 6.4.9p1), or None where it doesn't end.
pub fn comment_size(bytes: &[u8]) -> Option<usize>
    ensures value { result ≡ comment_size bytes.now }
    ensures within { IfSome result (λ size. (2 ≤ size) × (size ≤ length bytes.now)) }
{
    for at in 2..bytes.len() {
        if bytes[at] == b'*' && byte(bytes, at + 1) == b'/' {
            return Some(at + 2);
        }
    }
    None
}

// What is behind the closing quote of a text; a backslash takes the next byte with it.
fn behind_quoted(mut bytes: &[u8]) -> Option<&[u8]>
    ensures { option_copied result ≡ behind_quoted false bytes.entry.now }
{
    let mut taken = false;
    while let [b, rest @ ..] = bytes {
        if !taken && *b == b'"' {
            return Some(rest);
        }
        taken = !taken && *b == b'\\';
        bytes = rest;
    }
    None
}

// What is behind a text in double quotes, where one is there.
fn behind_name(bytes: &[u8]) -> Option<&[u8]>
    ensures { option_copied result ≡ behind_name bytes.now }
{
    match bytes {
        [b'"', rest @ ..] => behind_quoted(rest),
        _ => Some(bytes),
    }
}

// Whether the byte is a digit, a blank or a tab.
fn is_flag(b: u8) -> bool
    ensures { result ≡ is_flag b }
{
    b.is_ascii_digit() || is_margin(b)
}

// Whether all bytes are digits, blanks and tabs.
fn is_flags(bytes: &[u8]) -> bool
    ensures { result ≡ list_all is_flag bytes.now }
{
    bytes.iter().all(|b| is_flag(*b))
}

/// Whether a line is a linemarker, as `gcc -E` writes them: `#`, a run of digits, at most one text in
/// double quotes, and runs of digits, with blanks or tabs between and behind them.
pub fn is_marker(line: &[u8]) -> bool
    ensures { result ≡ is_marker line.now }
{
    let [b'#', rest @ ..] = line else {
        return false;
    };
    let number = &rest[margin_size(rest)..];
    if !byte(number, 0).is_ascii_digit() {
        return false;
    }
    let rest = &number[digits_size(number)..];
    match behind_name(&rest[margin_size(rest)..]) {
        None => false,
        Some(flags) => is_flags(flags),
    }
}

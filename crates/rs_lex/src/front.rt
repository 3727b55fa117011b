//! The piece at the front of a text: white space or a token.

ghost use Rattle.std.specs.Prelude.{◌≡◌, ◌≤◌, ◌+◌, [], ◌∷◌, Some, true, option_map, length, drop, IfOk};
ghost use Rattle.rs_lex.specs.Views.{token_seen, piece_seen, piece_in};
ghost use Rattle.rs_text.specs.Tokens as tokens;

use crate::bytes::{byte, is_blank, is_prefix_mark, is_word_byte, quoted_size, word_size};
use crate::marks::mark_at;
use crate::token::TokenKind;
use cr_base::{Memory, Name};
use std::alloc::Global;

/// Bytes at the front of a text, and the token that they are, or None where they are white space.
#[derive(Drop)]
pub(crate) struct Piece {
    pub size: usize,
    pub kind: Option<TokenKind>,
}

/// A token at the front of a text, and how many bytes it has.
#[derive(Drop)]
pub(crate) struct Front {
    pub size: usize,
    pub kind: TokenKind,
}

// A name of some bytes.
fn name_of(alloc: Global, bytes: &[u8]) -> Result<Name, Memory>
    ensures { IfOk result (λ name. name ≡ bytes.now) }
{
    let bytes = Vec::from_slice(alloc, bytes)?;
    Ok(Name::of(bytes))
}

// The piece of a token.
fn piece_of(found: Option<Front>) -> Option<Piece>
    ensures { piece_seen result ≡ option_map (λ front. (front.0 ∷ [], front.1)) (token_seen found) }
{
    match found {
        None => None,
        Some(Front { size, kind }) => Some(Piece {
            size,
            kind: Some(kind),
        }),
    }
}

// A word of this many bytes.
fn word_front(alloc: Global, text: &[u8], size: usize) -> Result<Option<Front>, Memory>
    requires { size ≤ length text.now }
    ensures { IfOk result (λ found. token_seen found ≡ tokens.word_front text.now size) }
{
    if is_prefix_mark(byte(text, size)) {
        return Ok(None);
    }
    let name = name_of(alloc, &text[..size])?;
    Ok(Some(Front {
        size: size,
        kind: TokenKind::Word(name),
    }))
}

// A text in quotes, whose first quote is taken off.
fn quoted_front(alloc: Global, text: &[u8]) -> Result<Option<Front>, Memory>
    ensures { IfOk result (λ found. token_seen found ≡ tokens.quoted_front text.now) }
{
    let size = quoted_size(text);
    if byte(text, size) != b'"' {
        return Ok(None);
    }
    if is_word_byte(byte(text, size + 1)) {
        return Ok(None);
    }
    let name = name_of(alloc, &text[..size])?;
    Ok(Some(Front {
        size: size + 2,
        kind: TokenKind::Quoted(name),
    }))
}

// A label of this many bytes, whose quote is taken off.
fn label_front(alloc: Global, text: &[u8], size: usize) -> Result<Option<Front>, Memory>
    requires { size ≤ length text.now }
    ensures { IfOk result (λ found. token_seen found ≡ tokens.label_front text.now size) }
{
    if size == 0 {
        return Ok(None);
    }
    if is_prefix_mark(byte(text, size)) {
        return Ok(None);
    }
    let name = name_of(alloc, &text[..size])?;
    Ok(Some(Front {
        size: size + 1,
        kind: TokenKind::Label(name),
    }))
}

fn mark_front(alloc: Global, text: &[u8]) -> Result<Option<Front>, Memory>
    ensures { IfOk result (λ found. token_seen found ≡ tokens.mark_front text.now) }
{
    let Some(mark) = mark_at(text) else {
        return Ok(None);
    };
    let name = name_of(alloc, mark)?;
    Ok(Some(Front {
        size: mark.len(),
        kind: TokenKind::Mark(name),
    }))
}

// Whether `r#` stands before a word.
fn is_raw(text: &[u8]) -> bool
    ensures { result ≡ tokens.is_raw text.now }
{
    text.starts_with(b"r#") && is_word_byte(byte(text, 2))
}

// A raw identifier: `r#`, and the word behind it.
fn raw_front(alloc: Global, text: &[u8]) -> Result<Option<Front>, Memory>
    requires { tokens.is_raw text.now ≡ true }
    ensures { IfOk result (λ found. token_seen found ≡ tokens.word_front text.now (2 + tokens.word_size (drop 2 text.now))) }
{
    let size = 2 + word_size(&text[2..]);
    word_front(alloc, text, size)
}

// The token at the front of a text that begins with a byte.
fn token_at(alloc: Global, text: &[u8], first: u8, rest: &[u8]) -> Result<Option<Front>, Memory>
    requires { text.now ≡ first ∷ rest.now }
    ensures { IfOk result (λ found. token_seen found ≡ tokens.token_at first rest.now) }
{
    if is_raw(text) {
        return raw_front(alloc, text);
    }
    if is_word_byte(first) {
        return word_front(alloc, text, word_size(text));
    }
    if first == b'"' {
        return quoted_front(alloc, rest);
    }
    if first == b'\'' {
        return label_front(alloc, rest, word_size(rest));
    }
    mark_front(alloc, text)
}

/// The piece at the front of a text, or None where it is empty or no token begins there. Refused only
/// for want of memory.
pub(crate) fn piece_at(alloc: Global, text: &[u8]) -> Result<Option<Piece>, Memory>
    ensures { IfOk result (λ found. piece_seen found ≡ piece_in text.now) }
{
    let [first, rest @ ..] = text else {
        return Ok(None);
    };
    if is_blank(*first) {
        return Ok(Some(Piece {
            size: 1,
            kind: None,
        }));
    }
    match token_at(alloc, text, *first, rest) {
        Err(memory) => Err(memory),
        Ok(found) => Ok(piece_of(found)),
    }
}

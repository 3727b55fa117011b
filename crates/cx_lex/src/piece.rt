//! What stands at a place in a file: white space, a token, or a broken rule.

ghost use Rattle.std.specs.Prelude.{◌≡◌, ◌≤◌, ◌<◌, length, true, IfOk};
ghost use Rattle.cx_lex.specs.Bytes.{is_nondigit};
ghost use Rattle.cx_lex.specs.Numbers.{begins_number};
ghost use Rattle.cx_lex.specs.Tokens.{begins_wide};
ghost use Rattle.cx_lex.specs.Mirror.{Agrees, comment_piece, marker_piece, text_piece, letter_piece, number_piece, word_piece, mark_piece, token_way, way_at};

use crate::bytes::{byte, is_nondigit, is_white, line_size, tail, word_size};
use crate::fault::Fault;
use crate::literals::{letter_from, signed_of, text_from};
use crate::marks::mark_at;
use crate::numbers::{begins_number, number_from, number_size};
use crate::space::{comment_size, is_marker};
use crate::token::TokenKind;
use crate::words::{word_rule, word_token};
use cr_base::Rule;
use std::alloc::Global;

/// Some bytes at a place, at least one, and the token that they are, or None where they are white
/// space.
#[derive(Debug, Drop)]
pub struct Piece {
    pub size: usize,
    pub kind: Option<TokenKind>,
}

fn comment_piece(bytes: &[u8]) -> Result<Piece, Fault>
    ensures value { Agrees result (comment_piece bytes.now) }
    ensures within { IfOk result (λ piece. (1 ≤ piece.size) × (piece.size ≤ length bytes.now)) }
{
    match comment_size(bytes) {
        None => Err(Fault::Broken(Rule::X2)),
        Some(size) => Ok(Piece { size, kind: None }),
    }
}

// What begins with `#`; `first` says that only blanks and tabs stand before it in its line.
fn marker_piece(bytes: &[u8], first: bool) -> Result<Piece, Fault>
    ensures { Agrees result (marker_piece first bytes.now) }
{
    let size = line_size(bytes);
    if first && is_marker(&bytes[..size]) {
        Ok(Piece { size, kind: None })
    } else {
        Err(Fault::Broken(Rule::X8))
    }
}

fn text_piece(alloc: Global, bytes: &[u8]) -> Result<Piece, Fault>
    requires { 0 < length bytes.now }
    ensures value { Agrees result (text_piece bytes.now) }
    ensures within { IfOk result (λ piece. (1 ≤ piece.size) × (piece.size ≤ length bytes.now)) }
{
    match text_from(alloc, &bytes[1..]) {
        Err(fault) => Err(fault),
        Ok((text, size)) => Ok(Piece {
            size: 1 + size,
            kind: Some(TokenKind::Text(text)),
        }),
    }
}

fn letter_piece(bytes: &[u8]) -> Result<Piece, Fault>
    requires { 0 < length bytes.now }
    ensures value { Agrees result (letter_piece bytes.now) }
    ensures within { IfOk result (λ piece. (1 ≤ piece.size) × (piece.size ≤ length bytes.now)) }
{
    match letter_from(&bytes[1..]) {
        Err(rule) => Err(Fault::Broken(rule)),
        Ok((value, size)) => Ok(Piece {
            size: 1 + size,
            kind: Some(TokenKind::Letter(signed_of(value))),
        }),
    }
}

fn number_piece(bytes: &[u8]) -> Result<Piece, Fault>
    ensures { Agrees result (number_piece bytes.now) }
{
    let size = number_size(bytes);
    match number_from(&bytes[..size]) {
        Err(rule) => Err(Fault::Broken(rule)),
        Ok((value, ty)) => Ok(Piece {
            size,
            kind: Some(TokenKind::Number { value, ty }),
        }),
    }
}

fn word_piece(alloc: Global, bytes: &[u8]) -> Result<Piece, Fault>
    ensures { Agrees result (word_piece bytes.now) }
{
    let size = word_size(bytes);
    let word = &bytes[..size];
    if let Some(rule) = word_rule(word) {
        return Err(Fault::Broken(rule));
    }
    match word_token(alloc, word) {
        Err(memory) => Err(Fault::from(memory)),
        Ok(kind) => Ok(Piece {
            size,
            kind: Some(kind),
        }),
    }
}

fn mark_piece(bytes: &[u8]) -> Result<Piece, Fault>
    ensures { Agrees result (mark_piece bytes.now) }
{
    match mark_at(bytes) {
        None => Err(Fault::Broken(Rule::X1)),
        Some((size, mark)) => Ok(Piece {
            size,
            kind: Some(TokenKind::Mark(mark)),
        }),
    }
}

// Whether a wide literal or a universal character name begins here (ISO C99, 6.4.3).
fn begins_wide(bytes: &[u8]) -> bool
    ensures { result ≡ begins_wide bytes.now }
{
    let next = byte(bytes, 1);
    match byte(bytes, 0) {
        b'L' => next == b'"' || next == b'\'',
        b'\\' => next == b'U' || next == b'u',
        _ => false,
    }
}

// What stands at a place where neither white space nor `#` nor a wide literal does.
fn token_at(alloc: Global, bytes: &[u8]) -> Result<Piece, Fault>
    requires { 0 < length bytes.now }
    ensures { Agrees result (token_way bytes.now) }
{
    match byte(bytes, 0) {
        b'"' => text_piece(alloc, bytes),
        b'\'' => letter_piece(bytes),
        _ if begins_number(bytes) => number_piece(bytes),
        b if is_nondigit(b) => word_piece(alloc, bytes),
        _ => mark_piece(bytes),
    }
}

/// What stands at a place of a file, with the bytes behind it. `first` says that only blanks and tabs
/// stand before it in its line. Refused by the rule that is broken there, or for want of memory.
pub fn piece_at(alloc: Global, bytes: &[u8], first: bool) -> Result<Piece, Fault>
    requires { 0 < length bytes.now }
    ensures { Agrees result (way_at first bytes.now) }
{
    let next = byte(bytes, 1);
    match byte(bytes, 0) {
        b if is_white(b) => Ok(Piece {
            size: 1,
            kind: None,
        }),
        b'/' if next == b'*' => comment_piece(bytes),
        b'/' if next == b'/' => Ok(Piece {
            size: line_size(bytes),
            kind: None,
        }),
        b'#' => marker_piece(bytes, first),
        b'%' if next == b':' => Err(Fault::Broken(Rule::X8)),
        _ if begins_wide(bytes) => Err(Fault::Broken(Rule::X7)),
        _ => token_at(alloc, bytes),
    }
}

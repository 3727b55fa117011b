//! The tokens of a file.

ghost use Rattle.std.specs.Prelude.{◌≡◌, ◌<◌, ◌≤◌, ◌+◌, ◌^◌, ◌++◌, length, drop, OnOk};
ghost use Rattle.rs_lex.specs.Closed as closed;
ghost use Rattle.rs_lex.specs.Lexed.{IsLexed, open_after, last_after};
ghost use Rattle.rs_lex.specs.Views.{kinds_seen, tokens_view};

use crate::angles::{Angles, Last};
use crate::bytes::newlines;
use crate::front::{Piece, piece_at};
use crate::token::{Token, TokenKind};
use cr_base::{Items, Memory};
use std::alloc::Global;

/// Why a file has no tokens.
#[derive(Drop)]
pub enum LexFault {
    /// What stands on this line, counted from 1, begins no token. The number stays at its type's end.
    NotTokens { line: u32 },
    /// Memory ran out.
    Memory,
}

// The line behind this many bytes of a text.
fn line_behind(line: u32, text: &[u8], size: usize) -> u32
    requires { size ≤ length text.now }
{
    let count = newlines(&text[..size]).min(u32::MAX as usize) as u32;
    line.saturating_add(count)
}

// What stands behind this many bytes of a text.
fn behind(text: &[u8], size: usize) -> &[u8]
    requires { size ≤ length text.now }
    ensures { result.now ≡ drop size text.now }
{
    &text[size..]
}

// Appends the token of a piece, if it is one.
fn add(
    tokens: &mut Items<Token>,
    angles: &mut Angles,
    kind: Option<TokenKind>,
    line: u32,
) -> Result<(), Memory>
    requires { angles.old.open < 2 ^ 63 }
    ensures tokens { OnOk result (tokens_view tokens.new ≡ tokens_view tokens.old ++ closed.closed_from angles.old.open angles.old.last (kinds_seen kind)) }
    ensures count { OnOk result (angles.new.open ≡ open_after angles.old.open angles.old.last (kinds_seen kind)) }
    ensures last { OnOk result (angles.new.last ≡ last_after angles.old.last (kinds_seen kind)) }
    ensures within { OnOk result (angles.new.open ≤ angles.old.open + 1) }
{
    let Some(kind) = kind else {
        return Ok(());
    };
    let next = angles.behind(&kind);
    angles.push(tokens, kind, line)?;
    *angles = next;
    Ok(())
}

/// The tokens that a text spells, in which the ends of lists of types are told apart. `NotTokens` says
/// that it spells none.
pub fn lex(alloc: Global, text: &[u8]) -> Result<Items<Token>, LexFault>
    ensures { IsLexed (closed.closed_in text.now) result }
{
    let mut tokens = Items::new(alloc);
    let mut angles = Angles {
        open: 0,
        last: Last::Other,
    };
    let mut line = 1;
    let mut rest = text;
    while !rest.is_empty() {
        let Piece { size, kind } = match piece_at(alloc, rest) {
            Err(_memory) => return Err(LexFault::Memory),
            Ok(None) => return Err(LexFault::NotTokens { line }),
            Ok(Some(piece)) => piece,
        };
        match add(&mut tokens, &mut angles, kind, line) {
            Err(_memory) => return Err(LexFault::Memory),
            Ok(()) => {}
        }
        line = line_behind(line, rest, size);
        rest = behind(rest, size);
    }
    Ok(tokens)
}

//! Lists of types in `< >`.

ghost use Rattle.std.specs.Prelude.{◌≡◌, ◌<◌, ◌≤◌, ◌+◌, ◌-◌, ◌^◌, ◌++◌, OnOk, replicate};
ghost use Rattle.rs_lex.specs.Closed as closed;
ghost use Rattle.rs_lex.specs.Views.{kind_view, tokens_view};
ghost use Rattle.rs_text.specs.Tokens as tree;

use crate::token::{Token, TokenKind};
use cr_base::{Items, Memory};

/// What is kept of the token before: that it is `::` or `<`.
#[derive(Clone, Copy)]
pub(crate) enum Last {
    Other,
    PathMark,
    LessMark,
}

/// How many lists of types are open, and the token before.
#[derive(Clone, Copy)]
pub(crate) struct Angles {
    pub open: usize,
    pub last: Last,
}

fn is_mark(kind: &TokenKind, mark: &[u8]) -> bool
    ensures { result ≡ closed.is_mark mark.now (kind_view kind.now) }
{
    match kind {
        TokenKind::Mark(name) => name.bytes() == mark,
        _ => false,
    }
}

fn is_word(kind: &TokenKind, word: &[u8]) -> bool
    ensures { result ≡ closed.is_word word.now (kind_view kind.now) }
{
    match kind {
        TokenKind::Word(name) => name.bytes() == word,
        _ => false,
    }
}

fn last_of(kind: &TokenKind) -> Last
    ensures { result ≡ closed.last_of (kind_view kind.now) }
{
    if is_mark(kind, b"::") {
        return Last::PathMark;
    }
    if is_mark(kind, b"<") {
        return Last::LessMark;
    }
    Last::Other
}

fn opens(last: Last, kind: &TokenKind) -> bool
    ensures { result ≡ closed.opens last (kind_view kind.now) }
{
    match last {
        Last::Other => false,
        Last::PathMark => is_mark(kind, b"<"),
        Last::LessMark => is_word(kind, b"unsafe"),
    }
}

// How many lists of types a token may end.
fn ends(kind: &TokenKind) -> usize
    ensures value { result ≡ closed.ends (kind_view kind.now) }
{
    if is_mark(kind, b">") {
        return 1;
    }
    if is_mark(kind, b">>") {
        return 2;
    }
    0
}

// Appends so many ends of lists of types.
fn push_ends(tokens: &mut Items<Token>, count: usize, line: u32) -> Result<(), Memory>
    ensures { OnOk result (tokens_view tokens.new ≡ tokens_view tokens.old ++ replicate count tree.Close) }
{
    for _end in 0..count {
        tokens.push(Token {
            kind: TokenKind::Close,
            line,
        })?;
    }
    Ok(())
}

impl Angles {
    // Whether a token ends lists of types that are open.
    fn does_end(self, kind: &TokenKind) -> bool
        ensures { result ≡ closed.does_end self.open (kind_view kind.now) }
    {
        let count = ends(kind);
        1 <= count && count <= self.open
    }

    /// Behind a token.
    pub(crate) fn behind(self, kind: &TokenKind) -> Angles
        requires { self.open < 2 ^ 63 }
        ensures count { result.open ≡ closed.open_behind self.open self.last (kind_view kind.now) }
        ensures last { result.last ≡ closed.last_of (kind_view kind.now) }
        ensures within { result.open ≤ self.open + 1 }
    {
        let last = last_of(kind);
        if self.does_end(kind) {
            return Angles {
                open: self.open - ends(kind),
                last,
            };
        }
        if opens(self.last, kind) {
            return Angles {
                open: self.open + 1,
                last,
            };
        }
        Angles {
            open: self.open,
            last,
        }
    }

    /// Appends a token, or the ends of lists of types that it is.
    pub(crate) fn push(
        self,
        tokens: &mut Items<Token>,
        kind: TokenKind,
        line: u32,
    ) -> Result<(), Memory>
        ensures { OnOk result (tokens_view tokens.new ≡ tokens_view tokens.old ++ closed.closed_token self.open (kind_view kind)) }
    {
        if self.does_end(&kind) {
            return push_ends(tokens, ends(&kind), line);
        }
        tokens.push(Token { kind, line })?;
        Ok(())
    }
}

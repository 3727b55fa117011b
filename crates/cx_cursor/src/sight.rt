//! What stands ahead.

ghost use Rattle.std.specs.Prelude.{◌≡◌};
ghost use Rattle.cx_cursor.specs.Sights as sights;

use crate::scope::Scope;
use cx_lex::{Keyword, Punct, Token, TokenKind};

/// What a token is, where names are in scope.
#[derive(Clone, Copy)]
pub enum Sight {
    /// There is none.
    End,
    /// An identifier that is no typedef name.
    Word,
    /// A typedef name (ISO C99, 6.7.7).
    TypeWord,
    /// An integer constant.
    Number,
    /// A character constant.
    Letter,
    /// A string literal.
    Text,
    Key(Keyword),
    Mark(Punct),
}

// What an identifier is.
fn word_sight(is_type: bool) -> Sight
    ensures { result ≡ sights.word_sight is_type }
{
    if is_type {
        Sight::TypeWord
    } else {
        Sight::Word
    }
}

/// What a kind of token is, where these names are in scope.
pub(crate) fn sight_of(scope: &Scope, kind: &TokenKind) -> Sight
    ensures { result ≡ sights.sight_of scope.now kind.now }
{
    match kind {
        TokenKind::Word(name) => word_sight(scope.is_type(name.bytes())),
        TokenKind::Key(keyword) => Sight::Key(*keyword),
        TokenKind::Number { .. } => Sight::Number,
        TokenKind::Letter(_) => Sight::Letter,
        TokenKind::Text(_) => Sight::Text,
        TokenKind::Mark(punct) => Sight::Mark(*punct),
    }
}

/// What the first of some tokens is.
pub(crate) fn sight_in(scope: &Scope, tokens: &[Token]) -> Sight
    ensures { result ≡ sights.sight_in scope.now tokens.now }
{
    match tokens.first() {
        None => Sight::End,
        Some(token) => sight_of(scope, &token.kind),
    }
}

/// Whether two marks are the same.
#[tactic(auto, unfolding(crate::specs::Sights::same_mark))]
pub fn same_mark(a: Punct, b: Punct) -> bool
    ensures { result ≡ sights.same_mark a b }
{
    a == b
}

/// Whether two keywords are the same.
#[tactic(auto, unfolding(crate::specs::Sights::same_key))]
pub fn same_key(a: Keyword, b: Keyword) -> bool
    ensures { result ≡ sights.same_key a b }
{
    a == b
}

impl Sight {
    /// Whether it is this mark.
    pub fn shows_mark(self, punct: Punct) -> bool
        ensures { result ≡ sights.shows_mark punct self }
    {
        match self {
            Sight::Mark(found) => same_mark(found, punct),
            _ => false,
        }
    }

    /// Whether it is this keyword.
    pub fn shows_key(self, keyword: Keyword) -> bool
        ensures { result ≡ sights.shows_key keyword self }
    {
        match self {
            Sight::Key(found) => same_key(found, keyword),
            _ => false,
        }
    }

    /// Whether it is an identifier, a typedef name or not.
    pub fn shows_word(self) -> bool
        ensures { result ≡ sights.shows_word self }
    {
        matches!(self, Sight::Word | Sight::TypeWord)
    }

    /// Whether it is a string literal.
    pub fn shows_text(self) -> bool
        ensures { result ≡ sights.shows_text self }
    {
        matches!(self, Sight::Text)
    }

    /// Whether no token is there.
    pub fn shows_end(self) -> bool
        ensures { result ≡ sights.shows_end self }
    {
        matches!(self, Sight::End)
    }
}

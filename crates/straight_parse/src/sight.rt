//! What stands ahead.

ghost use Rattle.std.specs.Prelude.{◌≡◌};
ghost use Rattle.straight_parse.specs.Sights as sights;

use cx_lex::{Keyword, Punct, TokenKind};

/// What the next token is.
#[derive(Clone, Copy, Debug)]
pub enum Sight {
    /// There is none.
    End,
    Word,
    Number,
    Key(Keyword),
    Mark(Punct),
    /// A character constant or a string literal.
    Literal,
}

/// What a token is.
pub fn sight_of(kind: &TokenKind) -> Sight
    ensures { result ≡ sights.sight_of kind.now }
{
    match kind {
        TokenKind::Word(_) => Sight::Word,
        TokenKind::Key(keyword) => Sight::Key(*keyword),
        TokenKind::Number { .. } => Sight::Number,
        TokenKind::Letter(_) | TokenKind::Text(_) => Sight::Literal,
        TokenKind::Mark(punct) => Sight::Mark(*punct),
    }
}

/// Whether two marks are the same.
#[tactic(auto, unfolding(crate::specs::Sights::same_mark))]
pub fn same_mark(a: Punct, b: Punct) -> bool
    ensures { result ≡ sights.same_mark a b }
{
    a == b
}

/// Whether this mark stands ahead.
pub fn shows_mark(sight: Sight, punct: Punct) -> bool
    ensures { result ≡ sights.shows_mark punct sight }
{
    match sight {
        Sight::Mark(found) => same_mark(found, punct),
        _ => false,
    }
}

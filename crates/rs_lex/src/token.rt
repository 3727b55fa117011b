//! Tokens.

ghost use Rattle.std.specs.Prelude.{◌≡◌};
ghost use Rattle.rs_lex.specs.Views.{kind_view};
ghost use Rattle.rs_lex.specs.Closed as closed;

use cr_base::Name;

/// A token of a file, and where it stands.
#[derive(Drop)]
pub struct Token {
    pub kind: TokenKind,
    /// The line of the token's first byte in its file, from 1. It stays at its type's end.
    pub line: u32,
}

/// What a token is (the Rust Reference, "Tokens").
#[derive(Drop)]
pub enum TokenKind {
    /// An identifier, a keyword, or a literal of an integer with its suffix.
    Word(Name),
    /// A label, without its quote.
    Label(Name),
    /// A text in double quotes, without them.
    Quoted(Name),
    /// A mark of punctuation.
    Mark(Name),
    /// The end of a list of types in `< >`.
    Close,
}

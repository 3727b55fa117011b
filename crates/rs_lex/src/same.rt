//! Tokens that are the same.

ghost use Rattle.std.specs.Prelude.{◌≡◌};
ghost use Rattle.rs_lex.specs.Same as same;
ghost use Rattle.rs_lex.specs.Views.{kind_view, token_view, tokens_view};

use crate::token::{Token, TokenKind};
use cr_base::Name;

fn same_name(one: &Name, other: &Name) -> bool
    ensures { result ≡ same.same_name one.now other.now }
{
    one.bytes() == other.bytes()
}

fn same_kind(one: &TokenKind, other: &TokenKind) -> bool
    ensures { result ≡ same.same_token (kind_view one.now) (kind_view other.now) }
{
    match (one, other) {
        (TokenKind::Word(one), TokenKind::Word(other)) => same_name(one, other),
        (TokenKind::Label(one), TokenKind::Label(other)) => same_name(one, other),
        (TokenKind::Quoted(one), TokenKind::Quoted(other)) => same_name(one, other),
        (TokenKind::Mark(one), TokenKind::Mark(other)) => same_name(one, other),
        (TokenKind::Close, TokenKind::Close) => true,
        _ => false,
    }
}

/// Whether two lists are of the same tokens, wherever these stand.
pub fn same_tokens(tokens: &[Token], others: &[Token]) -> bool
    ensures { result ≡ same.same_tokens (tokens_view tokens.now) (tokens_view others.now) }
{
    let mut rest = others;
    for token in tokens {
        let [other, behind @ ..] = rest else {
            return false;
        };
        if !same_kind(&token.kind, &other.kind) {
            return false;
        }
        rest = behind;
    }
    rest.is_empty()
}

/// The line of the first token that isn't the same as that of another list, or the last line of the
/// first list, and 1 where it is empty.
pub fn first_other_line(tokens: &[Token], others: &[Token]) -> u32 {
    let mut line = 1;
    for index in 0..tokens.len() {
        line = tokens[index].line;
        if others.len() <= index || !same_kind(&tokens[index].kind, &others[index].kind) {
            return line;
        }
    }
    line
}

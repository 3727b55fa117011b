//! Whether two lists of tokens are the same: each token, with its line.

use cx_lex::{Token, TokenKind};

pub(crate) fn are_same(some: &[Token], others: &[Token]) -> bool {
    if some.len() != others.len() {
        return false;
    }
    for (one, other) in some.iter().zip(others.iter()) {
        if !is_same(one, other) {
            return false;
        }
    }
    true
}

fn is_same(one: &Token, other: &Token) -> bool {
    one.line == other.line && is_same_kind(&one.kind, &other.kind)
}

fn is_same_kind(one: &TokenKind, other: &TokenKind) -> bool {
    match (one, other) {
        (TokenKind::Word(one), TokenKind::Word(other))
        | (TokenKind::Text(one), TokenKind::Text(other)) => one.bytes() == other.bytes(),
        (TokenKind::Key(one), TokenKind::Key(other)) => one == other,
        (
            TokenKind::Number { value: one, ty: of },
            TokenKind::Number {
                value: other,
                ty: with,
            },
        ) => one == other && of == with,
        (TokenKind::Letter(one), TokenKind::Letter(other)) => one == other,
        (TokenKind::Mark(one), TokenKind::Mark(other)) => one == other,
        _ => false,
    }
}

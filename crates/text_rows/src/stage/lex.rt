//! `lex TEXT`: the tokens that a unit of this text spells (ISO C99, 6.4), as `@1 word:"x" mark:Plus number:1:Int`,
//! where `@1` is the line of the tokens behind it, up to the next such word; or the rule of tokens that it
//! breaks first, as `X1 on line 1`.

use cr_base::{Refusal, Stop};
use cx_lex::{Token, TokenKind, lex};
use row_words::{Answer, Asked, RowFault};
use std::alloc::Global;

/// The bytes that a unit may have.
pub(crate) const UNIT_LIMIT: usize = 1_048_576;

pub(crate) fn answer(alloc: Global, asked: &mut Asked, out: &mut Answer) {
    let bytes = asked.bytes(alloc);
    if bytes.len() > UNIT_LIMIT {
        asked.refuse();
        return;
    }
    match lex(alloc, bytes.as_slice(), 0) {
        Ok(tokens) => write_tokens(tokens.as_slice(), out),
        Err(Stop::Refused(refusal)) => write_refusal(refusal, out),
        Err(Stop::Memory) => asked.fail(RowFault::Memory),
    }
}

fn write_tokens(tokens: &[Token], out: &mut Answer) {
    if tokens.is_empty() {
        out.text("no token");
    }
    let mut line = 0;
    for (place, token) in tokens.iter().enumerate() {
        if place > 0 {
            out.text(" ");
        }
        if token.line != line {
            line = token.line;
            write_line(line, out);
        }
        write_token(&token.kind, out);
    }
}

fn write_line(line: u32, out: &mut Answer) {
    out.text("@");
    out.value(line);
    out.text(" ");
}

fn write_token(kind: &TokenKind, out: &mut Answer) {
    match kind {
        TokenKind::Word(name) => {
            out.text("word:");
            out.quoted(name.bytes());
        }
        TokenKind::Key(keyword) => {
            out.text("key:");
            out.variant(*keyword);
        }
        TokenKind::Number { value, ty } => {
            out.text("number:");
            out.value(*value);
            out.text(":");
            out.variant(*ty);
        }
        TokenKind::Letter(value) => {
            out.text("letter:");
            out.value(*value);
        }
        TokenKind::Text(bytes) => {
            out.text("text:");
            out.quoted(bytes.bytes());
        }
        TokenKind::Mark(mark) => {
            out.text("mark:");
            out.variant(*mark);
        }
    }
}

/// Writes a rule that a unit breaks, with its line.
pub(crate) fn write_refusal(refusal: Refusal, out: &mut Answer) {
    out.text(refusal.rule.code());
    out.text(" on line ");
    out.value(refusal.line);
}

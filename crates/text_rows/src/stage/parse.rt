//! `parse TEXT`: the syntax tree of a unit of this text (ISO C99, 6.5 to 6.9): its external declarations, each in
//! the form that the modules under `parse` say, as `(define (int) (function main (param (void) _)) (block (return
//! 0)))`. Where the text has no tree, the answer is the rule that it breaks, as `S1 on line 3`.
//!
//! `tokens TEXT`: `same` where the tokens of that tree are those of the text, each on its line, and `differ` where
//! they aren't. `depth TEXT`: how many nodes stand on its longest path.
//!
//! `repeat COUNT HEAD | OPENING | MIDDLE | CLOSING | TAIL`: of a unit that is HEAD, so many times OPENING, MIDDLE,
//! so many times CLOSING, and TAIL, how many external declarations it has and how deep its tree is, as `1 part,
//! depth 5`. Each of the five texts may be empty, but for the last one.

mod declarations;
mod declarators;
mod exprs;
mod initialisers;
mod marks;
mod repeated;
mod same;
mod specifiers;
mod stmts;

use crate::stage::lex::{UNIT_LIMIT, write_refusal};
use cr_base::{Items, Stop};
use cx_lex::{Token, lex};
use cx_parse::parse;
use cx_print::{depth, tokens_of};
use cx_tree::Unit;
use declarations::write_externals;
use repeated::repeated;
use row_words::{Answer, Asked, RowFault};
use same::are_same;
use std::alloc::Global;

pub(crate) fn answer(alloc: Global, asked: &mut Asked, out: &mut Answer) {
    let text = asked.bytes(alloc);
    if let Some(unit) = unit_of(alloc, text.as_slice(), asked, out) {
        write_externals(unit.parts.as_slice(), out);
    }
}

pub(crate) fn answer_tokens(alloc: Global, asked: &mut Asked, out: &mut Answer) {
    let text = asked.bytes(alloc);
    let Some(unit) = unit_of(alloc, text.as_slice(), asked, out) else {
        return;
    };
    let Some(printed) = asked.had(tokens_of(alloc, &unit)) else {
        return;
    };
    if let Some(tokens) = lexed(alloc, text.as_slice(), asked, out) {
        out.text(if are_same(printed.as_slice(), tokens.as_slice()) {
            "same"
        } else {
            "differ"
        });
    }
}

pub(crate) fn answer_depth(alloc: Global, asked: &mut Asked, out: &mut Answer) {
    let text = asked.bytes(alloc);
    if let Some(unit) = unit_of(alloc, text.as_slice(), asked, out) {
        out.value(depth(&unit));
    }
}

pub(crate) fn answer_repeated(alloc: Global, asked: &mut Asked, out: &mut Answer) {
    let text = repeated(alloc, asked);
    if let Some(unit) = unit_of(alloc, text.as_slice(), asked, out) {
        write_size(&unit, out);
    }
}

fn write_size(unit: &Unit, out: &mut Answer) {
    let count = unit.parts.len();
    out.value(count);
    out.text(if count == 1 { " part" } else { " parts" });
    out.text(", depth ");
    out.value(depth(unit));
}

// The tree of a text; where there is none, the rule that the text breaks is written.
fn unit_of(alloc: Global, text: &[u8], asked: &mut Asked, out: &mut Answer) -> Option<Unit> {
    let tokens = lexed(alloc, text, asked, out)?;
    given(parse(alloc, tokens.as_slice(), 0), asked, out)
}

// The tokens of a text; where it has none, the rule that it breaks is written.
fn lexed(alloc: Global, text: &[u8], asked: &mut Asked, out: &mut Answer) -> Option<Items<Token>> {
    if text.len() > UNIT_LIMIT {
        asked.refuse();
        return None;
    }
    given(lex(alloc, text, 0), asked, out)
}

fn given<T: Drop>(made: Result<T, Stop>, asked: &mut Asked, out: &mut Answer) -> Option<T> {
    match made {
        Ok(made) => Some(made),
        Err(Stop::Refused(refusal)) => {
            write_refusal(refusal, out);
            None
        }
        Err(Stop::Memory) => {
            asked.fail(RowFault::Memory);
            None
        }
    }
}

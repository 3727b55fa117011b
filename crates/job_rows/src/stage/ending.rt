//! `undefined CODE`: the rule with this code by which a step of C is undefined, and what a report says of it; `wrong CAUSE`: what a report
//! says of a cause, by its name, by which a step of a crate is wrong.

use cr_base::URule;
use row_words::{Answer, Asked};
use rs_mean::Cause;
use run_ends::{cause_of, code_of, words_of};

const RULES: [URule; 16] = [
    URule::U1,
    URule::U2,
    URule::U3,
    URule::U4,
    URule::U5,
    URule::U6,
    URule::U7,
    URule::U8,
    URule::U9,
    URule::U10,
    URule::U11,
    URule::U12,
    URule::U13,
    URule::U14,
    URule::U15,
    URule::U16,
];

const CAUSES: [(&str, Cause); 15] = [
    ("Overflow", Cause::Overflow),
    ("Divisor", Cause::Divisor),
    ("Shift", Cause::Shift),
    ("Dead", Cause::Dead),
    ("Outside", Cause::Outside),
    ("Unset", Cause::Unset),
    ("BadBool", Cause::BadBool),
    ("MixedPointer", Cause::MixedPointer),
    ("Misaligned", Cause::Misaligned),
    ("Offset", Cause::Offset),
    ("Apart", Cause::Apart),
    ("NoneCall", Cause::NoneCall),
    ("WrongCall", Cause::WrongCall),
    ("BadFree", Cause::BadFree),
    ("Overlap", Cause::Overlap),
];

pub(crate) fn answer_undefined(asked: &mut Asked, out: &mut Answer) {
    let code = asked.word();
    match RULES.iter().find(|rule| code_of(**rule) == code) {
        Some(rule) => write_rule(*rule, out),
        None => asked.refuse(),
    }
    asked.end();
}

fn write_rule(rule: URule, out: &mut Answer) {
    out.variant(rule);
    out.text(": ");
    out.text(words_of(rule));
}

pub(crate) fn answer_wrong(asked: &mut Asked, out: &mut Answer) {
    if let Some(cause) = asked.named(&CAUSES) {
        out.text(cause_of(cause));
    }
    asked.end();
}

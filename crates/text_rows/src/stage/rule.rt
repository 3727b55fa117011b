//! `rule CODE`: the rule of the profile that has this code, and what it says.

use cr_base::{Rule, rule_text};
use row_words::{Answer, Asked};

const RULES: [Rule; 54] = [
    Rule::X1,
    Rule::X2,
    Rule::X3,
    Rule::X4,
    Rule::X5,
    Rule::X6,
    Rule::X7,
    Rule::X8,
    Rule::S1,
    Rule::O1,
    Rule::O2,
    Rule::O3,
    Rule::O4,
    Rule::O5,
    Rule::O6,
    Rule::O7,
    Rule::O8,
    Rule::O9,
    Rule::O10,
    Rule::O11,
    Rule::O12,
    Rule::K1,
    Rule::K2,
    Rule::K3,
    Rule::K4,
    Rule::K5,
    Rule::K6,
    Rule::K7,
    Rule::K8,
    Rule::K9,
    Rule::K10,
    Rule::K11,
    Rule::K12,
    Rule::K13,
    Rule::K14,
    Rule::K15,
    Rule::K16,
    Rule::K17,
    Rule::K18,
    Rule::K19,
    Rule::K20,
    Rule::K21,
    Rule::K22,
    Rule::K23,
    Rule::K24,
    Rule::M1,
    Rule::M2,
    Rule::M3,
    Rule::L1,
    Rule::L2,
    Rule::L3,
    Rule::L4,
    Rule::L5,
    Rule::N1,
];

pub(crate) fn answer(asked: &mut Asked, out: &mut Answer) {
    let code = asked.word();
    match RULES.iter().find(|rule| rule.code() == code) {
        Some(rule) => write_rule(*rule, out),
        None => asked.refuse(),
    }
    asked.end();
}

fn write_rule(rule: Rule, out: &mut Answer) {
    out.variant(rule);
    out.text(": ");
    out.text(rule_text(rule));
}

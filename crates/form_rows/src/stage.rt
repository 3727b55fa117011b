//! What a row asks.

use crate::operand::{Operand, Pile, taken};
use crate::places::value_taken;
use crate::steps::do_steps;
use crate::text::{write_expr, write_statements};
use crate::types::spot_asked;
use cr_base::Items;
use lift_forms_bits::bit_write;
use lift_forms_code::{test_of, value_of};
use row_words::{Answer, Answers, Asked, RowFault, first_step, under_name};
use std::alloc::Global;

#[derive(Clone, Copy)]
enum Stage {
    /// The value of an operand.
    Value,
    /// Its test as a condition.
    Test,
    /// A store in a bit-field.
    Store,
}

const STAGES: [(&str, Stage); 3] = [
    ("value", Stage::Value),
    ("test", Stage::Test),
    ("store", Stage::Store),
];

/// All stages.
#[derive(Clone, Copy)]
pub struct Stages;

impl Answers for Stages {
    fn answer(&self, alloc: Global, stage: &str, asked: &mut Asked<'_>, out: &mut Answer) {
        match under_name(&STAGES, stage) {
            Some(Stage::Value) => value(alloc, asked, out),
            Some(Stage::Test) => test(alloc, asked, out),
            Some(Stage::Store) => store(alloc, asked, out),
            None => asked.fail(RowFault::NoStage),
        }
    }
}

// The operand that the steps leave on the pile; where they leave none, or another one below it, the row is refused.
fn left(alloc: Global, asked: &mut Asked) -> Option<Operand> {
    let mut pile = Items::new(alloc);
    do_steps(alloc, &mut pile, asked);
    let last = taken(&mut pile, asked);
    if !pile.is_empty() {
        asked.refuse();
    }
    last
}

fn value(alloc: Global, asked: &mut Asked, out: &mut Answer) {
    if let Some(of) = left(alloc, asked) {
        if let Some(e) = asked.had(value_of(alloc, of.given)) {
            write_expr(alloc, e, asked, out);
        }
    }
}

fn test(alloc: Global, asked: &mut Asked, out: &mut Answer) {
    if let Some(Operand { ty, given }) = left(alloc, asked) {
        if let Some(e) = asked.had(test_of(alloc, ty.get(), given)) {
            write_expr(alloc, e, asked, out);
        }
    }
}

fn store(alloc: Global, asked: &mut Asked, out: &mut Answer) {
    let field = first_step(asked);
    let steps = asked.rest();
    asked.begin(field);
    let spot = spot_asked(asked);
    asked.end();
    asked.begin(steps);
    let mut pile: Pile = Items::new(alloc);
    do_steps(alloc, &mut pile, asked);
    let Some(spot) = spot else { return };
    let Some(value) = value_taken(alloc, &mut pile, asked) else {
        return;
    };
    let Some(base) = value_taken(alloc, &mut pile, asked) else {
        return;
    };
    if let Some(body) = asked.had(bit_write(alloc, base.get(), spot, value.get())) {
        write_statements(alloc, body, asked, out);
    }
}

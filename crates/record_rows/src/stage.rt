use crate::records::Records;
use cr_base::Name;
use row_words::{Answer, Answers, Asked, RowFault, first_step};
use std::alloc::Global;

/// The one stage.
#[derive(Clone, Copy)]
pub struct Stages;

impl Answers for Stages {
    fn answer(&self, alloc: Global, stage: &str, asked: &mut Asked<'_>, out: &mut Answer) {
        match stage {
            "records" => answer(alloc, asked, out),
            _ => asked.fail(RowFault::NoStage),
        }
    }
}

fn answer(alloc: Global, asked: &mut Asked, out: &mut Answer) {
    let home = first_step(asked);
    let steps = asked.rest();
    asked.begin(home);
    let mut records = Records::new(alloc, Name::of(asked.bytes(alloc)));
    for step in steps.split(" | ") {
        asked.begin(step);
        records.step(alloc, asked);
    }
    records.write(alloc, asked, out);
}

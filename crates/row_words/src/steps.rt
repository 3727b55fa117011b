use crate::answer::Answer;
use crate::asked::Asked;
use std::alloc::Global;

/// What is asked in steps that change it, one behind another.
pub trait Steps {
    /// Does the step that is asked, and writes what it answers.
    fn step(&mut self, alloc: Global, asked: &mut Asked<'_>, out: &mut Answer);
}

/// Does the steps that are left, which ` | ` separates, and writes what they answer, separated likewise.
pub fn answer_steps<S: Steps>(
    doer: &mut S,
    alloc: Global,
    asked: &mut Asked<'_>,
    out: &mut Answer,
) {
    for step in asked.rest().split(" | ") {
        asked.begin(step);
        doer.step(alloc, asked, out);
        asked.end();
    }
}

/// The first step, behind which the others are left to be asked.
pub fn first_step<'a>(asked: &mut Asked<'a>) -> &'a str {
    let (first, others) = asked.rest().split_once(" | ").unwrap_or((asked.rest(), ""));
    asked.begin(others);
    first
}

use crate::answer::Answer;
use crate::asked::Asked;
use crate::fault::RowFault;
use std::alloc::{AllocError, Global};

/// What a program of rows answers.
pub trait Answers {
    /// Writes what the stage of this name answers, or says that there is no such stage.
    fn answer(&self, alloc: Global, stage: &str, asked: &mut Asked<'_>, out: &mut Answer);
}

/// The answer to a row: what its stage answers, or why there is no answer. Refused only for want of memory.
pub fn answer_to<A: Answers>(program: &A, alloc: Global, row: &str) -> Result<String, AllocError> {
    let mut out = Answer::new(alloc);
    if row.is_empty() || row.starts_with('#') {
        out.text(row);
    } else if let Some(fault) = write_answer(program, alloc, row, &mut out) {
        out.replace(fault.text());
    }
    out.finish()
}

// Writes what the stage of a row answers, and says why there is no answer, if there is none.
fn write_answer<A: Answers>(
    program: &A,
    alloc: Global,
    row: &str,
    out: &mut Answer,
) -> Option<RowFault> {
    let mut asked = Asked::new(row);
    let stage = asked.word();
    program.answer(alloc, stage, &mut asked, out);
    asked.fault()
}

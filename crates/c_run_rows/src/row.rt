use crate::answer::Answer;
use crate::asked::Asked;
use crate::fault::RowFault;
use crate::run::write_run;
use crate::units::sources;
use c_job::checked_program;
use cr_base::{Refusal, Stop};
use cx_core::Program;
use std::alloc::{AllocError, Global};

/// The answer to a row: how its program runs, or why it doesn't.
pub fn answer_to(alloc: Global, row: &str) -> Result<String, AllocError> {
    let mut out = Answer::new(alloc);
    if row.is_empty() || row.starts_with('#') {
        out.text(row);
    } else if let Some(fault) = write_answer(alloc, row, &mut out) {
        write_fault(fault, &mut out);
    }
    out.finish()
}

fn write_answer(alloc: Global, row: &str, out: &mut Answer) -> Option<RowFault> {
    let Some((setting, text)) = row.split_once(" | ") else {
        return Some(RowFault::Form);
    };
    let mut asked = Asked::new(setting);
    match program(alloc, text, &mut asked) {
        Ok(program) => write_run(alloc, &program, setting, &mut asked, out),
        Err(stop) => asked.fail(RowFault::of(stop)),
    }
    asked.fault()
}

// The program of the units of a text, or the first rule that they break. Only for want of memory is there no unit.
fn program(alloc: Global, text: &str, asked: &mut Asked) -> Result<Program, Stop> {
    let sources = sources(alloc, text, asked);
    if sources.is_empty() {
        return Err(Stop::Memory);
    }
    checked_program(alloc, sources.as_slice())
}

fn write_fault(fault: RowFault, out: &mut Answer) {
    match fault {
        RowFault::Broken(refusal) => write_refusal(refusal, out),
        RowFault::Form => out.replace("no answer: not the form of a row"),
        RowFault::Memory => out.replace("no answer: out of memory"),
    }
}

fn write_refusal(refusal: Refusal, out: &mut Answer) {
    out.replace(refusal.rule.code());
    out.text(" on line ");
    out.value(refusal.line);
    out.text(" of unit ");
    out.value(refusal.unit);
}

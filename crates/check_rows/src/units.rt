use crate::answer::Answer;
use crate::fault::RowFault;
use crate::text::bytes_of;
use cr_base::{Items, Refusal, Stop};
use cx_units::{Source, check_units};
use std::alloc::Global;

/// Writes the first rule that the units of a text break, or that they break none.
pub(crate) fn write_units(alloc: Global, text: &str, out: &mut Answer) -> Result<(), RowFault> {
    let sources = sources_of(alloc, text)?;
    if sources.is_empty() {
        return Err(RowFault::Form);
    }
    match check_units(alloc, sources.as_slice()) {
        Ok(_units) => out.text("typed"),
        Err(Stop::Refused(refusal)) => write_refusal(refusal, out),
        Err(Stop::Memory) => return Err(RowFault::Memory),
    }
    Ok(())
}

// The units of a text, in which `$u` stands between two.
fn sources_of(alloc: Global, text: &str) -> Result<Items<Source>, RowFault> {
    let mut sources = Items::new(alloc);
    for piece in text.split("$u") {
        let bytes = bytes_of(alloc, piece)?;
        if sources.push(Source::Bytes(Items::of(bytes))).is_err() {
            return Err(RowFault::Memory);
        }
    }
    Ok(sources)
}

// Writes the rule, the unit behind the first, and the line, where there is one.
fn write_refusal(refusal: Refusal, out: &mut Answer) {
    out.text(refusal.rule.code());
    if refusal.unit > 0 {
        out.text(" in unit ");
        out.value(refusal.unit);
    }
    if refusal.line > 0 {
        out.text(" on line ");
        out.value(refusal.line);
    }
}

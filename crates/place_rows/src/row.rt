use crate::answer::Answer;
use crate::asked::Asked;
use crate::fault::RowFault;
use crate::initialiser::given;
use crate::types::{all_types, asked_type};
use cr_base::{Items, Memory};
use cx_core::{CoreExpr, Form, Put};
use cx_grounded::layouts_of;
use cx_place::{PlaceFault, place};
use std::alloc::{AllocError, Global};

/// The answer to a row.
pub fn answer_to(alloc: Global, row: &str) -> Result<String, AllocError> {
    let mut out = Answer::new(alloc);
    if row.is_empty() || row.starts_with('#') {
        out.text(row);
    } else if let Some(fault) = write_answer(alloc, row, &mut out) {
        write_fault(fault, &mut out);
    }
    out.finish()
}

fn write_answer(alloc: Global, row: &str, out: &mut Answer) -> Option<RowFault> {
    let Some((ty, text)) = row.split_once(" | ") else {
        return Some(RowFault::Form);
    };
    let mut asked = Asked::new(ty);
    let puts = placed(alloc, text, &mut asked);
    write_puts(puts, &mut asked, out);
    asked.fault()
}

// The puts of an initialiser for an object of the type that is asked for.
fn placed(alloc: Global, text: &str, asked: &mut Asked) -> Result<Items<Put>, PlaceFault> {
    let ty = asked_type(alloc, asked)?;
    let types = all_types(alloc)?;
    let layouts = layouts_of(alloc, &types)?;
    match given(alloc, text, asked) {
        Some(given) => place(alloc, &ty, given, &types, &layouts),
        None => Err(PlaceFault::Memory),
    }
}

fn write_puts(puts: Result<Items<Put>, PlaceFault>, asked: &mut Asked, out: &mut Answer) {
    match puts {
        Ok(puts) => {
            for put in puts.as_slice() {
                write_put(put, out);
            }
        }
        Err(PlaceFault::Broken { rule, part }) => {
            out.text(rule.code());
            out.text(" at part ");
            out.value(part);
        }
        Err(PlaceFault::Memory) => asked.fail(RowFault::Memory),
    }
}

fn write_put(put: &Put, out: &mut Answer) {
    out.value(put.spot.byte);
    if put.spot.width > 0 {
        out.text(":");
        out.value(put.spot.bit);
    }
    out.text("=");
    write_value(put.value.get(), out);
    out.text(" ");
}

fn write_value(value: &CoreExpr, out: &mut Answer) {
    match &value.form {
        Form::Whole(number) => out.value(*number),
        Form::Null => out.text("null"),
        Form::Convert(inner) => write_value(inner.get(), out),
        Form::Address(of) => write_address(of.get(), out),
        _ => out.text("other"),
    }
}

fn write_address(of: &CoreExpr, out: &mut Answer) {
    match &of.form {
        Form::Object(number) => {
            out.text("&");
            out.value(*number);
        }
        _ => out.text("address"),
    }
}

fn write_fault(fault: RowFault, out: &mut Answer) {
    match fault {
        RowFault::Form => out.replace("no answer: not the form of a row"),
        RowFault::Memory => out.replace("no answer: out of memory"),
    }
}

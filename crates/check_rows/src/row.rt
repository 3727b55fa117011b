use crate::answer::Answer;
use crate::fault::{RowFault, given};
use crate::place::{constant_in, value_in};
use crate::text::unit_of;
use crate::types::write_type;
use crate::units::write_units;
use cx_decl::check_unit;
use cx_tree::Unit;
use std::alloc::{AllocError, Global};

/// The answer to a row.
pub fn answer_to(alloc: Global, row: &str) -> Result<String, AllocError> {
    let mut out = Answer::new(alloc);
    if row.is_empty() || row.starts_with('#') {
        out.text(row);
    } else if let Err(fault) = write_answer(alloc, row, &mut out) {
        fault.write(&mut out);
    }
    out.finish()
}

// Writes what a row asks for, at once: nothing is written where there is no answer.
fn write_answer(alloc: Global, row: &str, out: &mut Answer) -> Result<(), RowFault> {
    let Some((word, text)) = row.split_once(' ') else {
        return Err(RowFault::Form);
    };
    match word {
        "expression" => write_expression(alloc, &unit_of(alloc, text)?, out),
        "constant" => write_constant(alloc, &unit_of(alloc, text)?, out),
        "unit" => write_unit(alloc, &unit_of(alloc, text)?, out),
        "units" => write_units(alloc, text, out),
        _ => Err(RowFault::Form),
    }
}

fn write_expression(alloc: Global, unit: &Unit, out: &mut Answer) -> Result<(), RowFault> {
    let made = value_in(alloc, unit)?;
    write_type(&made.get().ty, out);
    Ok(())
}

fn write_unit(alloc: Global, unit: &Unit, out: &mut Answer) -> Result<(), RowFault> {
    let _typed = given(check_unit(alloc, unit, 0))?;
    out.text("typed");
    Ok(())
}

fn write_constant(alloc: Global, unit: &Unit, out: &mut Answer) -> Result<(), RowFault> {
    let value = constant_in(alloc, unit)?;
    let made = value_in(alloc, unit)?;
    write_type(&made.get().ty, out);
    out.text(" ");
    out.value(value);
    Ok(())
}

//! Initialisers (ISO C99, 6.7.8): `E`, or `{ENTRY ENTRY}`, or `{ENTRY ENTRY ,}` with a comma behind the last one.
//! An entry is an initialiser, or `(at [E] .x .. INITIALISER)` behind designators.

use crate::stage::parse::exprs::write_expr;
use cx_tree::{Designator, Entry, Initialiser, InitialiserList};
use row_words::Answer;

#[cycle(forms)]
pub(crate) fn write_initialiser(init: &Initialiser, out: &mut Answer) {
    match init {
        Initialiser::Single(expr) => write_expr(expr.get(), out),
        Initialiser::Braced(list) => write_list(list.get(), out),
    }
}

#[cycle(forms)]
pub(crate) fn write_list(list: &InitialiserList, out: &mut Answer) {
    out.text("{");
    if let Some((first, others)) = list.entries.as_slice().split_first() {
        write_entry(first, out);
        write_more_entries(others, out);
    }
    out.text(if list.last_comma { " ,}" } else { "}" });
}

#[cycle(forms)]
fn write_more_entries(entries: &[Entry], out: &mut Answer) {
    for entry in entries {
        out.text(" ");
        write_entry(entry, out);
    }
}

#[cycle(forms)]
fn write_entry(entry: &Entry, out: &mut Answer) {
    if entry.designators.is_empty() {
        write_initialiser(entry.init.get(), out);
    } else {
        write_designated(entry, out);
    }
}

#[cycle(forms)]
fn write_designated(entry: &Entry, out: &mut Answer) {
    out.text("(at ");
    for designator in entry.designators.as_slice() {
        write_designator(designator, out);
        out.text(" ");
    }
    write_initialiser(entry.init.get(), out);
    out.text(")");
}

#[cycle(forms)]
fn write_designator(designator: &Designator, out: &mut Answer) {
    match designator {
        Designator::Element { at, .. } => {
            out.text("[");
            write_expr(at.get(), out);
            out.text("]");
        }
        Designator::Member { name, .. } => {
            out.text(".");
            out.bytes(name.bytes());
        }
    }
}

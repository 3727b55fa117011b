//! `bytes encode TYPE VALUE`: the cells of a value, the first eight (ISO C99, 6.2.6). `bytes decode TYPE CELL ..`:
//! the value whose cells come first, or the fault that is found, by its name. Types are those of `scalar`; values
//! and cells those of `cell`.

use crate::cell::{cell, value, write_cell, write_value};
use mem_bytes::{Cell, decode, encode, scalar_size};
use row_words::{Answer, Asked, scalar};
use std::alloc::Global;

pub(crate) fn answer(alloc: Global, asked: &mut Asked, out: &mut Answer) {
    match asked.word() {
        "encode" => encoded(asked, out),
        "decode" => decoded(alloc, asked, out),
        _ => asked.refuse(),
    }
}

fn encoded(asked: &mut Asked, out: &mut Answer) {
    let scalar = scalar(asked);
    for cell in encode(scalar, value(asked, scalar)) {
        out.separate_words();
        write_cell(cell, out);
    }
    asked.end();
}

fn decoded(alloc: Global, asked: &mut Asked, out: &mut Answer) {
    let scalar = scalar(asked);
    let cells = cells(alloc, asked);
    if cells.len() < scalar_size(scalar) {
        asked.refuse();
        return;
    }
    match decode(scalar, cells.as_slice()) {
        Ok(value) => write_value(value, out),
        Err(fault) => out.variant(fault),
    }
}

fn cells(alloc: Global, asked: &mut Asked) -> Vec<Cell> {
    let mut cells = Vec::new(alloc);
    for word in asked.rest().split_ascii_whitespace() {
        asked.begin(word);
        let cell = cell(asked);
        asked.had(cells.push(cell));
    }
    cells
}

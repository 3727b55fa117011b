//! `memory CALL | CALL ..`: what each of these calls of a list store answers (ISO C99, 6.2.4 and 6.2.6), in
//! their order; `region BYTES BLOCKS | CALL | CALL ..`: what a store in a region answers that holds so many bytes
//! and live blocks. Types are those of `scalar`; places, values and cells those of `cell`.
//!
//! | call | answer |
//! |---|---|
//! | `alloc SIZE ALIGN` | the block's number |
//! | `kill BLOCK`, `put PLACE TYPE VALUE`, `fill PLACE BYTE COUNT`, `copy FROM TO COUNT`, `put_cell PLACE CELL`, `put_bits PLACE BIT WIDTH NUMBER` | `ok` |
//! | `load PLACE TYPE`, `load_bits PLACE BIT WIDTH`, `cell PLACE` | the value, the number, the cell |
//! | `bytes BLOCK COUNT` | the first cells of a block |
//! | `state BLOCK` | `SIZE ALIGN live` or `SIZE ALIGN dead`, or `none` where no such block was made |
//!
//! Each may answer a fault in the place of that, by its name; `Full NEED LEFT` has the bytes that a block needs and
//! those that are left.

ghost use Rattle.std.specs.Prelude.{◌≡◌, ◌<◌, ◌≤◌, ◌^◌, [], length, IfSome, IsTrue};
ghost use Rattle.mem_bytes.specs.Calls.{IsAlignment, IsBlockSize, IsFieldPlace};

use crate::cell::{cell, place, value, write_cell, write_value};
use mem_bytes::{Fault, ListStore, Ptr, Store, StoreFault};
use row_words::{Answer, Asked, RowFault, Steps, answer_steps, first_step, region, scalar};
use std::alloc::Global;

// The greatest size of a block, in bytes.
const LARGEST: u64 = 16_777_216;

// As many blocks as a row may make.
const MOST_MADE: u64 = 1 << 40;

pub(crate) fn answer(alloc: Global, asked: &mut Asked, out: &mut Answer) {
    let store = ListStore::new(alloc);
    answer_steps(&mut Calling { store }, alloc, asked, out);
}

pub(crate) fn answer_in_region(alloc: Global, asked: &mut Asked, out: &mut Answer) {
    let limit = first_step(asked);
    let calls = asked.rest();
    asked.begin(limit);
    let bytes = asked.number();
    let blocks = asked.number();
    asked.end();
    asked.begin(calls);
    if let Some(store) = region(alloc, bytes, blocks, asked) {
        answer_steps(&mut Calling { store }, alloc, asked, out);
    }
}

// A store whose calls are asked.
#[derive(Drop)]
struct Calling<S> {
    store: S,
}

impl<S: Store> Steps for Calling<S> {
    fn step(&mut self, _alloc: Global, asked: &mut Asked<'_>, out: &mut Answer) {
        write_step(&mut self.store, asked, out);
    }
}

fn write_step<S: Store>(store: &mut S, asked: &mut Asked, out: &mut Answer) {
    out.separate();
    if let Some(call) = asked.named(&CALLS) {
        call.write(store, asked, out);
    }
}

#[derive(Clone, Copy)]
enum Call {
    Alloc,
    Kill,
    Put,
    PutBits,
    Copy,
    Fill,
    PutCell,
    Look(Look),
}

// A call that changes nothing.
#[derive(Clone, Copy)]
enum Look {
    Load,
    LoadBits,
    Cell,
    Bytes,
    State,
}

const CALLS: [(&str, Call); 12] = [
    ("alloc", Call::Alloc),
    ("kill", Call::Kill),
    ("put", Call::Put),
    ("put_bits", Call::PutBits),
    ("copy", Call::Copy),
    ("fill", Call::Fill),
    ("put_cell", Call::PutCell),
    ("load", Call::Look(Look::Load)),
    ("load_bits", Call::Look(Look::LoadBits)),
    ("cell", Call::Look(Look::Cell)),
    ("bytes", Call::Look(Look::Bytes)),
    ("state", Call::Look(Look::State)),
];

impl Call {
    fn write<S: Store>(self, store: &mut S, asked: &mut Asked, out: &mut Answer) {
        match self {
            Call::Alloc => alloc(store, asked, out),
            Call::Kill => kill(store, asked, out),
            Call::Put => put(store, asked, out),
            Call::PutBits => put_bits(store, asked, out),
            Call::Copy => copy(store, asked, out),
            Call::Fill => fill(store, asked, out),
            Call::PutCell => put_cell(store, asked, out),
            Call::Look(look) => look.write(store, asked, out),
        }
    }
}

impl Look {
    fn write<S: Store>(self, store: &S, asked: &mut Asked, out: &mut Answer) {
        match self {
            Look::Load => load(store, asked, out),
            Look::LoadBits => load_bits(store, asked, out),
            Look::Cell => write_cell_at(store, place(asked), out),
            Look::Bytes => bytes(store, asked, out),
            Look::State => state(store, asked, out),
        }
    }
}

fn kill<S: Store>(store: &mut S, asked: &mut Asked, out: &mut Answer) {
    write_done(store.kill(asked.number()), out);
}

fn copy<S: Store>(store: &mut S, asked: &mut Asked, out: &mut Answer) {
    let from = place(asked);
    let to = place(asked);
    write_done(store.copy(from, to, asked.number()), out);
}

fn fill<S: Store>(store: &mut S, asked: &mut Asked, out: &mut Answer) {
    let at = place(asked);
    let byte = asked.number();
    write_done(store.fill(at, byte, asked.number()), out);
}

fn put_cell<S: Store>(store: &mut S, asked: &mut Asked, out: &mut Answer) {
    let at = place(asked);
    write_done(store.put_cell(at, cell(asked)), out);
}

fn write_done(outcome: Result<(), Fault>, out: &mut Answer) {
    match outcome {
        Ok(()) => out.text("ok"),
        Err(fault) => out.variant(fault),
    }
}

/// Whether the store may make one more block.
pub(crate) fn has_room<S: Store>(store: &S) -> bool
    ensures { IsTrue result → length (S.memory store.now) < 2 ^ 60 }
{
    store.state(MOST_MADE).is_none()
}

fn block_size(asked: &mut Asked) -> u64
    ensures { IsBlockSize result }
{
    let size = asked.number();
    if size > LARGEST {
        asked.refuse();
        return 0;
    }
    size
}

fn alignment(asked: &mut Asked) -> u64
    ensures { IsAlignment result }
{
    let align = asked.number();
    if !matches!(align, 1 | 2 | 4 | 8 | 16) {
        asked.refuse();
        return 1;
    }
    align
}

fn alloc<S: Store>(store: &mut S, asked: &mut Asked, out: &mut Answer) {
    let size = block_size(asked);
    let align = alignment(asked);
    if !has_room(store) {
        asked.refuse();
        return;
    }
    match store.alloc(size, align) {
        Ok(block) => out.value(block),
        Err(StoreFault::Full { need, left }) => {
            out.text("Full ");
            out.value(need);
            out.text(" ");
            out.value(left);
        }
        Err(StoreFault::Memory) => asked.fail(RowFault::Memory),
    }
}

fn load<S: Store>(store: &S, asked: &mut Asked, out: &mut Answer) {
    match store.load(place(asked), scalar(asked)) {
        Ok(value) => write_value(value, out),
        Err(fault) => out.variant(fault),
    }
}

fn put<S: Store>(store: &mut S, asked: &mut Asked, out: &mut Answer) {
    let at = place(asked);
    let scalar = scalar(asked);
    write_done(store.put(at, scalar, value(asked, scalar)), out);
}

fn write_cell_at<S: Store>(store: &S, at: Ptr, out: &mut Answer) {
    match store.cell(at) {
        Ok(cell) => write_cell(cell, out),
        Err(fault) => out.variant(fault),
    }
}

fn bytes<S: Store>(store: &S, asked: &mut Asked, out: &mut Answer) {
    let block = asked.number();
    let count: u64 = asked.number();
    for offset in 0..count {
        if offset > 0 {
            out.text(" ");
        }
        write_cell_at(store, Ptr { block, offset }, out);
    }
}

fn state<S: Store>(store: &S, asked: &mut Asked, out: &mut Answer) {
    match store.state(asked.number()) {
        None => out.text("none"),
        Some(state) => {
            out.value(state.size);
            out.text(" ");
            out.value(state.align);
            out.text(if state.live { " live" } else { " dead" });
        }
    }
}

/// Where a bit-field begins in its first byte, and how many bits it has.
#[derive(Clone, Copy)]
pub(crate) struct FieldPlace {
    pub(crate) bit: u32,
    pub(crate) width: u32,
}

fn field_place(asked: &mut Asked) -> FieldPlace
    ensures { IsFieldPlace result.bit result.width }
{
    let bit = asked.number();
    let width = asked.number();
    if bit < 8 && 0 < width && width <= 32 {
        FieldPlace { bit, width }
    } else {
        asked.refuse();
        FieldPlace { bit: 0, width: 1 }
    }
}

fn load_bits<S: Store>(store: &S, asked: &mut Asked, out: &mut Answer) {
    let at = place(asked);
    let field = field_place(asked);
    match store.load_bits(at, field.bit, field.width) {
        Ok(number) => out.value(number),
        Err(fault) => out.variant(fault),
    }
}

fn put_bits<S: Store>(store: &mut S, asked: &mut Asked, out: &mut Answer) {
    let at = place(asked);
    let field = field_place(asked);
    let number = asked.number();
    if number >= 1u64 << field.width {
        asked.refuse();
        return;
    }
    write_done(store.put_bits(at, field.bit, field.width, number), out);
}

//! `stream memory MOST FAIL .. | STEP ..`: what each of these steps answers over a sink in memory that takes MOST
//! bytes a call and fails at the calls with these numbers, and last the bytes that it has taken; `stream sure |
//! STEP ..`: the same over one that never fails; `stream create FILE | STEP ..` and `stream open FILE | STEP ..`:
//! over a file of the system that is made, or that is open to read alone. A step is `write TEXT`, which answers
//! how many bytes were taken, or `all TEXT`, which answers `ok`; each may answer `Failed`.

use row_words::{Answer, Asked, Steps, answer_steps, first_step};
use shelf::{MemSink, Sink, StdSink, SureSink, write_all};
use std::alloc::Global;
use std::fs;
use std::io::Write;
use std::rt::Files;

pub(crate) fn answer<R: Files>(rt: &R, alloc: Global, asked: &mut Asked, out: &mut Answer) {
    let begins = first_step(asked);
    let steps = asked.rest();
    asked.begin(begins);
    match asked.word() {
        "memory" => over_memory(alloc, asked, steps, out),
        "sure" => over_sure_memory(alloc, asked, steps, out),
        how => over_file(opened(rt, how, asked.rest()), alloc, asked, steps, out),
    }
}

// A file of the system, or None where it can't be made or opened, or `how` says neither.
fn opened<R: Files>(rt: &R, how: &str, name: &str) -> Option<R::File> {
    match how {
        "create" => fs::create(rt, name).ok(),
        "open" => fs::open(rt, name).ok(),
        _ => None,
    }
}

fn over_memory<'a>(alloc: Global, asked: &mut Asked<'a>, steps: &'a str, out: &mut Answer) {
    let most = asked.number();
    let sink = MemSink::new(asked.numbers(alloc), most);
    let mut taking = Taking { sink };
    asked.begin(steps);
    answer_steps(&mut taking, alloc, asked, out);
    write_taken(taking.sink.written(), out);
}

fn over_sure_memory<'a>(alloc: Global, asked: &mut Asked<'a>, steps: &'a str, out: &mut Answer) {
    let sink = SureSink::new(alloc);
    let mut taking = Taking { sink };
    asked.begin(steps);
    answer_steps(&mut taking, alloc, asked, out);
    write_taken(taking.sink.written(), out);
}

fn over_file<'a, F: Write + Drop>(
    opened: Option<F>,
    alloc: Global,
    asked: &mut Asked<'a>,
    steps: &'a str,
    out: &mut Answer,
) {
    let Some(file) = opened else {
        asked.refuse();
        return;
    };
    let sink = StdSink::new(file);
    asked.begin(steps);
    answer_steps(&mut Taking { sink }, alloc, asked, out);
}

fn write_taken(written: Option<&[u8]>, out: &mut Answer) {
    out.separate();
    match written {
        Some(bytes) => out.quoted(bytes),
        None => out.text("no memory"),
    }
}

// A sink that takes bytes.
#[derive(Drop)]
struct Taking<K> {
    sink: K,
}

impl<K: Sink> Steps for Taking<K> {
    fn step(&mut self, alloc: Global, asked: &mut Asked<'_>, out: &mut Answer) {
        out.separate();
        match asked.word() {
            "write" => write(&mut self.sink, asked.bytes(alloc).as_slice(), out),
            "all" => write_whole(&mut self.sink, asked.bytes(alloc).as_slice(), out),
            _ => asked.refuse(),
        }
    }
}

fn write<K: Sink>(sink: &mut K, piece: &[u8], out: &mut Answer) {
    match sink.write(piece) {
        Ok(count) => out.value(count),
        Err(failed) => out.variant(failed),
    }
}

fn write_whole<K: Sink>(sink: &mut K, piece: &[u8], out: &mut Answer) {
    match write_all(sink, piece) {
        Ok(()) => out.text("ok"),
        Err(failed) => out.variant(failed),
    }
}

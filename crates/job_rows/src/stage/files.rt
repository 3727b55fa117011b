//! `files STEP | STEP ..`: what each of these steps over a shelf in memory answers, in their order; `sure STEP ..`
//! and `disk STEP ..`: the same over a shelf in memory that never fails, and over the files of the system.
//!
//! | step | answer |
//! |---|---|
//! | `hold FILE TEXT` | none: the shelf begins with this file, the first of a name counting; one of the system doesn't |
//! | `hold_many FILE COUNT A$rB$rC` | none: the same with a file of the text A, so many times the text B, and the text C |
//! | `fail NUMBER` | none: the call with this number on a shelf of `files` fails, counted from 0 |
//! | `lack CALL` | none: each `get`, or each `put`, on a shelf of `files` finds no memory |
//! | `get FILE LIMIT` | the bytes of the file, if they are at most LIMIT, or `too large` |
//! | `put FILE TEXT` | `ok` |
//! | `host HOST` | none: the host of the runs behind it, as `row_host.rt` says; before, each call is answered by 0 |
//! | `run MOST WORD ..` | the exit status of the job of these words, its report, and what it wrote to standard output, over streams that take MOST bytes a call; then the calls that it made at the host, each with its answer, or how many where they are more than ten; a word `""` is empty |
//!
//! Each call on the shelf may answer a fault in the place of that, by its name.

use crate::stage::lacking::{Lacking, Lacks};
use crate::stage::row_host::RowHost;
use cr_base::{Items, Text};
use ext_calls::{Host, SureHost};
use front::run;
use row_words::{Answer, Asked, Steps, answer_steps};
use shelf::{DiskShelf, File, Got, MemShelf, MemSink, Shelf, SureShelf};
use std::alloc::Global;
use std::rt::Files;

pub(crate) fn answer(alloc: Global, asked: &mut Asked, out: &mut Answer) {
    let steps = asked.rest();
    let Held {
        files,
        fails,
        lacks,
    } = read_held(alloc, asked);
    asked.begin(steps);
    let shelf = Lacking {
        shelf: MemShelf::new(files, fails),
        lacks,
    };
    let host = RowHost::zeros(alloc);
    answer_steps(&mut Stored { shelf, host }, alloc, asked, out);
}

pub(crate) fn answer_surely(alloc: Global, asked: &mut Asked, out: &mut Answer) {
    let steps = asked.rest();
    let shelf = SureShelf::new(read_held(alloc, asked).files);
    asked.begin(steps);
    let host = RowHost::zeros(alloc);
    answer_steps(&mut Stored { shelf, host }, alloc, asked, out);
}

pub(crate) fn answer_on_disk<R: Files>(rt: &R, alloc: Global, asked: &mut Asked, out: &mut Answer) {
    let shelf = DiskShelf::new(alloc, rt);
    let host = RowHost::zeros(alloc);
    answer_steps(&mut Stored { shelf, host }, alloc, asked, out);
}

// With what a shelf begins.
#[derive(Drop)]
struct Held {
    files: Vec<File>,
    fails: Vec<u64>,
    lacks: Lacks,
}

fn read_held(alloc: Global, asked: &mut Asked) -> Held {
    let mut held = Held {
        files: Vec::new(alloc),
        fails: Vec::new(alloc),
        lacks: Lacks {
            get: false,
            put: false,
        },
    };
    for step in asked.rest().split(" | ") {
        asked.begin(step);
        match asked.word() {
            "hold" => hold(alloc, asked, &mut held.files),
            "hold_many" => hold_many(alloc, asked, &mut held.files),
            "fail" => fail(asked, &mut held.fails),
            "lack" => lack(asked, &mut held.lacks),
            _ => {}
        }
    }
    held
}

/// Adds the file of a name and a text.
pub(crate) fn hold(alloc: Global, asked: &mut Asked, files: &mut Vec<File>) {
    let name = asked.word();
    let file = File {
        name: Text::of(asked.string(alloc, name)),
        bytes: Items::of(asked.bytes(alloc)),
    };
    asked.had(files.push(file));
}

// Adds the file of a name and of a text that stands so many times between two others.
fn hold_many(alloc: Global, asked: &mut Asked, files: &mut Vec<File>) {
    let name = asked.word();
    let count: u32 = asked.number();
    let text = asked.rest();
    let parts = asked.found(text.split_once("$r"), ("", ""));
    let behind = asked.found(parts.1.split_once("$r"), ("", ""));
    let mut bytes = text_of(alloc, asked, parts.0);
    let repeated = text_of(alloc, asked, behind.0);
    for _ in 0..count {
        asked.had(bytes.extend_from_slice(repeated.as_slice()));
    }
    let last = text_of(alloc, asked, behind.1);
    asked.had(bytes.extend_from_slice(last.as_slice()));
    let file = File {
        name: Text::of(asked.string(alloc, name)),
        bytes: Items::of(bytes),
    };
    asked.had(files.push(file));
}

fn text_of<'a>(alloc: Global, asked: &mut Asked<'a>, text: &'a str) -> Vec<u8> {
    asked.begin(text);
    asked.bytes(alloc)
}

fn lack(asked: &mut Asked, lacks: &mut Lacks) {
    match asked.word() {
        "get" => lacks.get = true,
        "put" => lacks.put = true,
        _ => asked.refuse(),
    }
}

fn fail(asked: &mut Asked, fails: &mut Vec<u64>) {
    let number = asked.number();
    asked.had(fails.push(number));
}

// Files that are held by a shelf.
#[derive(Drop)]
struct Stored<S> {
    shelf: S,
    host: RowHost,
}

#[derive(Clone, Copy)]
enum Step {
    // What `read_held` reads.
    Begin,
    Get,
    Put,
    Host,
    Run,
}

const STEPS: [(&str, Step); 8] = [
    ("hold", Step::Begin),
    ("hold_many", Step::Begin),
    ("fail", Step::Begin),
    ("lack", Step::Begin),
    ("get", Step::Get),
    ("put", Step::Put),
    ("host", Step::Host),
    ("run", Step::Run),
];

impl<S: Shelf> Steps for Stored<S> {
    fn step(&mut self, alloc: Global, asked: &mut Asked<'_>, out: &mut Answer) {
        match asked.named(&STEPS) {
            Some(Step::Begin) => asked.begin(""),
            Some(Step::Get) => get(&mut self.shelf, asked, out),
            Some(Step::Put) => put(alloc, &mut self.shelf, asked, out),
            Some(Step::Host) => self.host = RowHost::asked(alloc, asked),
            Some(Step::Run) => run_words(alloc, &mut self.shelf, &mut self.host, asked, out),
            None => {}
        }
    }
}

fn get<S: Shelf>(shelf: &mut S, asked: &mut Asked, out: &mut Answer) {
    let name = asked.word();
    out.separate();
    match shelf.get(name, asked.number()) {
        Ok(Got::Bytes(bytes)) => out.quoted(bytes.as_slice()),
        Ok(Got::TooLarge) => out.text("too large"),
        Err(fault) => out.variant(fault),
    }
}

fn put<S: Shelf>(alloc: Global, shelf: &mut S, asked: &mut Asked, out: &mut Answer) {
    let name = asked.word();
    let bytes = asked.bytes(alloc);
    out.separate();
    match shelf.put(name, bytes.as_slice()) {
        Ok(()) => out.text("ok"),
        Err(fault) => out.variant(fault),
    }
}

fn run_words<S: Shelf>(
    alloc: Global,
    shelf: &mut S,
    host: &mut RowHost,
    asked: &mut Asked,
    out: &mut Answer,
) {
    let most = asked.number();
    let job = words(alloc, asked);
    let before = host.count();
    out.separate();
    run_hosted(alloc, job.as_slice(), shelf, host, most, out);
    host.write_made(before, out);
}

/// The words that are left.
pub(crate) fn words(alloc: Global, asked: &mut Asked) -> Vec<String> {
    let mut words = Vec::new(alloc);
    for word in asked.rest().split_ascii_whitespace() {
        let word = asked.string(alloc, if word == "\"\"" { "" } else { word });
        asked.had(words.push(word));
    }
    asked.begin("");
    words
}

/// Does a job over a shelf, and writes its exit status, its report and what it wrote to standard output, over
/// streams that take `most` bytes a call.
pub(crate) fn run_job<S: Shelf>(
    alloc: Global,
    words: &[String],
    shelf: &mut S,
    most: usize,
    out: &mut Answer,
) {
    let mut host = SureHost::new(Vec::new(alloc));
    run_hosted(alloc, words, shelf, &mut host, most, out);
}

// The same with the answers of a host.
fn run_hosted<S: Shelf, H: Host>(
    alloc: Global,
    words: &[String],
    shelf: &mut S,
    host: &mut H,
    most: usize,
    out: &mut Answer,
) {
    let mut output = MemSink::new(Vec::new(alloc), most);
    let mut report = MemSink::new(Vec::new(alloc), most);
    let status = run(alloc, words, shelf, &mut output, &mut report, host);
    out.value(status);
    write_taken(" ", report.written(), out);
    write_taken(" and to standard output ", output.written(), out);
}

// Writes the bytes that a sink has taken behind a text, where it has taken any.
fn write_taken(before: &str, written: Option<&[u8]>, out: &mut Answer) {
    match written {
        Some([]) => {}
        Some(bytes) => {
            out.text(before);
            out.quoted(bytes);
        }
        None => out.text(" and no memory"),
    }
}

//! `transpile FILE TEXT`: the job `transpile -o out FILE` over a shelf that holds this file alone: its exit
//! status, its report, and the files of the crate that are there then, each as `NAME "TEXT"`. Where the file
//! itself isn't as it was, that is said.

use crate::stage::files::{hold, run_job, words};
use row_words::{Answer, Asked};
use shelf::{Got, MemShelf, Shelf};
use std::alloc::Global;
use straight_items::stem_of;

// More bytes than a file of a crate of these rows has.
const LARGE: usize = 1_048_576;

pub(crate) fn answer(alloc: Global, asked: &mut Asked, out: &mut Answer) {
    let unit = asked.rest();
    let mut shelf = shelf_with(alloc, asked);
    asked.begin(unit);
    translate(alloc, asked.word(), &mut shelf, asked, out);
    asked.begin(unit);
    if !is_held(alloc, &mut shelf, asked) {
        out.text(" and another text of the unit");
    }
}

// The shelf that holds the file that is asked.
fn shelf_with(alloc: Global, asked: &mut Asked) -> MemShelf {
    let mut files = Vec::new(alloc);
    hold(alloc, asked, &mut files);
    MemShelf::new(files, Vec::new(alloc))
}

// Whether a shelf holds the file that is asked.
fn is_held(alloc: Global, shelf: &mut MemShelf, asked: &mut Asked) -> bool {
    let name = asked.word();
    let text = asked.bytes(alloc);
    match shelf.get(name, LARGE) {
        Ok(Got::Bytes(bytes)) => bytes.as_slice() == text.as_slice(),
        _ => false,
    }
}

// Does the job, and writes what it leaves.
fn translate(alloc: Global, name: &str, shelf: &mut MemShelf, asked: &mut Asked, out: &mut Answer) {
    let job = job(alloc, name, asked);
    run_job(alloc, job.as_slice(), shelf, LARGE, out);
    let stem = stem_of(name);
    if let Some(module) = asked.had(format!(in alloc; "out/src/{stem}.rs")) {
        write_file(shelf, module.as_str(), out);
    }
    write_file(shelf, "out/src/main.rs", out);
    write_file(shelf, "out/Cargo.toml", out);
}

fn job(alloc: Global, name: &str, asked: &mut Asked) -> Vec<String> {
    asked.begin("transpile -o out");
    let mut job = words(alloc, asked);
    let name = asked.string(alloc, name);
    asked.had(job.push(name));
    job
}

/// Writes a file, where the shelf holds it.
pub(crate) fn write_file<S: Shelf>(shelf: &mut S, name: &str, out: &mut Answer) {
    if let Ok(Got::Bytes(bytes)) = shelf.get(name, LARGE) {
        out.text(" ");
        out.text(name);
        out.text(" ");
        out.quoted(bytes.as_slice());
    }
}

//! `units TEXT`: the exit status and the report of the job `transpile -o out a.c b.c ..` over a shelf that holds the units of this
//! text alone, `a.c`, `b.c` and so on. Between two units stands `$u`.

use crate::stage::files::{run_job, words};
use cr_base::{Items, Text};
use row_words::{Answer, Asked};
use shelf::{File, MemShelf};
use std::alloc::Global;

// More bytes than a report of these rows has.
const LARGE: usize = 1000;

// The names of the units; no row has more.
const NAMES: [&str; 4] = ["a.c", "b.c", "c.c", "d.c"];

pub(crate) fn answer(alloc: Global, asked: &mut Asked, out: &mut Answer) {
    let texts = asked.rest();
    asked.begin("transpile -o out");
    let mut job = words(alloc, asked);
    let mut files = Vec::new(alloc);
    for (number, text) in texts.split("$u").enumerate() {
        let name = asked.found(NAMES.get(number).copied(), "");
        asked.begin(text);
        hold(alloc, name, asked, &mut files);
        let word = asked.string(alloc, name);
        asked.had(job.push(word));
    }
    let mut shelf = MemShelf::new(files, Vec::new(alloc));
    run_job(alloc, job.as_slice(), &mut shelf, LARGE, out);
}

// Adds the file of this name, whose text is what is left.
fn hold(alloc: Global, name: &str, asked: &mut Asked, files: &mut Vec<File>) {
    let file = File {
        name: Text::of(asked.string(alloc, name)),
        bytes: Items::of(asked.bytes(alloc)),
    };
    asked.had(files.push(file));
}

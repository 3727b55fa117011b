//! `job WORD ..`: the job that these words ask for: `no job`, `transpile "DIR" "FILE" ..`, `run-c STEPS ORDER "FILE"
//! ..` or `run-rust STEPS "DIR"`.
//!
//! A word `""` is empty. `A{COUNT}B` is the word in which A stands so many times, and B behind it; `A[COUNT]` is so
//! many words A. ORDER is its numbers in brackets, or how many they are where there are more than ten.

use jobs::{Files, Job, read_job};
use row_words::{Answer, Asked, RowFault};
use std::alloc::Global;

// More times than a part of these rows stands.
const MOST_TIMES: u32 = 100_000;

// The most numbers of an order that are written one by one.
const MOST_WRITTEN: usize = 10;

pub(crate) fn answer(alloc: Global, asked: &mut Asked, out: &mut Answer) {
    let words = words(alloc, asked);
    match read_job(alloc, words.as_slice()) {
        Ok(Some(job)) => write_job(&job, out),
        Ok(None) => out.text("no job"),
        Err(_) => asked.fail(RowFault::Memory),
    }
}

fn write_job(job: &Job, out: &mut Answer) {
    match job {
        Job::Transpile { directory, files } => {
            out.text("transpile ");
            out.quoted(directory.as_bytes());
            write_files(files, out);
        }
        Job::RunC {
            steps,
            order,
            files,
        } => {
            out.text("run-c ");
            out.value(*steps);
            write_order(order.as_slice(), out);
            write_files(files, out);
        }
        Job::RunRust { steps, directory } => {
            out.text("run-rust ");
            out.value(*steps);
            out.text(" ");
            out.quoted(directory.as_bytes());
        }
    }
}

fn write_files(files: &Files, out: &mut Answer) {
    out.text(" ");
    out.quoted(files.first.as_bytes());
    for file in files.others.as_slice() {
        out.text(" ");
        out.quoted(file.as_bytes());
    }
}

fn write_order(order: &[u32], out: &mut Answer) {
    if MOST_WRITTEN < order.len() {
        out.text(" ");
        out.value(order.len());
        out.text(" numbers");
    } else {
        write_numbers(order, out);
    }
}

fn write_numbers(numbers: &[u32], out: &mut Answer) {
    out.text(" [");
    for (place, number) in numbers.iter().enumerate() {
        if 0 < place {
            out.text(" ");
        }
        out.value(*number);
    }
    out.text("]");
}

// The words that are asked.
fn words(alloc: Global, asked: &mut Asked) -> Vec<String> {
    let mut words = Vec::new(alloc);
    for part in asked.rest().split_ascii_whitespace() {
        let (word, times) = counted(asked, part);
        push_words(alloc, asked, word, times, &mut words);
    }
    asked.begin("");
    words
}

// A part without a count in brackets at its end, and that count.
fn counted<'a>(asked: &mut Asked, part: &'a str) -> (&'a str, u32) {
    let Some(open) = part.strip_suffix(']') else {
        return (part, 1);
    };
    let Some((word, count)) = open.rsplit_once('[') else {
        return (part, 1);
    };
    (word, times(asked, count))
}

fn times(asked: &mut Asked, count: &str) -> u32 {
    let count = asked.found(count.parse().ok(), 0);
    if MOST_TIMES < count {
        asked.refuse();
        return 0;
    }
    count
}

fn push_words(alloc: Global, asked: &mut Asked, part: &str, times: u32, words: &mut Vec<String>) {
    for _ in 0..times {
        let word = spelled(alloc, asked, part);
        asked.had(words.push(word));
    }
}

// The word that a part spells.
fn spelled(alloc: Global, asked: &mut Asked, part: &str) -> String {
    if part == "\"\"" {
        return String::new(alloc);
    }
    let Some((repeated, rest)) = part.split_once('{') else {
        return asked.string(alloc, part);
    };
    let Some((count, tail)) = rest.split_once('}') else {
        return asked.string(alloc, part);
    };
    let mut word = String::new(alloc);
    for _ in 0..times(asked, count) {
        asked.had(word.push_str(repeated));
    }
    asked.had(word.push_str(tail));
    word
}

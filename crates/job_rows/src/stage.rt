//! The stages that rows are asked of, a module each.

mod ending;
mod files;
mod job;
mod lacking;
mod row_host;
mod stream;
mod surely;
mod transpile;
mod units;

use row_words::{Answer, Answers, Asked, RowFault, under_name};
use std::alloc::Global;
use std::rt::Files as System;

/// What a row is asked of.
#[derive(Clone, Copy)]
enum Stage {
    /// The rules by which steps of C are undefined.
    Undefined,
    /// The causes by which steps of a crate are wrong.
    Wrong,
    /// The job of words.
    Job,
    /// Calls of a shelf, and whole jobs over it.
    Files,
    /// The same over a shelf that never fails.
    Sure,
    /// The translation of a unit over objects that never fail.
    Surely,
    /// The translation of a unit.
    Transpile,
    /// What a job answers to several units.
    Units,
    /// Writes to a sink.
    Stream,
    /// Calls of a shelf over the files of the system, and whole jobs over it.
    Disk,
}

const STAGES: [(&str, Stage); 10] = [
    ("undefined", Stage::Undefined),
    ("wrong", Stage::Wrong),
    ("job", Stage::Job),
    ("files", Stage::Files),
    ("sure", Stage::Sure),
    ("surely", Stage::Surely),
    ("transpile", Stage::Transpile),
    ("units", Stage::Units),
    ("stream", Stage::Stream),
    ("disk", Stage::Disk),
];

/// All stages, over the files and streams of the system.
#[derive(Clone, Copy)]
pub struct Stages<'a, R> {
    pub rt: &'a R,
}

impl<'a, R: System> Answers for Stages<'a, R> {
    fn answer(&self, alloc: Global, stage: &str, asked: &mut Asked<'_>, out: &mut Answer) {
        match under_name(&STAGES, stage) {
            Some(stage) => stage.answer(self.rt, alloc, asked, out),
            None => asked.fail(RowFault::NoStage),
        }
    }
}

impl Stage {
    fn answer<R: System>(self, rt: &R, alloc: Global, asked: &mut Asked, out: &mut Answer) {
        match self {
            Stage::Undefined => ending::answer_undefined(asked, out),
            Stage::Wrong => ending::answer_wrong(asked, out),
            Stage::Job => job::answer(alloc, asked, out),
            Stage::Files => files::answer(alloc, asked, out),
            Stage::Sure => files::answer_surely(alloc, asked, out),
            Stage::Surely => surely::answer(alloc, asked, out),
            Stage::Transpile => transpile::answer(alloc, asked, out),
            Stage::Units => units::answer(alloc, asked, out),
            Stage::Stream => stream::answer(rt, alloc, asked, out),
            Stage::Disk => files::answer_on_disk(rt, alloc, asked, out),
        }
    }
}

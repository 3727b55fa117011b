//! The stages that rows are asked of, a module each.

mod bytes;
mod host;
mod memory;
mod pace;
mod turns;

use row_words::{Answer, Answers, Asked, RowFault, under_name};
use std::alloc::Global;

/// What a row is asked of.
#[derive(Clone, Copy)]
enum Stage {
    /// Values as the cells that they have in memory.
    Bytes,
    /// Calls of a store.
    Memory,
    /// Calls of a store in a region.
    Region,
    /// Random calls of a store in a region, and of one without limit.
    Turns,
    /// Rounds of calls of a store, to be timed.
    Pace,
    /// Calls of a host.
    Host,
}

const STAGES: [(&str, Stage); 6] = [
    ("bytes", Stage::Bytes),
    ("memory", Stage::Memory),
    ("region", Stage::Region),
    ("turns", Stage::Turns),
    ("pace", Stage::Pace),
    ("host", Stage::Host),
];

/// All stages.
#[derive(Clone, Copy)]
pub struct Stages;

impl Answers for Stages {
    fn answer(&self, alloc: Global, stage: &str, asked: &mut Asked<'_>, out: &mut Answer) {
        match under_name(&STAGES, stage) {
            Some(stage) => stage.answer(alloc, asked, out),
            None => asked.fail(RowFault::NoStage),
        }
    }
}

impl Stage {
    fn answer(self, alloc: Global, asked: &mut Asked, out: &mut Answer) {
        match self {
            Stage::Bytes => bytes::answer(alloc, asked, out),
            Stage::Memory => memory::answer(alloc, asked, out),
            Stage::Region => memory::answer_in_region(alloc, asked, out),
            Stage::Turns => turns::answer(alloc, asked, out),
            Stage::Pace => pace::answer(alloc, asked, out),
            Stage::Host => host::answer(alloc, asked, out),
        }
    }
}

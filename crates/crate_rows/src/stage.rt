//! The stages that rows are asked of, a module each.

mod crates;
mod name;
mod run;

use row_words::{Answer, Answers, Asked, RowFault, under_name};
use std::alloc::Global;

/// What a row is asked of.
#[derive(Clone, Copy)]
enum Stage {
    /// Names of a written crate.
    Name,
    /// The crate that files read as.
    Crate,
    /// The crate of one module.
    Module,
    /// The modules that `main.rs` names.
    Modules,
    /// Whether a crate is well typed.
    Check,
    /// Whether the crate of one module is.
    Typed,
    /// A run of the crate of one module.
    Run,
}

const STAGES: [(&str, Stage); 7] = [
    ("name", Stage::Name),
    ("crate", Stage::Crate),
    ("module", Stage::Module),
    ("modules", Stage::Modules),
    ("check", Stage::Check),
    ("typed", Stage::Typed),
    ("run", Stage::Run),
];

/// All stages.
#[derive(Clone, Copy)]
pub struct Stages;

impl Answers for Stages {
    fn answer(&self, alloc: Global, stage: &str, asked: &mut Asked<'_>, out: &mut Answer) {
        match under_name(&STAGES, stage) {
            Some(stage) => stage.answer(alloc, asked, out),
            None => asked.fail(RowFault::NoStage),
        }
    }
}

impl Stage {
    fn answer(self, alloc: Global, asked: &mut Asked, out: &mut Answer) {
        match self {
            Stage::Name => name::answer(alloc, asked, out),
            Stage::Crate => crates::answer(alloc, asked, out),
            Stage::Module => crates::answer_module(alloc, asked, out),
            Stage::Modules => crates::answer_modules(alloc, asked, out),
            Stage::Check => crates::answer_check(alloc, asked, out),
            Stage::Typed => crates::answer_typed(alloc, asked, out),
            Stage::Run => run::answer(alloc, asked, out),
        }
    }
}

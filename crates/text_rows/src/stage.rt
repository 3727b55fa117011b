//! The stages that rows are asked of, a module each.

mod copy;
mod layout;
mod lex;
mod parse;
mod rule;
mod shape;
mod value;

use row_words::{Answer, Answers, Asked, RowFault, under_name};
use std::alloc::Global;

/// What a row is asked of.
#[derive(Clone, Copy)]
enum Stage {
    /// The rules of the profile.
    Rule,
    /// Numbers of the C types.
    Value,
    /// Copies of names, texts and lists.
    Copy,
    /// Records with their sizes and places.
    Layout,
    /// The tokens of a unit.
    Lex,
    /// The syntax tree of a unit.
    Parse,
    /// The tokens of that tree.
    Tokens,
    /// How deep that tree is.
    Depth,
    /// The size of the tree of a unit that repeats itself.
    Repeat,
    /// Shapes of control flow graphs.
    Shape,
}

const STAGES: [(&str, Stage); 10] = [
    ("rule", Stage::Rule),
    ("value", Stage::Value),
    ("copy", Stage::Copy),
    ("layout", Stage::Layout),
    ("lex", Stage::Lex),
    ("parse", Stage::Parse),
    ("tokens", Stage::Tokens),
    ("depth", Stage::Depth),
    ("repeat", Stage::Repeat),
    ("shape", Stage::Shape),
];

/// All stages.
#[derive(Clone, Copy)]
pub struct Stages;

impl Answers for Stages {
    fn answer(&self, alloc: Global, stage: &str, asked: &mut Asked<'_>, out: &mut Answer) {
        match under_name(&STAGES, stage) {
            Some(stage) => stage.answer(alloc, asked, out),
            None => asked.fail(RowFault::NoStage),
        }
    }
}

impl Stage {
    fn answer(self, alloc: Global, asked: &mut Asked, out: &mut Answer) {
        match self {
            Stage::Rule => rule::answer(asked, out),
            Stage::Value => value::answer(asked, out),
            Stage::Copy => copy::answer(alloc, asked, out),
            Stage::Layout => layout::answer(alloc, asked, out),
            Stage::Lex => lex::answer(alloc, asked, out),
            Stage::Parse => parse::answer(alloc, asked, out),
            Stage::Tokens => parse::answer_tokens(alloc, asked, out),
            Stage::Depth => parse::answer_depth(alloc, asked, out),
            Stage::Repeat => parse::answer_repeated(alloc, asked, out),
            Stage::Shape => shape::answer(alloc, asked, out),
        }
    }
}

ghost use Rattle.std.specs.Prelude.{◌≡◌, IfOk};
ghost use Rattle.straight_rust_tree.specs.Lines.{line};

use crate::draft::Draft;
use cr_base::{Items, Memory, Name};
use shelf::File;
use std::alloc::Global;

/// The files of a written crate, in the order in which they are put.
#[derive(Debug, Drop)]
pub struct Files {
    pub list: Items<File>,
}

/// A printed line.
#[derive(Debug, Drop)]
pub struct Line {
    /// How many braces are open where the line begins, one that it closes first not counted.
    pub depth: u32,
    /// The text of the line, without indentation and without newline.
    pub text: Name,
}

impl Line {
    // The line of a text that is written.
    pub(crate) fn of(depth: u32, draft: Draft) -> Line
        ensures { result ≡ line depth draft }
    {
        Line {
            depth,
            text: draft.finish(),
        }
    }

    // The line of a fixed text. Refused only for want of memory.
    pub(crate) fn fixed(alloc: Global, depth: u32, text: &str) -> Result<Line, Memory>
        ensures { IfOk result (λ made. made ≡ line depth text.now) }
    {
        let mut draft = Draft::new(alloc);
        draft.text(text)?;
        Ok(Line::of(depth, draft))
    }
}

//! Printed lines that grow in number until memory runs out.
#![tactic(auto, using(crate::proofs::Growing::growing_lines))]

ghost use Rattle.std.specs.Prelude.{◌≡◌, [], ◌∷◌, ◌++◌, Some, None, IfOk};
ghost use Rattle.rs_text.specs.Lines.{line};
ghost use Rattle.rs_text.specs.Printing.{Appends, AddsLine};

use crate::draft::Draft;
use cr_base::{Items, Memory, Name};
use rs_text::Line;
use std::alloc::Global;
use std::marker::Model;

/// The lines printed so far. From where memory ran out on nothing is printed any more, and there are no
/// lines.
#[derive(Drop)]
pub(crate) struct Page {
    alloc: Global,
    list: Items<Line>,
    is_full: bool,
}

impl Model for Page {
    ghost use Rattle.std.specs.Prelude.{List, Option, Some, None, if◌then◌else◌};
    ghost use Rattle.rs_text.specs.declared.line.Line.{Line};

    ghost Value = { Option (List Line) };

    ghost view = { λ page. if page.is_full then None else Some page.list };
}

impl Page {
    pub(crate) fn new(alloc: Global) -> Page
        ensures { result ≡ Some [] }
    {
        Page {
            alloc,
            list: Items::new(alloc),
            is_full: false,
        }
    }

    /// The lines. Refused only for want of memory.
    pub(crate) fn finish(self) -> Result<Items<Line>, Memory>
        ensures { IfOk result (λ lines. self ≡ Some lines) }
    {
        if self.is_full {
            return Err(Memory);
        }
        Ok(self.list)
    }

    /// The beginning of a line's text.
    pub(crate) fn draft(&self) -> Draft
        ensures { result ≡ Some [] }
    {
        Draft::new(self.alloc)
    }

    /// Gives up, as where memory runs out.
    pub(crate) fn stop(&mut self)
        ensures { self.new ≡ None }
    {
        self.is_full = true;
    }

    // Prints the line of a text.
    fn name(&mut self, depth: u32, text: Name)
        ensures { Appends self.old self.new (line depth text ∷ []) }
    {
        if self.is_full {
            return;
        }
        if self.list.push(Line { depth, text }).is_err() {
            self.is_full = true;
        }
    }

    /// Prints the line of a text that is written.
    pub(crate) fn line(&mut self, depth: u32, draft: Draft)
        ensures { AddsLine self.old self.new depth draft }
    {
        match draft.finish() {
            Some(text) => self.name(depth, text),
            None => self.stop(),
        }
    }

    /// Prints the line of a fixed text.
    pub(crate) fn fixed(&mut self, depth: u32, text: &str)
        ensures { Appends self.old self.new (line depth text.now ∷ []) }
    {
        let mut draft = self.draft();
        draft.text(text);
        self.line(depth, draft);
    }

    /// Prints the line of a name between two fixed texts.
    pub(crate) fn around(&mut self, depth: u32, before: &str, name: &Name, after: &str)
        ensures { Appends self.old self.new (line depth (before.now ++ (name.now ++ after.now)) ∷ []) }
    {
        let mut draft = self.draft();
        draft.text(before);
        draft.name(name);
        draft.text(after);
        self.line(depth, draft);
    }
}

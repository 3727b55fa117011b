//! A text that grows until memory runs out.
#![tactic(auto, using(crate::proofs::Growing::growing))]

ghost use Rattle.std.specs.Prelude.{◌≡◌, [], Some};
ghost use Rattle.std.specs.Fmt.{signed_decimal};
ghost use Rattle.rs_text.specs.Printing.{Appends};

use cr_base::{Int, Name};
use itoa::Buffer;
use std::alloc::Global;
use std::marker::Model;

/// The text of a line as far as it is written. From where memory ran out on nothing is written any
/// more, and there is no text.
#[derive(Drop)]
pub(crate) struct Draft {
    bytes: Vec<u8>,
    is_full: bool,
}

impl Model for Draft {
    ghost use Rattle.std.specs.Prelude.{List, ℕ, Option, Some, None, if◌then◌else◌};

    ghost Value = { Option (List ℕ) };

    ghost view = { λ draft. if draft.is_full then None else Some draft.bytes.items };
}

impl Draft {
    pub(crate) fn new(alloc: Global) -> Draft
        ensures { result ≡ Some [] }
    {
        Draft {
            bytes: Vec::new(alloc),
            is_full: false,
        }
    }

    // Writes bytes behind what is written.
    fn bytes(&mut self, bytes: &[u8])
        ensures { Appends self.old self.new bytes.now }
    {
        if self.is_full {
            return;
        }
        if self.bytes.extend_from_slice(bytes).is_err() {
            self.is_full = true;
        }
    }

    pub(crate) fn text(&mut self, text: &str)
        ensures { Appends self.old self.new text.now }
    {
        self.bytes(text.as_bytes());
    }

    pub(crate) fn name(&mut self, name: &Name)
        ensures { Appends self.old self.new name.now }
    {
        self.bytes(name.bytes());
    }

    /// Writes a number in decimal, a negative one with its sign.
    pub(crate) fn number(&mut self, number: Int)
        ensures { Appends self.old self.new (signed_decimal number) }
    {
        let mut buffer = Buffer::new();
        self.text(buffer.format(number));
    }

    /// The text, or None where memory ran out.
    pub(crate) fn finish(self) -> Option<Name>
        ensures { result ≡ self }
    {
        let Draft { bytes, is_full } = self;
        if is_full {
            return None;
        }
        Some(Name::of(bytes))
    }
}

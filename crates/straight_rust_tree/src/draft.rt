ghost use Rattle.std.specs.Prelude.{◌≡◌, [], ◌++◌, OnOk};
ghost use Rattle.std.specs.Fmt.{signed_decimal};

use cr_base::{Int, Memory, Name};
use itoa::Buffer;
use std::alloc::Global;
use std::marker::Model;

/// A text that is being written. Contracts see it as its bytes.
#[derive(Drop)]
pub(crate) struct Draft {
    bytes: Vec<u8>,
}

impl Model for Draft {
    ghost use Rattle.std.specs.Prelude.{List, ℕ};

    ghost Value = { List ℕ };

    ghost view = { λ draft. draft.bytes.items };
}

impl Draft {
    pub(crate) fn new(alloc: Global) -> Draft
        ensures { result ≡ [] }
    {
        Draft {
            bytes: Vec::new(alloc),
        }
    }

    /// Writes a text behind what is written. Refused only for want of memory.
    pub(crate) fn text(&mut self, text: &str) -> Result<(), Memory>
        ensures { OnOk result (self.new ≡ self.old ++ text.now) }
    {
        self.bytes.extend_from_slice(text.as_bytes())?;
        Ok(())
    }

    pub(crate) fn name(&mut self, name: &Name) -> Result<(), Memory>
        ensures { OnOk result (self.new ≡ self.old ++ name.now) }
    {
        self.bytes.extend_from_slice(name.bytes())?;
        Ok(())
    }

    /// Writes a number in decimal, a negative one with its sign.
    pub(crate) fn number(&mut self, number: Int) -> Result<(), Memory>
        ensures { OnOk result (self.new ≡ self.old ++ signed_decimal number) }
    {
        let mut buffer = Buffer::new();
        self.text(buffer.format(number))
    }

    pub(crate) fn finish(self) -> Name
        ensures { result ≡ self }
    {
        let Draft { bytes } = self;
        Name::of(bytes)
    }
}

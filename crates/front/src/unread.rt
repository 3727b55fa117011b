use cr_base::{Memory, Text};

/// Why not all files of a crate were got.
#[derive(Drop)]
pub(crate) enum Unread {
    /// The file of this name couldn't be read, or has more bytes than a file of a crate may have.
    NotRead(Text),
    /// `main.rs`, which has this name, isn't of its form: what can't stand there is at this line.
    NotMain { name: Text, line: u32 },
    /// Want of memory.
    Memory,
}

impl From<Memory> for Unread {
    ghost use Rattle.std.specs.Prelude.{◌≡◌};
    ghost use Rattle.front.specs.declared.unread.Unread.TheVariants.{Memory};

    ghost from_gives = { λ _ why. why ≡ Memory };

    fn from(_memory: Memory) -> Self {
        Unread::Memory
    }
}

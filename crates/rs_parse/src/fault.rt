//! Why files are read as nothing.

use cr_base::Memory;

/// Why files give no crate, or a text nothing that is read from it.
#[derive(Drop)]
pub enum ReadFault {
    /// They are those of no crate of the subset, or the text is that of no module or `main.rs`: what
    /// can't stand there is in this file, whose number counts from 0 in the list of files and is 0 for a
    /// text by itself, and on this line, counted from 1. The line stays at its type's end.
    NotRust { file: u32, line: u32 },
    /// Memory ran out.
    Memory,
}

impl From<Memory> for ReadFault {
    ghost use Rattle.std.specs.Prelude.{◌≡◌};
    ghost use Rattle.rs_parse.specs.declared.fault.ReadFault.TheVariants.{Memory};

    ghost from_gives = { λ _ fault. fault ≡ Memory };

    fn from(_memory: Memory) -> ReadFault {
        ReadFault::Memory
    }
}

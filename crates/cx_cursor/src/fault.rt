ghost use Rattle.std.specs.Prelude.{◌≡◌};
ghost use Rattle.cx_cursor.specs.declared.fault.Fault.TheVariants.{Memory as WantOfMemory};

use cr_base::Memory;

/// Why nothing is read.
#[derive(Clone, Copy)]
pub enum Fault {
    /// The tokens derive no tree; with the line of the first token that can't stand where it does, or that
    /// of the end.
    NoTree(u32),
    /// Want of memory.
    Memory,
}

impl From<Memory> for Fault {
    ghost from_gives = { λ _ fault. fault ≡ WantOfMemory };

    fn from(_memory: Memory) -> Fault {
        Fault::Memory
    }
}

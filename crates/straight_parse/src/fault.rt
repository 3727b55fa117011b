ghost use Rattle.std.specs.Prelude.{◌≡◌};
ghost use Rattle.straight_parse.specs.declared.fault.Fault.TheVariants.{Memory as WantOfMemory};

use cr_base::Memory;

/// Why no tree is read.
#[derive(Clone, Copy, Debug)]
pub enum Fault {
    /// The tokens derive none.
    NoTree,
    /// Want of memory.
    Memory,
}

impl From<Memory> for Fault {
    ghost from_gives = { λ _ fault. fault ≡ WantOfMemory };

    fn from(_memory: Memory) -> Fault {
        Fault::Memory
    }
}

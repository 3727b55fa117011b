ghost use Rattle.std.specs.Prelude.{◌≡◌};
ghost use Rattle.cx_lex.specs.declared.fault.Fault.TheVariants.{Memory as WantOfMemory};

use cr_base::{Memory, Rule};
use std::alloc::AllocFailed;

/// Why no piece is read at a place.
#[derive(Clone, Copy, Debug)]
pub enum Fault {
    /// A rule is broken there.
    Broken(Rule),
    /// Want of memory.
    Memory,
}

impl From<Memory> for Fault {
    ghost from_gives = { λ _ fault. fault ≡ WantOfMemory };

    fn from(_memory: Memory) -> Fault {
        Fault::Memory
    }
}

impl<T: Drop> From<AllocFailed<T>> for Fault {
    ghost from_gives = { λ _ fault. fault ≡ WantOfMemory };

    fn from(_error: AllocFailed<T>) -> Fault {
        Fault::Memory
    }
}

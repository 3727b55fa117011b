ghost use Rattle.std.specs.Prelude.{◌≡◌};
ghost use Rattle.rs_machine.specs.Does.{stopped_by, stopped_by_store, stopped_of};

use mem_bytes::StoreFault;
use rs_mean::Cause;
use rs_value::Trouble;

/// Why a run goes no further.
#[derive(Clone, Copy)]
pub enum Halt<'t> {
    /// The program ended with a status.
    Ended(i32),
    /// Its next step has no meaning.
    Wrong(Cause),
    /// A unit is asked for, and none is left.
    Units,
    /// An object goes past the store's limit: the bytes that it needs, and those that are left.
    Full { need: u64, left: u64 },
    /// The host doesn't take a call of the function with this symbol.
    Refused(&'t [u8]),
    /// The outside failed.
    Failed,
    /// Want of memory.
    Memory,
}

/// What is found of values doesn't go on by this.
pub fn halt_of<'t>(trouble: Trouble) -> Halt<'t>
    ensures { stopped_by result ≡ stopped_of trouble }
{
    match trouble {
        Trouble::Wrong(why) => Halt::Wrong(why),
        Trouble::Memory => Halt::Memory,
    }
}

/// A store doesn't go on by this.
pub fn halt_of_store<'t>(fault: StoreFault) -> Halt<'t>
    ensures { stopped_by result ≡ stopped_by_store fault }
{
    match fault {
        StoreFault::Full { need, left } => Halt::Full { need, left },
        StoreFault::Memory => Halt::Memory,
    }
}

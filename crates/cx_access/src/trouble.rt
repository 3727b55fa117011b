ghost use Rattle.std.specs.Prelude.{◌≡◌};
ghost use Rattle.cx_mean.specs.Operands.{rule_of};

use cr_base::{Memory, URule};
use mem_bytes::Fault;

/// Why a step gives nothing.
#[derive(Clone, Copy)]
pub enum Trouble {
    /// C leaves it undefined, by this rule.
    Undefined(URule),
    /// Want of memory, or a step that no typed program has.
    Memory,
}

impl From<Memory> for Trouble {
    ghost use Rattle.std.specs.Prelude.{◌≡◌};
    ghost use Rattle.cx_access.specs.declared.trouble.Trouble.TheVariants.{Memory};

    ghost from_gives = { λ _ trouble. trouble ≡ Memory };

    fn from(_memory: Memory) -> Trouble {
        Trouble::Memory
    }
}

/// The rule by which an access to memory with a fault is undefined.
pub fn rule_of(fault: Fault) -> URule
    ensures { result ≡ rule_of fault }
{
    match fault {
        Fault::Dead => URule::U5,
        Fault::Outside => URule::U6,
        Fault::Misaligned => URule::U10,
        Fault::Unset => URule::U7,
        Fault::BadBool => URule::U8,
        Fault::MixedPointer => URule::U9,
    }
}

use crate::memory::Memory;
use crate::rule::Rule;

/// A place in the units of a job: the number of the unit, from 0 in the order given, and the line in
/// it, from 1.
#[derive(Clone, Copy, Debug, PartialEq, Eq)]
pub struct Place {
    pub unit: u32,
    pub line: u32,
}

/// That a unit breaks a rule of the C profile, and where.
#[derive(Clone, Copy, Debug, PartialEq, Eq)]
pub struct Refusal {
    pub rule: Rule,
    /// The number of the unit, from 0 in the order given.
    pub unit: u32,
    /// The line in the unit, from 1.
    pub line: u32,
}

/// Why a stage of the front end gives no result.
#[derive(Clone, Copy, Debug, PartialEq, Eq)]
pub enum Stop {
    /// The units break a rule.
    Refused(Refusal),
    /// Want of memory.
    Memory,
}

impl From<Memory> for Stop {
    ghost use Rattle.std.specs.Prelude.{◌≡◌};
    ghost use Rattle.cr_base.specs.declared.refusal.Stop.TheVariants.{Memory};

    ghost from_gives = { λ _ stop. stop ≡ Memory };

    fn from(_memory: Memory) -> Stop {
        Stop::Memory
    }
}

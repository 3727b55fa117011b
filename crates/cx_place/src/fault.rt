use cr_base::{Memory, Rule};

/// Why an initialiser has no puts.
#[derive(Clone, Copy, PartialEq, Eq)]
pub enum PlaceFault {
    /// A part breaks a rule: what is given there may not be assigned (K12), or has no place (K21).
    Broken {
        rule: Rule,
        /// The number of the part, from 0 in post-order: what stands in a list before the list, and the designators of an entry before
        /// what is given there.
        part: u64,
    },
    /// Want of memory.
    Memory,
}

/// A rule that a part of an initialiser breaks.
#[derive(Clone, Copy)]
pub struct BrokenPart {
    pub rule: Rule,
    /// The number of the part, from 0 in post-order.
    pub part: u64,
}

impl From<Memory> for PlaceFault {
    ghost use Rattle.std.specs.Prelude.{◌≡◌};
    ghost use Rattle.cx_place.specs.declared.fault.PlaceFault.TheVariants.{Memory as want_of_memory};

    ghost from_gives = { λ _ fault. fault ≡ want_of_memory };

    fn from(_memory: Memory) -> PlaceFault {
        PlaceFault::Memory
    }
}

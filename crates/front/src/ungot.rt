use cr_base::Memory;

/// Why not all files of a job were got.
#[derive(Clone, Copy)]
pub(crate) enum Ungot<'a> {
    /// The `get` of the file of this name failed.
    Failed(&'a str),
    /// Want of memory.
    Memory,
}

impl From<Memory> for Ungot<'_> {
    ghost use Rattle.std.specs.Prelude.{◌≡◌};
    ghost use Rattle.front.specs.declared.ungot.Ungot.TheVariants.{Memory};

    ghost from_gives = { λ _ why. why ≡ Memory };

    fn from(_memory: Memory) -> Self {
        Ungot::Memory
    }
}

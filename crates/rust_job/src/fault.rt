use cr_base::{Memory, Name};

/// Why files aren't run.
#[derive(Drop)]
pub enum CrateFault {
    /// They are no crate of the subset: the file with this number in the list, from 0, is at fault, at this line.
    NotRust { file: u32, line: u32 },
    /// The crate isn't well typed: this item, counted from 0, of the module of this name is the first that isn't.
    IllTyped { module: Name, item: u32 },
    /// Memory ran out.
    Memory,
}

impl From<Memory> for CrateFault {
    ghost use Rattle.std.specs.Prelude.{◌≡◌};
    ghost use Rattle.rust_job.specs.declared.fault.CrateFault.TheVariants.{Memory};

    ghost from_gives = { λ _ fault. fault ≡ Memory };

    fn from(_memory: Memory) -> CrateFault {
        CrateFault::Memory
    }
}

use cr_base::Memory;
use std::io;
use std::io::ErrorKind;
use thiserror::Error;

/// Why a call on a shelf gives no result.
#[derive(Clone, Copy, Debug, PartialEq, Eq, Error)]
pub enum ShelfFault {
    /// The file could not be read or written. The shelf counted the fault.
    #[error("file could not be read or written")]
    Failed,
    /// Want of memory.
    #[error("out of memory")]
    Memory,
}

impl From<Memory> for ShelfFault {
    ghost use Rattle.std.specs.Prelude.{◌≡◌};
    ghost use Rattle.shelf.specs.declared.fault.ShelfFault.TheVariants.{Memory as want_of_memory};

    ghost from_gives = { λ _ fault. fault ≡ want_of_memory };

    fn from(_memory: Memory) -> ShelfFault {
        ShelfFault::Memory
    }
}

/// The system's want of memory is one; every other error is a failed call.
impl From<io::Error> for ShelfFault {
    ghost use Rattle.std.specs.Prelude.{◌≡◌};
    ghost use Rattle.std.specs.IoError.{error_kind};
    ghost use Rattle.shelf.specs.Fault.{fault_of};

    ghost from_gives = { λ error fault. fault ≡ fault_of (error_kind error) };

    fn from(error: io::Error) -> ShelfFault {
        match error.kind() {
            ErrorKind::OutOfMemory => ShelfFault::Memory,
            _ => ShelfFault::Failed,
        }
    }
}

/// That a stream could not be read or written. The stream counted the fault.
#[derive(Clone, Copy, Debug, PartialEq, Eq, Error)]
#[error("stream could not be read or written")]
pub struct Failed;

ghost use Rattle.std.specs.Prelude.{◌≡◌, Some, IfOk};
ghost use Rattle.shelf.specs.Shelf.{IsGotOf, IsWithin};

use cr_base::{Items, Memory, Text};
use std::alloc::Global;

/// One named file. Contracts see its name and its bytes as lists of bytes.
#[derive(Debug, Drop)]
pub struct File {
    pub name: Text,
    pub bytes: Items<u8>,
}

impl File {
    // A copy of a name and of bytes. Refused only for want of memory.
    pub(crate) fn of(alloc: Global, name: &str, bytes: &[u8]) -> Result<File, Memory>
        ensures { IfOk result (λ file. file ≡ record { name = name.now; bytes = bytes.now }) }
    {
        let name = Text::from_str(alloc, name)?;
        let bytes = Items::from_slice(alloc, bytes)?;
        Ok(File { name, bytes })
    }
}

/// What a read of a file gives.
#[derive(Debug, Drop)]
pub enum Got {
    /// All bytes of the file.
    Bytes(Items<u8>),
    /// The file has more bytes than the reader asked for at most.
    TooLarge,
}

impl Got {
    // A copy of the bytes of a file, if they are at most `limit`. Refused only for want of memory.
    pub(crate) fn of(alloc: Global, bytes: &[u8], limit: usize) -> Result<Got, Memory>
        ensures bytes { IfOk result (IsGotOf (Some bytes.now) limit) }
        ensures within { IfOk result (IsWithin limit) }
    {
        if bytes.len() > limit {
            return Ok(Got::TooLarge);
        }
        Ok(Got::Bytes(Items::from_slice(alloc, bytes)?))
    }
}

ghost use Rattle.std.specs.Prelude.{◌≡◌, Some, IfOk, OnOk, IsOkUnless};
ghost use Rattle.shelf.specs.Files.{bytes_or_empty};
ghost use Rattle.shelf.specs.Shelf.{IsGot, IsWithin, with_file, without_file, HasCause};
ghost use Rattle.shelf.specs.SureShelf.{state_of};

use crate::called::Kind;
use crate::fault::ShelfFault;
use crate::file::{File, Got};
use crate::files::{bytes_under, store};
use crate::shelf::Shelf;
use std::marker::Model;

/// A shelf over memory of which no call fails: it holds an empty file under every name that it
/// wasn't given. It tells what it holds. A call may still end for want of memory, and then changes
/// nothing. Contracts see it as the list of its files.
#[derive(Debug, Drop)]
pub struct SureShelf {
    files: Vec<File>,
}

impl Model for SureShelf {
    ghost use Rattle.std.specs.Prelude.{List};
    ghost use Rattle.shelf.specs.declared.file.File.{File};

    ghost Value = { List File };

    ghost view = { λ shelf. shelf.files.items };
}

impl SureShelf {
    /// A shelf that holds these files, the first of a name counting.
    pub fn new(files: Vec<File>) -> SureShelf
        ensures view { result ≡ files.items }
        ensures state { ⟦<SureShelf as Shelf>⟧.state result
            ≡ record { held = Some (bytes_or_empty files.items); faults = 0; last = None } }
    {
        SureShelf { files }
    }
}

impl Shelf for SureShelf {
    ghost state = { state_of };

    fn get(&mut self, name: &str, limit: usize) -> Result<Got, ShelfFault>
        ensures bytes { IfOk result (IsGot (state_of self.old).held name.now limit) }
        ensures within { IfOk result (IsWithin limit) }
        ensures kept { (state_of self.new).held ≡ (state_of self.old).held }
        ensures cause { HasCause name.now Kind.Get (state_of self.old) (state_of self.new) result }
        ensures sure { IsOkUnless result ShelfFault.Memory }
    {
        let bytes = bytes_under(self.files.as_slice(), name).unwrap_or(b"");
        Ok(Got::of(*self.files.allocator(), bytes, limit)?)
    }

    fn put(&mut self, name: &str, bytes: &[u8]) -> Result<(), ShelfFault>
        ensures stored { OnOk result
            ((state_of self.new).held ≡ with_file name.now bytes.now (state_of self.old).held) }
        ensures others { without_file name.now (state_of self.new).held
            ≡ without_file name.now (state_of self.old).held }
        ensures cause { HasCause name.now Kind.Put (state_of self.old) (state_of self.new) result }
        ensures sure { IsOkUnless result ShelfFault.Memory }
    {
        let file = File::of(*self.files.allocator(), name, bytes)?;
        store(&mut self.files, file)?;
        Ok(())
    }
}

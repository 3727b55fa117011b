ghost use Rattle.std.specs.Prelude.{◌≡◌, ◌⊎◌, ◌+◌, ◌-◌, ◌^◌, min, OnErr, Some, IfOk, OnOk, IsErrOf, Contains};
ghost use Rattle.shelf.specs.Files.{bytes_of};
ghost use Rattle.shelf.specs.MemShelf.{state_of};
ghost use Rattle.shelf.specs.Shelf.{IsGot, IsWithin, with_file, without_file, HasCause};

use crate::called::{Called, Kind};
use crate::fault::ShelfFault;
use crate::fault_log::FaultLog;
use crate::file::{File, Got};
use crate::files::{bytes_under, store};
use crate::shelf::Shelf;
use std::marker::Model;

/// A shelf over memory, of which chosen calls fail. It tells what it holds.
///
/// Each call first takes the memory to remember its name, and a put then the memory for its bytes;
/// a call that ends for want of memory changes nothing that is held. Contracts see the files, the
/// numbers of the calls that fail, how many calls were made and failed, and the last that failed.
#[derive(Debug, Drop)]
pub struct MemShelf {
    files: Vec<File>,
    fails: Vec<u64>,
    calls: u64,
    log: FaultLog,
}

impl Model for MemShelf {
    ghost use Rattle.shelf.specs.MemShelf.{MemShelfView};

    ghost Value = { MemShelfView };

    ghost view = { λ shelf. record {
      files = shelf.files.items;
      fails = shelf.fails.items;
      calls = shelf.calls;
      faults = shelf.log.count;
      last = shelf.log.last;
    } };
}

impl MemShelf {
    /// A shelf that holds these files, the first of a name counting, and of which the calls with
    /// these numbers fail. Calls of `get` and `put` are numbered together, from 0 on.
    pub fn new(files: Vec<File>, fails: Vec<u64>) -> MemShelf
        ensures view { result ≡ record {
          files = files.items;
          fails = fails.items;
          calls = 0;
          faults = 0;
          last = None;
        } }
        ensures state { ⟦<MemShelf as Shelf>⟧.state result
            ≡ record { held = Some (bytes_of files.items); faults = 0; last = None } }
    {
        MemShelf {
            files,
            fails,
            calls: 0,
            log: FaultLog::new(),
        }
    }
}

impl Shelf for MemShelf {
    ghost state = { state_of };

    fn get(&mut self, name: &str, limit: usize) -> Result<Got, ShelfFault>
        ensures bytes { IfOk result (IsGot (state_of self.old).held name.now limit) }
        ensures within { IfOk result (IsWithin limit) }
        ensures kept { (state_of self.new).held ≡ (state_of self.old).held }
        ensures cause { HasCause name.now Kind.Get (state_of self.old) (state_of self.new) result }

        // Which calls fail, and how they are numbered.
        ensures listed { OnOk result (¬ Contains self.old.fails self.old.calls) }
        ensures failed { IsErrOf result ShelfFault.Failed → Contains self.old.fails self.old.calls
            ⊎ (bytes_of self.old.files name.now ≡ None) }
        ensures numbered { self.new.calls ≡ min (self.old.calls + 1) (2 ^ 64 - 1) }
        ensures fails { self.new.fails ≡ self.old.fails }
    {
        let call = self.next_call();
        let called = Called::of(*self.files.allocator(), name, Kind::Get)?;
        let outcome = self.read(call, name, limit);
        self.log.settle(called, outcome)
    }

    fn put(&mut self, name: &str, bytes: &[u8]) -> Result<(), ShelfFault>
        ensures stored { OnOk result
            ((state_of self.new).held ≡ with_file name.now bytes.now (state_of self.old).held) }
        ensures others { without_file name.now (state_of self.new).held
            ≡ without_file name.now (state_of self.old).held }
        ensures cause { HasCause name.now Kind.Put (state_of self.old) (state_of self.new) result }

        // Which calls fail, and how they are numbered.
        ensures listed { OnOk result (¬ Contains self.old.fails self.old.calls) }
        ensures failed { IsErrOf result ShelfFault.Failed → Contains self.old.fails self.old.calls }
        ensures numbered { self.new.calls ≡ min (self.old.calls + 1) (2 ^ 64 - 1) }
        ensures fails { self.new.fails ≡ self.old.fails }
    {
        let call = self.next_call();
        let called = Called::of(*self.files.allocator(), name, Kind::Put)?;
        let outcome = self.write(call, name, bytes);
        self.log.settle(called, outcome)
    }
}

impl MemShelf {
    // The number of a call that begins.
    fn next_call(&mut self) -> u64
        ensures number { result ≡ self.old.calls }
        ensures numbered { self.new
            ≡ record self.old { calls = min (self.old.calls + 1) (2 ^ 64 - 1) } }
    {
        let call = self.calls;
        self.calls = call.saturating_add(1);
        call
    }

    // A copy of a file, in the call of this number.
    fn read(&self, call: u64, name: &str, limit: usize) -> Result<Got, ShelfFault>
        ensures bytes { IfOk result (IsGot (state_of self.now).held name.now limit) }
        ensures within { IfOk result (IsWithin limit) }
        ensures listed { OnOk result (¬ Contains self.now.fails call) }
        ensures failed { IsErrOf result ShelfFault.Failed → Contains self.now.fails call
            ⊎ (bytes_of self.now.files name.now ≡ None) }
    {
        if self.fails.contains(&call) {
            return Err(ShelfFault::Failed);
        }
        match bytes_under(self.files.as_slice(), name) {
            Some(bytes) => Ok(Got::of(*self.files.allocator(), bytes, limit)?),
            None => Err(ShelfFault::Failed),
        }
    }

    // Stores a file, in the call of this number.
    fn write(&mut self, call: u64, name: &str, bytes: &[u8]) -> Result<(), ShelfFault>
        ensures stored { OnOk result
            ((state_of self.new).held ≡ with_file name.now bytes.now (state_of self.old).held) }
        ensures others { without_file name.now (state_of self.new).held
            ≡ without_file name.now (state_of self.old).held }
        ensures rest { self.new ≡ record self.old { files = self.new.files } }
        ensures listed { OnOk result (¬ Contains self.old.fails call) }
        ensures failed { IsErrOf result ShelfFault.Failed → Contains self.old.fails call }
    {
        if self.fails.contains(&call) {
            return Err(ShelfFault::Failed);
        }
        let file = File::of(*self.files.allocator(), name, bytes)?;
        store(&mut self.files, file)?;
        Ok(())
    }
}

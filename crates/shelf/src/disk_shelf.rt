ghost use Rattle.std.specs.Prelude.{◌≡◌, IfOk};
ghost use Rattle.shelf.specs.Shelf.{IsWithin};
ghost use Rattle.shelf.specs.DiskShelf.{state_of};

use crate::called::{Called, Kind};
use crate::fault::ShelfFault;
use crate::fault_log::FaultLog;
use crate::file::Got;
use crate::reading::read_at_most;
use crate::shelf::Shelf;
use std::alloc::Global;
use std::fs;
use std::marker::Model;
use std::path::Path;
use std::rt::Files;

/// A shelf over the files of the system: a name is a path. It tells nothing of what it holds.
///
/// Each call first takes the memory to remember its name. A path that can't be opened, read or
/// written is a failed call, also one that names a folder. A read or a write that the system
/// interrupts is tried again, a bounded number of times. A put makes the folders that are missing;
/// after one that failed the file of its name may hold a part of the bytes. Contracts see how many
/// calls failed, and the last of these.
#[derive(Drop)]
pub struct DiskShelf<R> {
    alloc: Global,
    rt: R,
    log: FaultLog,
}

impl<R> Model for DiskShelf<R> {
    ghost use Rattle.shelf.specs.DiskShelf.{DiskShelfView};

    ghost Value = { DiskShelfView };

    ghost view = { λ shelf. record { faults = shelf.log.count; last = shelf.log.last } };
}

impl<R: Files> DiskShelf<R> {
    /// A shelf over the files of a runtime. Relative names start in the current folder.
    pub fn new(alloc: Global, rt: R) -> DiskShelf<R>
        ensures view { result ≡ record { faults = 0; last = None } }
        ensures state { ⟦<DiskShelf<R> as Shelf>⟧.state result
            ≡ record { held = None; faults = 0; last = None } }
    {
        DiskShelf {
            alloc,
            rt,
            log: FaultLog::new(),
        }
    }
}

impl<R: Files> Shelf for DiskShelf<R> {
    ghost state = { state_of };

    fn get(&mut self, name: &str, limit: usize) -> Result<Got, ShelfFault> {
        let called = Called::of(self.alloc, name, Kind::Get)?;
        let outcome = read_file(self.alloc, &self.rt, name, limit);
        self.log.settle(called, outcome)
    }

    fn put(&mut self, name: &str, bytes: &[u8]) -> Result<(), ShelfFault> {
        let called = Called::of(self.alloc, name, Kind::Put)?;
        let outcome = write_file(&self.rt, name, bytes);
        self.log.settle(called, outcome)
    }
}

// The bytes of the file at a path, if they are at most `limit`.
fn read_file<R: Files>(alloc: Global, rt: &R, path: &str, limit: usize) -> Result<Got, ShelfFault>
    ensures { IfOk result (IsWithin limit) }
{
    let mut file = fs::open(rt, path)?;
    read_at_most(alloc, &mut file, limit)
}

// Writes the file at a path, whole, and first makes the folders that are missing.
fn write_file<R: Files>(rt: &R, path: &str, bytes: &[u8]) -> Result<(), ShelfFault> {
    if let Some(folder) = Path::new(path).parent() {
        fs::create_dir_all(rt, folder)?;
    }
    fs::write(rt, path, bytes)?;
    Ok(())
}

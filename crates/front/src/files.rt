ghost use Rattle.std.specs.Prelude.{◌≡◌, ℕ, ◌<◌, ◌≤◌, length, take, IfOk, MatchResult, Some, slice_get};
ghost use Rattle.cr_base.specs.Count.{Rose};
ghost use Rattle.shelf.specs.Shelf.{call_of};
ghost use Rattle.front.specs.Files.{file_in, files_in, name_in, with_files};
ghost use Rattle.front.specs.Puts.{PutsAll, StopsAt};

use cr_base::{Items, Memory, Text};
use shelf::{File, Shelf, ShelfFault};
use std::alloc::Global;

/// The same files, named in a directory. Refused only for want of memory.
pub(crate) fn placed(
    alloc: Global,
    directory: &str,
    files: Items<File>,
) -> Result<Items<File>, Memory>
    ensures { IfOk result (λ all. all ≡ files_in directory.now files) }
{
    let mut all = Items::new(alloc);
    for file in files.into_vec() {
        all.push(placed_file(alloc, directory, file)?)?;
    }
    Ok(all)
}

/// The name of a path in a directory. Refused only for want of memory.
pub(crate) fn named(alloc: Global, directory: &str, path: &str) -> Result<Text, Memory>
    ensures { IfOk result (λ name. name ≡ name_in directory.now path.now) }
{
    let path = format!(in alloc; "{directory}/{path}")?;
    Ok(Text::of(path))
}

fn placed_file(alloc: Global, directory: &str, file: File) -> Result<File, Memory>
    ensures { IfOk result (λ placed. placed ≡ file_in directory.now file) }
{
    let File { name, bytes } = file;
    let name = named(alloc, directory, name.as_str())?;
    Ok(File { name, bytes })
}

/// A `put` that gave no Ok: the number of its file, from 0, and why.
#[derive(Drop)]
pub(crate) struct PutFault {
    pub(crate) place: usize,
    pub(crate) fault: ShelfFault,
}

/// Puts files, one behind another, up to the first `put` that gives no Ok.
pub(crate) fn put_all<F: Shelf>(shelf: &mut F, files: &[File]) -> Result<(), PutFault>
    ensures { MatchResult result (λ _. PutsAll files.now (F.state shelf.old) (F.state shelf.new))
        (λ stop. StopsAt files.now stop.place stop.fault (F.state shelf.old) (F.state shelf.new)) }
{
    for (place, file) in files.iter().enumerate() {
        if let Err(fault) = shelf.put(file.name.as_str(), file.bytes.as_slice()) {
            return Err(PutFault { place, fault });
        }
    }
    Ok(())
}

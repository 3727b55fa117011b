//! What the shelf holds for the files of a job.

ghost use Rattle.std.specs.Prelude.{◌≡◌, ◌≤◌, IfOk, MatchResult};
ghost use Rattle.clap.specs.Walk.{texts};
ghost use Rattle.jobs.specs.Asked.{files_of};
ghost use Rattle.front.specs.Sources.{AreGot, IsUngot, source_of};

use crate::ungot::Ungot;
use cr_base::{Items, Memory};
use cx_units::{MOST_BYTES, Source};
use jobs::Files;
use shelf::{Got, Shelf, ShelfFault};
use std::alloc::Global;

/// The names of the files, in their order. Refused only for want of memory.
pub(crate) fn names_of<'a>(alloc: Global, files: Files<'a>) -> Result<Items<&'a str>, Memory>
    ensures { IfOk result (λ names. texts names ≡ files_of files.entry) }
{
    let Files { first, others } = files;
    let mut names = Items::new(alloc);
    names.push(first)?;
    names.append(others)?;
    Ok(names)
}

// What is known of a unit, of which this was got.
fn source_of(got: Got) -> Source
    ensures { result ≡ source_of got }
{
    match got {
        Got::Bytes(bytes) => Source::Bytes(bytes),
        Got::TooLarge => Source::TooLarge,
    }
}

/// Gets the files of these names, one behind another, up to the first `get` that gives no Ok. A file that is too large for a
/// unit is no end.
pub(crate) fn got_all<'a, F: Shelf>(
    alloc: Global,
    names: &[&'a str],
    shelf: &mut F,
) -> Result<Items<Source>, Ungot<'a>>
    ensures { MatchResult result
        (λ sources. AreGot (texts names.now) sources (F.state shelf.old) (F.state shelf.new))
        (λ why. IsUngot (texts names.now) why (F.state shelf.old) (F.state shelf.new)) }
{
    let mut sources = Items::new(alloc);
    for name in names {
        match shelf.get(name, MOST_BYTES) {
            Ok(got) => sources.push(source_of(got))?,
            Err(ShelfFault::Failed) => return Err(Ungot::Failed(name)),
            Err(ShelfFault::Memory) => return Err(Ungot::Memory),
        }
    }
    Ok(sources)
}

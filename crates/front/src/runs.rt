//! The jobs that run a program.

ghost use Rattle.std.specs.Prelude.{◌≡◌, ◌<◌, ◌≤◌, length, map};
ghost use Rattle.clap.specs.Walk.{texts};
ghost use Rattle.front.specs.CrateEnds.{EndsGot, EndsNotRust, unread_ending};
ghost use Rattle.front.specs.Crates.{path_of};
ghost use Rattle.front.specs.Outcome.{ending_of};
ghost use Rattle.front.specs.Runs.{RunsCrate, RunsUnits};
ghost use Rattle.run_ends.specs.Told.{name_at};

use crate::crate_files::got_crate;
use crate::files::named;
use crate::outcome::Outcome;
use crate::sources::got_all;
use crate::transpile::stopped;
use crate::ungot::Ungot;
use crate::unread::Unread;
use c_job::run_units;
use cr_base::Memory;
use ext_calls::Host;
use rs_tree::Files;
use run_ends::Told;
use rust_job::{CrateFault, run_files};
use shelf::{File, Shelf};
use std::alloc::Global;

/// Runs the units of these files for `steps` steps at most, in an order of evaluation. All files are got before any rule is looked at.
pub(crate) fn run_c<'a, F: Shelf, H: Host>(
    alloc: Global,
    names: &[&'a str],
    order: &[u32],
    steps: u64,
    shelf: &mut F,
    host: &mut H,
) -> Outcome<'a>
    requires some { 0 < length names.now }
    requires steps { steps ≤ 1000000000 }
    ensures { RunsUnits steps order.now (texts names.now) (ending_of result)
        (F.state shelf.old) (F.state shelf.new) (H.state host.old) (H.state host.new) }
{
    let sources = match got_all(alloc, names, shelf) {
        Ok(sources) => sources,
        Err(Ungot::Failed(name)) => return Outcome::CannotRead(name),
        Err(Ungot::Memory) => return Outcome::Memory,
    };
    match run_units(alloc, sources.as_slice(), order, steps, host) {
        Ok(end) => Outcome::Told(Told::of(end, names, steps)),
        Err(stop) => stopped(names, stop),
    }
}

/// Runs the crate under a directory for `steps` units at most.
pub(crate) fn run_rust<'a, F: Shelf, H: Host>(
    alloc: Global,
    directory: &str,
    steps: u64,
    shelf: &mut F,
    host: &mut H,
) -> Outcome<'a>
    requires steps { steps ≤ 1000000000 }
    ensures { RunsCrate steps directory.now (ending_of result)
        (F.state shelf.old) (F.state shelf.new) (H.state host.old) (H.state host.new) }
{
    match got_crate(alloc, directory, shelf) {
        Ok(list) => run_got(alloc, directory, Files { list }, steps, host),
        Err(why) => unread(why),
    }
}

// How the job ends where not all files of a crate were got.
fn unread<'a>(why: Unread) -> Outcome<'a>
    ensures { ending_of result ≡ unread_ending why }
{
    match why {
        Unread::NotRead(name) => Outcome::CannotReadPart(name),
        Unread::NotMain { name, line } => Outcome::NotRust { name, line },
        Unread::Memory => Outcome::Memory,
    }
}

// Runs the crate of files that were got.
fn run_got<'a, H: Host>(
    alloc: Global,
    directory: &str,
    files: Files,
    steps: u64,
    host: &mut H,
) -> Outcome<'a>
    requires steps { steps ≤ 1000000000 }
    ensures { EndsGot directory.now files.list steps (ending_of result) (H.state host.old) (H.state host.new) }
{
    match run_files(alloc, &files, steps, host) {
        Ok(end) => Outcome::Told(Told::of(end, &[], steps)),
        Err(CrateFault::NotRust { file, line }) => not_rust(alloc, directory, files, file, line),
        Err(CrateFault::IllTyped { module, item }) => Outcome::IllTyped { module, item },
        Err(CrateFault::Memory) => Outcome::Memory,
    }
}

// The path of the file with a number.
fn path_at(files: &[File], number: u32) -> &str
    ensures { result.now ≡ name_at (map path_of files.now) number }
{
    match files.get(number as usize) {
        Some(file) => file.name.as_str(),
        None => "",
    }
}

// How the job ends where files are no crate of the subset: the file with a number is at fault.
fn not_rust<'a>(alloc: Global, directory: &str, files: Files, number: u32, line: u32) -> Outcome<'a>
    ensures { EndsNotRust directory.now (name_at (map path_of files.list) number) (ending_of result) }
{
    match named(alloc, directory, path_at(files.list.as_slice(), number)) {
        Ok(name) => Outcome::NotRust { name, line },
        Err(Memory) => Outcome::Memory,
    }
}

ghost use Rattle.std.specs.Prelude.{◌≡◌, ◌<◌, length, IfOk, Some, slice_get};
ghost use Rattle.straight_core.specs.Views.{view_program};
ghost use Rattle.straight_items.specs.Modules.{stem_of};
ghost use Rattle.straight_whole.specs.Right.{IsTranslatable};
ghost use Rattle.front.specs.Printed.{IsPrinted, IsPlaced};
ghost use Rattle.front.specs.Outcome.{ending_of};
ghost use Rattle.front.specs.Report.{refused};
ghost use Rattle.clap.specs.Walk.{texts};
ghost use Rattle.cr_base.specs.declared.rule.Rule.TheVariants.{M2};
ghost use Rattle.cx_links.specs.Rules.{nowhere};
ghost use Rattle.front.specs.Sources.{EndsStopped, IsWithin};
ghost use Rattle.front.specs.Puts.{Puts, PutFaultAt};
ghost use Rattle.front.specs.Transpile.{IsTranspiled};

use crate::files::{PutFault, placed, put_all};
use crate::outcome::Outcome;
use crate::sources::got_all;
use crate::ungot::Ungot;
use crate::units::program_of_sources;
use cr_base::{Items, Memory, Name, Refusal, Rule, Stop};
use shelf::{File, Shelf, ShelfFault};
use std::alloc::Global;
use straight_core::Program;
use straight_items::stem_of;
use straight_print::print;
use straight_whole::translate;

/// Translates the units of these files, and puts their crate under a directory. All files are got before any rule is looked
/// at, and the whole crate is made in memory before anything is put.
pub(crate) fn transpile<'a, F: Shelf>(
    alloc: Global,
    directory: &str,
    first: &'a str,
    names: &[&'a str],
    shelf: &mut F,
) -> Outcome<'a>
    requires { slice_get (texts names.now) 0 ≡ Some first.now }
    ensures { IsTranspiled directory.now (texts names.now) (ending_of result)
        (F.state shelf.old) (F.state shelf.new) }
{
    let sources = match got_all(alloc, names, shelf) {
        Ok(sources) => sources,
        Err(Ungot::Failed(name)) => return Outcome::CannotRead(name),
        Err(Ungot::Memory) => return Outcome::Memory,
    };
    let program = match program_of_sources(alloc, first, sources) {
        Ok(program) => program,
        Err(stop) => return stopped(names, stop),
    };
    match crate_files(alloc, directory, first, program) {
        Ok(files) => put_crate(shelf, files),
        Err(Memory) => Outcome::Memory,
    }
}

/// How a job ends where its units are stopped.
pub(crate) fn stopped<'a>(names: &[&'a str], stop: Stop) -> Outcome<'a>
    requires { IsWithin (length names.now) stop }
    ensures { EndsStopped (texts names.now) stop (ending_of result) }
{
    match stop {
        Stop::Refused(refusal) => Outcome::Refused {
            file: names[refusal.unit as usize],
            refusal,
        },
        Stop::Memory => Outcome::Memory,
    }
}

/// Refuses more units than a program may have, of which this is the file of the first.
pub(crate) fn too_many<'a>(first: &'a str) -> Outcome<'a>
    ensures { ending_of result ≡ refused first.now (nowhere M2) }
{
    Outcome::Refused {
        file: first,
        refusal: Refusal {
            rule: Rule::M2,
            unit: 0,
            line: 0,
        },
    }
}

// The crate of a program, as files. Refused only for want of memory.
fn printed(alloc: Global, program: &Program, name: &str) -> Result<Items<File>, Memory>
    requires { IsTranslatable (view_program program.now) name.now }
    ensures { IfOk result (λ files. IsPrinted (view_program program.now) name.now files) }
{
    let bytes = Items::from_slice(alloc, name.as_bytes())?;
    let whole = translate(alloc, program, Name::of(bytes.into_vec()))?;
    let files = print(alloc, &whole)?;
    Ok(files.list)
}

// The same of a program that is used up. Refused only for want of memory.
fn printed_of(alloc: Global, program: Program, name: &str) -> Result<Items<File>, Memory>
    requires { IsTranslatable (view_program program) name.now }
    ensures { IfOk result (λ files. IsPrinted (view_program program) name.now files) }
{
    printed(alloc, &program, name)
}

// The files of the crate of a program, which is used up, named in the directory. Refused only for want of memory.
fn crate_files(
    alloc: Global,
    directory: &str,
    file: &str,
    program: Program,
) -> Result<Items<File>, Memory>
    requires { IsTranslatable (view_program program) (stem_of file.now) }
    ensures { IfOk result (λ files. IsPlaced directory.now (view_program program) (stem_of file.now) files) }
{
    let files = printed_of(alloc, program, stem_of(file))?;
    placed(alloc, directory, files)
}

// Puts the files, one behind another.
fn put_crate<'a, F: Shelf>(shelf: &mut F, files: Items<File>) -> Outcome<'a>
    ensures { Puts files (ending_of result) (F.state shelf.old) (F.state shelf.new) }
{
    let files = files.into_vec();
    match put_all(shelf, files.as_slice()) {
        Ok(()) => Outcome::Done,
        Err(stop) => put_stopped(files, stop),
    }
}

// How the job ends where a put gave no Ok.
fn put_stopped<'a>(mut files: Vec<File>, stop: PutFault) -> Outcome<'a>
    requires { stop.place < length files.items }
    ensures { PutFaultAt files.items stop.place stop.fault (ending_of result) }
{
    match stop.fault {
        ShelfFault::Failed => Outcome::CannotWrite(files.remove(stop.place).name),
        ShelfFault::Memory => Outcome::Memory,
    }
}

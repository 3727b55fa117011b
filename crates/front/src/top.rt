ghost use Rattle.std.specs.Prelude.{◌≡◌, ◌≢◌, ◌≤◌, ◌⊎◌, ℕ, None, Some, map, string_bytes, true, false, IsTrue};
ghost use Rattle.cr_base.specs.Count.{Rose};
ghost use Rattle.front.specs.Job.{built_of, for_units, is_run, job_of, run_c, translation};
ghost use Rattle.front.specs.Leaves.{Leaves, LeavesShelf};
ghost use Rattle.front.specs.Outcome.{ending_of};
ghost use Rattle.jobs.specs.Asked.{IsBounded, asked_of, files_of};
ghost use Rattle.front.specs.Run.{is_status, Ran, Translated, EndedRun, RefusedUnits, RefusedWords, CannotRead, CannotWrite, UndefinedRun, WrongRun, StepsWereUsed, HostHasFailed, OutOfMemory, NotCrate, CallWasRefused, Yields, YieldsToGet, YieldsToRun, BreaksRule, BreaksNone, LacksFile, HoldsNoCrate, ComesTo, KeepsOthers, NoWriteFailed, ReadsTooLarge, is_too_many};

use crate::outcome::Outcome;
use crate::report::tell;
use crate::runs::{run_c, run_rust};
use crate::sources::names_of;
use crate::transpile::{too_many, transpile};
use cr_base::{Items, Memory};
use cx_link::MOST_UNITS;
use ext_calls::{Host, SureHost};
use jobs::{Files, Job, read_job};
use shelf::{Shelf, Sink, SureShelf, SureSink};
use std::alloc::Global;

/// Does the job that the words after the program's name ask for, between a shelf of files, two sinks
/// and a host, reports how it ended to `err`, and answers the exit status.
///
/// The jobs are `transpile -o DIR FILE..` and `run-c [--steps N] [--order LIST] FILE..`, of one to 64 units, and `run-rust [--steps N]
/// DIR`. The statuses are 0 (translated, or the run ended), 1 (the units break a rule of the profile, or are more than 64), 2 (the words are
/// no job), 3 (a file can't be read), 4 (a file, or the report, can't be written), 5 (the run of units is undefined), 6 (the run of a crate is
/// wrong), 7 (a run goes on after its steps), 8 (an object doesn't fit the store, which a store without limit never says), 9 (the host
/// failed), 10 (want of memory), 11 (the files are no well-typed crate of the subset) and 13 (the host doesn't take a call).
/// README.md says in prose what each clause says.
pub fn run<F: Shelf, O: Sink, E: Sink, H: Host>(
    alloc: Global,
    words: &[String],
    shelf: &mut F,
    _out: &mut O,
    err: &mut E,
    host: &mut H,
) -> u8
    ensures statuses { IsTrue (is_status result) }

    // What each status says of the shelf, of the report, and of the host.
    ensures translated { is_run (job_of (map string_bytes words.now)) ≡ false → result ≡ 0
        → Translated (map string_bytes words.now) (F.state shelf.old) (F.state shelf.new) (E.state err.old) (E.state err.new) }
    ensures ended { is_run (job_of (map string_bytes words.now)) ≡ true → result ≡ 0
        → EndedRun (map string_bytes words.now)
        (F.state shelf.old) (F.state shelf.new) (E.state err.old) (E.state err.new)
        (H.state host.old) (H.state host.new) }
    ensures refused_units { result ≡ 1 → RefusedUnits (map string_bytes words.now)
        (F.state shelf.old) (F.state shelf.new) (E.state err.old) (E.state err.new)
        (H.state host.old) (H.state host.new) }
    ensures refused_words { result ≡ 2 → RefusedWords (map string_bytes words.now)
        (F.state shelf.old) (F.state shelf.new) (E.state err.old) (E.state err.new) }
    ensures cannot_read { result ≡ 3 → CannotRead (map string_bytes words.now)
        (F.state shelf.old) (F.state shelf.new) (E.state err.old) (E.state err.new)
        (H.state host.old) (H.state host.new) }
    ensures cannot_write { result ≡ 4 → CannotWrite (map string_bytes words.now)
        (F.state shelf.old) (F.state shelf.new) (E.state err.old) (E.state err.new)
        (H.state host.old) (H.state host.new) }
    ensures undefined { result ≡ 5 → UndefinedRun (map string_bytes words.now)
        (F.state shelf.old) (F.state shelf.new) (E.state err.old) (E.state err.new)
        (H.state host.old) (H.state host.new) }
    ensures wrong { result ≡ 6 → WrongRun (map string_bytes words.now)
        (F.state shelf.old) (F.state shelf.new) (E.state err.old) (E.state err.new)
        (H.state host.old) (H.state host.new) }
    ensures steps_used { result ≡ 7 → StepsWereUsed (map string_bytes words.now)
        (F.state shelf.old) (F.state shelf.new) (E.state err.old) (E.state err.new)
        (H.state host.old) (H.state host.new) }
    ensures room { result ≢ 8 }
    ensures host_failed { result ≡ 9 → HostHasFailed (map string_bytes words.now)
        (F.state shelf.old) (F.state shelf.new) (E.state err.old) (E.state err.new)
        (H.state host.old) (H.state host.new) }
    ensures out_of_memory { result ≡ 10 → OutOfMemory (map string_bytes words.now)
        (F.state shelf.old) (F.state shelf.new) (E.state err.old) (E.state err.new)
        (H.state host.old) (H.state host.new) }
    ensures not_crate { result ≡ 11 → NotCrate (map string_bytes words.now)
        (F.state shelf.old) (F.state shelf.new) (E.state err.old) (E.state err.new)
        (H.state host.old) (H.state host.new) }
    ensures call_refused { result ≡ 13 → CallWasRefused (map string_bytes words.now)
        (F.state shelf.old) (F.state shelf.new) (E.state err.old) (E.state err.new)
        (H.state host.old) (H.state host.new) }

    // When each status comes.
    ensures no_job { job_of (map string_bytes words.now) ≡ None
        → (result ≡ 2) ⊎ Yields (E.state err.old) (E.state err.new) result }
    ensures too_many { is_too_many (job_of (map string_bytes words.now)) ≡ true
        → (result ≡ 1) ⊎ Yields (E.state err.old) (E.state err.new) result }
    ensures broken { BreaksRule (map string_bytes words.now) (F.state shelf.old)
        → (result ≡ 1) ⊎ YieldsToGet (F.state shelf.old) (F.state shelf.new) (E.state err.old) (E.state err.new) result }
    ensures missing { LacksFile (map string_bytes words.now) (F.state shelf.old)
        → (result ≡ 3) ⊎ Yields (E.state err.old) (E.state err.new) result }
    ensures no_crate { HoldsNoCrate (map string_bytes words.now) (F.state shelf.old)
        → (result ≡ 11) ⊎ YieldsToGet (F.state shelf.old) (F.state shelf.new) (E.state err.old) (E.state err.new) result }
    ensures comes { (status : ℕ) → ComesTo (map string_bytes words.now) (F.state shelf.old) (H.state host.old) status
        → (result ≡ status) ⊎ YieldsToRun (F.state shelf.old) (F.state shelf.new)
        (E.state err.old) (E.state err.new) (H.state host.old) (H.state host.new) result }
    ensures complete { BreaksNone (map string_bytes words.now) (F.state shelf.old)
        → (result ≡ 0) ⊎ ((result ≡ 10)
        ⊎ Rose (F.state shelf.old).faults (F.state shelf.new).faults) }

    // What stays, and what the report is.
    ensures others { KeepsOthers (map string_bytes words.now)
        (F.state shelf.old) (F.state shelf.new) }
    ensures out_untouched { O.state _out.new ≡ O.state _out.old }
    ensures host_untouched { is_run (job_of (map string_bytes words.now)) ≡ false → H.state host.new ≡ H.state host.old }
    ensures later { (E.state err.old).faults ≤ (E.state err.new).faults }
    ensures unfailed { NoWriteFailed (E.state err.old) (E.state err.new) result }
    ensures ran { Ran (map string_bytes words.now)
        (F.state shelf.old) (F.state shelf.new) (E.state err.old) (E.state err.new)
        (H.state host.old) (H.state host.new) result }
{
    let outcome = outcome_of(alloc, words, shelf, host);
    tell(alloc, outcome, err)
}

/// `run` over a shelf, a sink and a host that never fail: no report and no call fails, no call is refused, and no file can't be read but one of
/// a crate that is too large.
pub fn run_surely<O: Sink>(
    alloc: Global,
    words: &[String],
    shelf: &mut SureShelf,
    out: &mut O,
    err: &mut SureSink,
    host: &mut SureHost,
) -> u8
    ensures unread { result ≡ 3 → ReadsTooLarge (map string_bytes words.now) (⟦<SureShelf as Shelf>⟧.state shelf.old) }
    ensures no_unwritten { result ≢ 4 }
    ensures no_failure { result ≢ 9 }
    ensures no_refusal { result ≢ 13 }
    ensures ran { Ran (map string_bytes words.now)
        (⟦<SureShelf as Shelf>⟧.state shelf.old) (⟦<SureShelf as Shelf>⟧.state shelf.new)
        (⟦<SureSink as Sink>⟧.state err.old) (⟦<SureSink as Sink>⟧.state err.new)
        (⟦<SureHost as Host>⟧.state host.old) (⟦<SureHost as Host>⟧.state host.new) result }
{
    run(alloc, words, shelf, out, err, host)
}

// Does the job that the words ask for.
fn outcome_of<'a, F: Shelf, H: Host>(
    alloc: Global,
    words: &'a [String],
    shelf: &mut F,
    host: &mut H,
) -> Outcome<'a>
    ensures { Leaves (job_of (map string_bytes words.now)) (ending_of result)
        (F.state shelf.old) (F.state shelf.new) (H.state host.old) (H.state host.new) }
{
    match read_job(alloc, words) {
        Ok(Some(job)) => outcome_of_job(alloc, job, shelf, host),
        Ok(None) => Outcome::Usage,
        Err(Memory) => Outcome::Memory,
    }
}

// Does a job.
fn outcome_of_job<'a, F: Shelf, H: Host>(
    alloc: Global,
    job: Job<'a>,
    shelf: &mut F,
    host: &mut H,
) -> Outcome<'a>
    requires { IsBounded job }
    ensures { Leaves (built_of (Some (asked_of job.entry))) (ending_of result)
        (F.state shelf.old) (F.state shelf.new) (H.state host.old) (H.state host.new) }
{
    match job {
        Job::Transpile { directory, files } => translated(alloc, directory, files, shelf),
        Job::RunC {
            steps,
            order,
            files,
        } => units_run(alloc, files, order, steps, shelf, host),
        Job::RunRust { steps, directory } => run_rust(alloc, directory, steps, shelf, host),
    }
}

// Translates the units, unless they are more than a program may have.
fn translated<'a, F: Shelf>(
    alloc: Global,
    directory: &str,
    files: Files<'a>,
    shelf: &mut F,
) -> Outcome<'a>
    ensures { LeavesShelf (translation directory.now (files_of files.entry)) (ending_of result)
        (F.state shelf.old) (F.state shelf.new) }
{
    let first = files.first;
    if files.others.len() >= MOST_UNITS {
        return too_many(first);
    }
    match names_of(alloc, files) {
        Ok(names) => transpile(alloc, directory, first, names.as_slice(), shelf),
        Err(Memory) => Outcome::Memory,
    }
}

// Runs the units, unless they are more than a program may have.
fn units_run<'a, F: Shelf, H: Host>(
    alloc: Global,
    files: Files<'a>,
    order: Items<u32>,
    steps: u64,
    shelf: &mut F,
    host: &mut H,
) -> Outcome<'a>
    requires { steps ≤ 1000000000 }
    ensures { Leaves (for_units (files_of files.entry) (run_c steps order (files_of files.entry))) (ending_of result)
        (F.state shelf.old) (F.state shelf.new) (H.state host.old) (H.state host.new) }
{
    if files.others.len() >= MOST_UNITS {
        return too_many(files.first);
    }
    match names_of(alloc, files) {
        Ok(names) => run_c(
            alloc,
            names.as_slice(),
            order.as_slice(),
            steps,
            shelf,
            host,
        ),
        Err(Memory) => Outcome::Memory,
    }
}

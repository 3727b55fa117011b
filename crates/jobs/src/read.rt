//! The job that words ask for.

ghost use Rattle.std.specs.Prelude.{◌≡◌, ◌≢◌, ◌≤◌, None, IfOk, IfSome, map, option_map, string_bytes};
ghost use Rattle.std.specs.List.{list_all};
ghost use Rattle.clap.specs.Values.{kind_of};
ghost use Rattle.clap.specs.declared.error.kind.ErrorKind.TheVariants.{OutOfMemory};
ghost use Rattle.clap.specs.Matches.{found_of};
ghost use Rattle.clap.specs.Simple.{subcommand_rows_of};
ghost use Rattle.clap.specs.Walk.{all_of, first_of, rows_of, texts};
ghost use Rattle.jobs.specs.Asked.{IsBounded, asked_of, files_of};
ghost use Rattle.jobs.specs.Job.{job_of, job_in, transpile_in, run_c_in, run_rust_in, is_path, path_in, paths_in, steps_in, order_in, has_end};

use crate::command::{DIRECTORY, FILES, ORDER, OUTPUT, STEPS, command};
use crate::job::{Files, Job};
use crate::numbers::{number_of, numbers_in, within};
use clap::error::ErrorKind;
use clap::{ArgMatches, Error};
use cr_base::{Items, Memory};
use std::alloc::Global;

/// The steps or units that a run may take where it isn't told.
const STEPS_UNTOLD: u64 = 1_000_000;

/// The most steps or units that a run may take.
const MOST_STEPS: u64 = 1_000_000_000;

/// The most digits of a number of steps or units.
const STEPS_DIGITS: usize = 10;

/// The most digits of a number of an order of evaluation.
const ORDER_DIGITS: usize = 9;

/// The most numbers of an order of evaluation.
const MOST_ORDER: usize = 10_000;

/// The job that the words after the program's name ask for, or None where they are no job. Refused
/// only for want of memory.
pub fn read_job<'a>(alloc: Global, words: &'a [String]) -> Result<Option<Job<'a>>, Memory>
    ensures read { IfOk result (λ job. option_map asked_of job
        ≡ job_of (map string_bytes words.entry.now)) }
    ensures bounded { IfOk result (λ job. IfSome job IsBounded) }
{
    if has_end(words) {
        return Ok(None);
    }
    match command(alloc)?.try_get_matches_from(words) {
        Ok(matches) => job_in(alloc, &matches),
        Err(error) => untaken(&error),
    }
}

// Whether one of the words is `--`.
fn has_end(words: &[String]) -> bool
    ensures { result ≡ has_end (map string_bytes words.now) }
{
    for word in words {
        if word.as_str() == "--" {
            return true;
        }
    }
    false
}

// What words are that `clap` doesn't take: no job, unless memory ran out.
fn untaken<'a>(error: &Error) -> Result<Option<Job<'a>>, Memory>
    ensures { IfOk result (λ job. (job ≡ None) × (kind_of error.now ≢ OutOfMemory)) }
{
    match error.kind() {
        ErrorKind::OutOfMemory => Err(Memory),
        _ => Ok(None),
    }
}

fn job_in<'a>(alloc: Global, matches: &ArgMatches<'a>) -> Result<Option<Job<'a>>, Memory>
    ensures read { IfOk result (λ job. option_map asked_of job ≡ job_in (subcommand_rows_of matches.now)) }
    ensures bounded { IfOk result (λ job. IfSome job IsBounded) }
{
    let Some((name, found)) = matches.subcommand() else {
        return Ok(None);
    };
    if name == "transpile" {
        return transpile_in(alloc, found);
    }
    if name == "run-c" {
        return run_c_in(alloc, found);
    }
    if name == "run-rust" {
        return Ok(run_rust_in(found));
    }
    Ok(None)
}

// The first value of an argument.
fn text_of<'a>(found: &ArgMatches<'a>, id: &str) -> Option<&'a str>
    ensures { option_map (λ word. word.now) result ≡ first_of id.now (rows_of (found_of found.now)) }
{
    found.get_str(id)
}

// All values of an argument.
fn texts_of<'m, 'a>(found: &'m ArgMatches<'a>, id: &str) -> Option<&'m [&'a str]>
    ensures { option_map (λ words. texts words.now) result ≡ all_of id.now (rows_of (found_of found.now)) }
{
    found.get_raw(id)
}

fn transpile_in<'a>(alloc: Global, found: &ArgMatches<'a>) -> Result<Option<Job<'a>>, Memory>
    ensures read { IfOk result (λ job. option_map asked_of job ≡ transpile_in (rows_of (found_of found.now))) }
    ensures bounded { IfOk result (λ job. IfSome job IsBounded) }
{
    let Some(directory) = path_in(text_of(found, OUTPUT)) else {
        return Ok(None);
    };
    let Some(files) = files_in(alloc, texts_of(found, FILES))? else {
        return Ok(None);
    };
    Ok(Some(Job::Transpile { directory, files }))
}

fn run_c_in<'a>(alloc: Global, found: &ArgMatches<'a>) -> Result<Option<Job<'a>>, Memory>
    ensures read { IfOk result (λ job. option_map asked_of job ≡ run_c_in (rows_of (found_of found.now))) }
    ensures bounded { IfOk result (λ job. IfSome job IsBounded) }
{
    let Some(steps) = steps_in(text_of(found, STEPS)) else {
        return Ok(None);
    };
    let Some(order) = order_in(alloc, text_of(found, ORDER))? else {
        return Ok(None);
    };
    let Some(files) = files_in(alloc, texts_of(found, FILES))? else {
        return Ok(None);
    };
    Ok(Some(Job::RunC {
        steps,
        order,
        files,
    }))
}

fn run_rust_in<'a>(found: &ArgMatches<'a>) -> Option<Job<'a>>
    ensures read { option_map asked_of result ≡ run_rust_in (rows_of (found_of found.now)) }
    ensures bounded { IfSome result IsBounded }
{
    let Some(steps) = steps_in(text_of(found, STEPS)) else {
        return None;
    };
    let Some(directory) = path_in(text_of(found, DIRECTORY)) else {
        return None;
    };
    Some(Job::RunRust { steps, directory })
}

// Whether a word can name a file or a directory: it is neither empty nor `-`.
fn is_path(word: &str) -> bool
    ensures { result ≡ is_path word.now }
{
    if word.is_empty() {
        return false;
    }
    word != "-"
}

fn path_in<'a>(word: Option<&'a str>) -> Option<&'a str>
    ensures { option_map (λ path. path.now) result ≡ path_in (option_map (λ word. word.now) word.entry) }
{
    let word = word?;
    if is_path(word) { Some(word) } else { None }
}

fn are_paths(words: &[&str]) -> bool
    ensures { result ≡ list_all is_path (texts words.now) }
{
    for word in words {
        if !is_path(word) {
            return false;
        }
    }
    true
}

// One path or more. Refused only for want of memory.
fn files_in<'w, 'a>(
    alloc: Global,
    words: Option<&'w [&'a str]>,
) -> Result<Option<Files<'a>>, Memory>
    ensures { IfOk result (λ files. option_map files_of files
        ≡ paths_in (option_map (λ words. texts words.now) words.entry)) }
{
    let Some(words) = words else {
        return Ok(None);
    };
    let Some((first, others)) = words.split_first() else {
        return Ok(None);
    };
    if !are_paths(words) {
        return Ok(None);
    }
    let others = Items::from_slice(alloc, others)?;
    Ok(Some(Files {
        first: *first,
        others,
    }))
}

// How many steps or units a run may take.
fn steps_in(word: Option<&str>) -> Option<u64>
    ensures steps { result ≡ steps_in (option_map (λ word. word.now) word.entry) }
    ensures most { IfSome result (λ steps. steps ≤ 1000000000) }
{
    match word {
        Some(word) => within(number_of(word, STEPS_DIGITS), 1, MOST_STEPS),
        None => Some(STEPS_UNTOLD),
    }
}

// An order of evaluation. Refused only for want of memory.
fn order_in(alloc: Global, word: Option<&str>) -> Result<Option<Items<u32>>, Memory>
    ensures { IfOk result (λ order. order ≡ order_in (option_map (λ word. word.now) word.entry)) }
{
    match word {
        Some(word) => numbers_in(alloc, word, ORDER_DIGITS, MOST_ORDER),
        None => Ok(Some(Items::new(alloc))),
    }
}

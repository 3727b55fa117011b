//! The line that is reported of the end of a run.

ghost use Rattle.std.specs.Prelude.{◌≡◌, ◌++◌, IfOk};
ghost use Rattle.run_ends.specs.Told.{ended_report, failed_report, full_report, refused_report, report_of, steps_report, told_of, undefined_report, wrong_report};

use crate::texts::{cause_of, code_of, words_of};
use crate::told::Told;
use cr_base::{Items, Memory, Name, URule};
use rs_mean::Cause;
use std::alloc::Global;

const FAILED: &str = "c2rs: host failed\n";

#[tactic(auto, unfolding(crate::specs::Told::ended_report))]
fn ended(alloc: Global, status: i32) -> Result<Items<u8>, Memory>
    ensures { IfOk result (λ bytes. bytes ≡ ended_report status) }
{
    let text = format!(in alloc; "c2rs: ended {status}\n")?;
    Ok(Items::of(text.into_bytes()))
}

#[tactic(auto, unfolding(crate::specs::Told::undefined_report))]
fn undefined(alloc: Global, file: &str, line: u32, rule: URule) -> Result<Items<u8>, Memory>
    ensures { IfOk result (λ bytes. bytes ≡ undefined_report file.now line rule) }
{
    let code = code_of(rule);
    let words = words_of(rule);
    let text = format!(in alloc; "{file}:{line}: undefined: {code} {words}\n")?;
    Ok(Items::of(text.into_bytes()))
}

#[tactic(auto, unfolding(crate::specs::Told::wrong_report))]
fn wrong(alloc: Global, cause: Cause) -> Result<Items<u8>, Memory>
    ensures { IfOk result (λ bytes. bytes ≡ wrong_report cause) }
{
    let words = cause_of(cause);
    let text = format!(in alloc; "c2rs: wrong: {words}\n")?;
    Ok(Items::of(text.into_bytes()))
}

#[tactic(auto, unfolding(crate::specs::Told::steps_report))]
fn steps_used(alloc: Global, steps: u64) -> Result<Items<u8>, Memory>
    ensures { IfOk result (λ bytes. bytes ≡ steps_report steps) }
{
    let text = format!(in alloc; "c2rs: steps used: {steps}\n")?;
    Ok(Items::of(text.into_bytes()))
}

#[tactic(auto, unfolding(crate::specs::Told::full_report))]
fn store_full(alloc: Global, need: u64, left: u64) -> Result<Items<u8>, Memory>
    ensures { IfOk result (λ bytes. bytes ≡ full_report need left) }
{
    let text = format!(in alloc; "c2rs: store full: need {need}, left {left}\n")?;
    Ok(Items::of(text.into_bytes()))
}

#[tactic(auto, unfolding(crate::specs::Told::failed_report))]
fn host_failed(alloc: Global) -> Result<Items<u8>, Memory>
    ensures { IfOk result (λ bytes. bytes ≡ failed_report) }
{
    Items::from_slice(alloc, FAILED.as_bytes())
}

#[tactic(auto, unfolding(crate::specs::Told::refused_report))]
fn call_refused(alloc: Global, name: &Name) -> Result<Items<u8>, Memory>
    ensures { IfOk result (λ bytes. bytes ≡ refused_report name.now) }
{
    joined(alloc, "c2rs: call refused: ", name.bytes(), "\n")
}

/// A text, bytes and a text, one behind another. Refused only for want of memory.
pub fn joined(alloc: Global, before: &str, bytes: &[u8], after: &str) -> Result<Items<u8>, Memory>
    ensures { IfOk result (λ whole. whole ≡ before.now ++ (bytes.now ++ after.now)) }
{
    let mut whole = Items::from_slice(alloc, before.as_bytes())?;
    whole.append(Items::from_slice(alloc, bytes)?)?;
    whole.append(Items::from_slice(alloc, after.as_bytes())?)?;
    Ok(whole)
}

/// The line that is reported of the end of a run, with a newline. Refused only for want of memory.
pub fn report_of(alloc: Global, told: &Told<'_>) -> Result<Items<u8>, Memory>
    ensures { IfOk result (λ bytes. bytes ≡ report_of (told_of told.now)) }
{
    match told {
        Told::Ended(status) => ended(alloc, *status),
        Told::Undefined { file, line, rule } => undefined(alloc, file, *line, *rule),
        Told::Wrong(cause) => wrong(alloc, *cause),
        Told::StepsUsed(steps) => steps_used(alloc, *steps),
        Told::StoreFull { need, left } => store_full(alloc, *need, *left),
        Told::HostFailed => host_failed(alloc),
        Told::CallRefused(name) => call_refused(alloc, name),
    }
}

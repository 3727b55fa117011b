ghost use Rattle.std.specs.Prelude.{◌≡◌, ◌≤◌, IfOk, MatchResult, string_bytes};
ghost use Rattle.front.specs.Outcome.{ending_of};
ghost use Rattle.run_ends.specs.Told.{told_of};
ghost use Rattle.front.specs.Report.{IsReported, IsTold, IsWritten, not_rust, told, not_rust_report, ill_typed_report, ReportsMemory, refusal_report, program_report, whole_file_report, line_report, is_of_file, is_of_program, unread_report, unwritten_report, usage_report};

use crate::outcome::Outcome;
use cr_base::{Items, Memory, Refusal, Rule, rule_text};
use run_ends::{Told, joined, report_of};
use shelf::{Failed, Sink, write_all};
use std::alloc::Global;

const USAGE: &str =
    "c2rs: usage: transpile -o DIR FILE.. | run-c [--steps N] [--order LIST] FILE.. | run-rust [--steps N] DIR\n";

const OUT_OF_MEMORY: &str = "c2rs: out of memory\n";

/// Tells how a job ended, and answers the exit status.
pub(crate) fn tell<E: Sink>(alloc: Global, outcome: Outcome<'_>, err: &mut E) -> u8
    ensures told { IsTold (ending_of outcome.entry) (E.state err.old) (E.state err.new) result }
    ensures later { (E.state err.old).faults ≤ (E.state err.new).faults }
{
    match outcome {
        Outcome::Done => 0,
        Outcome::Refused { file, refusal } => {
            report(refusal_report(alloc, file, refusal), 1, err)
        }
        Outcome::Usage => tell_usage(err),
        Outcome::CannotRead(name) => report(unread_report(alloc, name), 3, err),
        Outcome::CannotReadPart(name) => report(unread_report(alloc, name.as_str()), 3, err),
        Outcome::CannotWrite(name) => report(unwritten_report(alloc, name.as_str()), 4, err),
        Outcome::Memory => out_of_memory(err),
        Outcome::Told(run) => tell_run(alloc, &run, err),
        Outcome::NotRust { name, line } => tell_not_rust(alloc, name.as_str(), line, err),
        Outcome::IllTyped { module, item } => {
            report_bytes(ill_typed_report(alloc, module.bytes(), item), 11, err)
        }
    }
}

// Tells that a file is none of a crate of the subset.
fn tell_not_rust<E: Sink>(alloc: Global, name: &str, line: u32, err: &mut E) -> u8
    ensures told { IsReported (not_rust name.now line) (E.state err.old) (E.state err.new) result }
    ensures later { (E.state err.old).faults ≤ (E.state err.new).faults }
{
    report(not_rust_report(alloc, name, line), 11, err)
}

// Tells the end of a run.
fn tell_run<E: Sink>(alloc: Global, run: &Told<'_>, err: &mut E) -> u8
    ensures told { IsReported (told (told_of run.now)) (E.state err.old) (E.state err.new) result }
    ensures later { (E.state err.old).faults ≤ (E.state err.new).faults }
{
    report_bytes(report_of(alloc, run), run.status(), err)
}

// The same as `report`, of bytes.
fn report_bytes<E: Sink>(bytes: Result<Items<u8>, Memory>, status: u8, err: &mut E) -> u8
    ensures told { MatchResult bytes
        (λ made. IsWritten made status (E.state err.old) (E.state err.new) result)
        (λ _. (result ≡ 10) × ReportsMemory (E.state err.old) (E.state err.new)) }
    ensures later { (E.state err.old).faults ≤ (E.state err.new).faults }
{
    match bytes {
        Ok(bytes) => write_bytes(bytes.as_slice(), status, err),
        Err(Memory) => out_of_memory(err),
    }
}

// Writes a report that was made, or tells want of memory where it wasn't.
fn report<E: Sink>(text: Result<String, Memory>, status: u8, err: &mut E) -> u8
    ensures told { MatchResult text
        (λ made. IsWritten (string_bytes made) status (E.state err.old) (E.state err.new) result)
        (λ _. (result ≡ 10) × ReportsMemory (E.state err.old) (E.state err.new)) }
    ensures later { (E.state err.old).faults ≤ (E.state err.new).faults }
{
    match text {
        Ok(text) => write_report(text.as_str(), status, err),
        Err(Memory) => out_of_memory(err),
    }
}

// Writes a report, and answers its status, or 4 where a write fails.
fn write_report<E: Sink>(text: &str, status: u8, err: &mut E) -> u8
    ensures told { IsWritten text.now status (E.state err.old) (E.state err.new) result }
    ensures later { (E.state err.old).faults ≤ (E.state err.new).faults }
{
    write_bytes(text.as_bytes(), status, err)
}

// The same, of bytes.
fn write_bytes<E: Sink>(bytes: &[u8], status: u8, err: &mut E) -> u8
    ensures told { IsWritten bytes.now status (E.state err.old) (E.state err.new) result }
    ensures later { (E.state err.old).faults ≤ (E.state err.new).faults }
{
    match write_all(err, bytes) {
        Ok(()) => status,
        Err(Failed) => 4,
    }
}

// Tells that the words are no job.
#[tactic(auto, unfolding(crate::specs::Report::usage_report))]
fn tell_usage<E: Sink>(err: &mut E) -> u8
    ensures told { IsWritten usage_report 2 (E.state err.old) (E.state err.new) result }
    ensures later { (E.state err.old).faults ≤ (E.state err.new).faults }
{
    write_report(USAGE, 2, err)
}

/// Reports want of memory to `err`, and answers the exit status 10, also where a write of the report
/// fails.
#[tactic(auto, unfolding(crate::specs::Report::memory_report))]
pub fn out_of_memory<E: Sink>(err: &mut E) -> u8
    ensures status { result ≡ 10 }
    ensures told { ReportsMemory (E.state err.old) (E.state err.new) }
    ensures later { (E.state err.old).faults ≤ (E.state err.new).faults }
{
    let _own = write_report(OUT_OF_MEMORY, 10, err);
    10
}

fn refusal_report(alloc: Global, file: &str, refusal: Refusal) -> Result<String, Memory>
    ensures { IfOk result (λ text. string_bytes text ≡ refusal_report file.now refusal) }
{
    if is_of_program(refusal.rule, refusal.line) {
        return program_report(alloc, refusal.rule);
    }
    if is_of_file(refusal.rule) {
        whole_file_report(alloc, file, refusal.rule)
    } else {
        line_report(alloc, file, refusal.line, refusal.rule)
    }
}

// Whether a refusal speaks of the whole program, and not of a file: there are too many units, or `main` is missing, which is told
// with line 0.
fn is_of_program(rule: Rule, line: u32) -> bool
    ensures { result ≡ is_of_program rule line }
{
    match rule {
        Rule::M2 => true,
        Rule::L3 => line == 0,
        _ => false,
    }
}

// Whether a rule speaks of a whole file, and not of a line.
fn is_of_file(rule: Rule) -> bool
    ensures { result ≡ is_of_file rule }
{
    matches!(rule, Rule::M1)
}

#[tactic(auto, unfolding(crate::specs::Report::program_report))]
fn program_report(alloc: Global, rule: Rule) -> Result<String, Memory>
    ensures { IfOk result (λ text. string_bytes text ≡ program_report rule) }
{
    let code = rule.code();
    let words = rule_text(rule);
    let text = format!(in alloc; "c2rs: {code}: {words}\n")?;
    Ok(text)
}

#[tactic(auto, unfolding(crate::specs::Report::whole_file_report))]
fn whole_file_report(alloc: Global, file: &str, rule: Rule) -> Result<String, Memory>
    ensures { IfOk result (λ text. string_bytes text ≡ whole_file_report file.now rule) }
{
    let code = rule.code();
    let words = rule_text(rule);
    let text = format!(in alloc; "{file}: {code}: {words}\n")?;
    Ok(text)
}

#[tactic(auto, unfolding(crate::specs::Report::line_report))]
fn line_report(alloc: Global, file: &str, line: u32, rule: Rule) -> Result<String, Memory>
    ensures { IfOk result (λ text. string_bytes text ≡ line_report file.now line rule) }
{
    let code = rule.code();
    let words = rule_text(rule);
    let text = format!(in alloc; "{file}:{line}: {code}: {words}\n")?;
    Ok(text)
}

#[tactic(auto, unfolding(crate::specs::Report::unread_report))]
fn unread_report(alloc: Global, name: &str) -> Result<String, Memory>
    ensures { IfOk result (λ text. string_bytes text ≡ unread_report name.now) }
{
    let text = format!(in alloc; "c2rs: cannot read {name}\n")?;
    Ok(text)
}

#[tactic(auto, unfolding(crate::specs::Report::unwritten_report))]
fn unwritten_report(alloc: Global, name: &str) -> Result<String, Memory>
    ensures { IfOk result (λ text. string_bytes text ≡ unwritten_report name.now) }
{
    let text = format!(in alloc; "c2rs: cannot write {name}\n")?;
    Ok(text)
}

#[tactic(auto, unfolding(crate::specs::Report::not_rust_report))]
fn not_rust_report(alloc: Global, name: &str, line: u32) -> Result<String, Memory>
    ensures { IfOk result (λ text. string_bytes text ≡ not_rust_report name.now line) }
{
    let text = format!(in alloc; "c2rs: not Rust: {name}:{line}\n")?;
    Ok(text)
}

#[tactic(auto, unfolding(crate::specs::Report::ill_typed_report))]
fn ill_typed_report(alloc: Global, name: &[u8], item: u32) -> Result<Items<u8>, Memory>
    ensures { IfOk result (λ bytes. bytes ≡ ill_typed_report name.now item) }
{
    let end = format!(in alloc; ": item {item}\n")?;
    joined(alloc, "c2rs: ill typed: ", name, end.as_str())
}

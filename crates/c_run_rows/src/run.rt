//! A run of a program as a row asks for it.

ghost use Rattle.std.specs.Prelude.{◌≡◌, ◌≤◌, []};

use crate::answer::Answer;
use crate::asked::Asked;
use crate::fault::RowFault;
use crate::host::RowHost;
use crate::store::region;
use cx_core::Program;
use cx_exec::{COutcome, CRun, run_c};
use mem_bytes::{ListStore, Store};
use std::alloc::Global;

// The most steps that a row may give.
const MOST_STEPS: u64 = 1_000_000_000;

/// Writes how a program runs.
pub(crate) fn write_run<'a>(
    alloc: Global,
    program: &Program,
    setting: &'a str,
    asked: &mut Asked<'a>,
    out: &mut Answer,
) {
    asked.begin(setting);
    let counts = counts(asked);
    let steps: u64 = asked.number();
    if steps > MOST_STEPS {
        asked.refuse();
        return;
    }
    let store = asked.word();
    if store == "list" {
        run_ordered(
            alloc,
            program,
            steps,
            &mut ListStore::new(alloc),
            counts,
            asked,
            out,
        );
    } else if let Some(mut store) = region(alloc, store, asked) {
        run_ordered(alloc, program, steps, &mut store, counts, asked, out);
    }
}

// Whether the steps are told, by the first word.
fn counts(asked: &mut Asked) -> bool {
    match asked.word() {
        "count" => true,
        "run" => false,
        _ => {
            asked.refuse();
            false
        }
    }
}

fn order(alloc: Global, word: &str, asked: &mut Asked) -> Vec<u32> {
    let mut order = Vec::new(alloc);
    if word == "leftmost" {
        return order;
    }
    for number in word.split(',') {
        let number = asked.found(number.parse().ok(), 0);
        asked.had(order.push(number));
    }
    order
}

fn run_ordered<S: Store>(
    alloc: Global,
    program: &Program,
    steps: u64,
    store: &mut S,
    counts: bool,
    asked: &mut Asked,
    out: &mut Answer,
)
    requires steps { steps ≤ MOST_STEPS }
    requires empty { S.memory store.old ≡ [] }
{
    let word = asked.word();
    let order = order(alloc, word, asked);
    let mut host = RowHost::asked(alloc, asked);
    run_hosted(
        alloc,
        program,
        steps,
        store,
        counts,
        order.as_slice(),
        &mut host,
        asked,
        out,
    );
}

// Runs a program over a store, under an order, with the answers of a host.
fn run_hosted<S: Store>(
    alloc: Global,
    program: &Program,
    steps: u64,
    store: &mut S,
    counts: bool,
    order: &[u32],
    host: &mut RowHost,
    asked: &mut Asked,
    out: &mut Answer,
)
    requires steps { steps ≤ MOST_STEPS }
    requires empty { S.memory store.old ≡ [] }
{
    match run_c(alloc, program, order, steps, store, host) {
        Ok(run) => {
            write_ended(&run, counts, out);
            host.write_made(out);
        }
        Err(_) => asked.fail(RowFault::Memory),
    }
}

fn write_ended(run: &CRun, counts: bool, out: &mut Answer) {
    write_outcome(&run.outcome, out);
    if counts {
        out.text(" in ");
        out.value(run.steps);
        out.text(" steps");
    }
    if !run.trail.is_empty() {
        out.text(", taking");
    }
    for answer in run.trail.as_slice() {
        out.text(" ");
        out.value(*answer);
    }
}

fn write_outcome(outcome: &COutcome, out: &mut Answer) {
    match outcome {
        COutcome::Ended(status) => {
            out.text("ended ");
            out.value(*status);
        }
        COutcome::Undefined { rule, unit, line } => {
            out.variant(*rule);
            out.text(" on line ");
            out.value(*line);
            out.text(" of unit ");
            out.value(*unit);
        }
        COutcome::StepsUsed => out.text("steps used"),
        COutcome::StoreFull { need, left } => {
            out.text("store full ");
            out.value(*need);
            out.text(" ");
            out.value(*left);
        }
        COutcome::HostRefused(name) => {
            out.text("refused ");
            out.bytes(name.bytes());
        }
        COutcome::HostFault => out.text("host failed"),
    }
}

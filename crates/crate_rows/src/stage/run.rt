//! `run STEPS STORE HOST | TEXT`: how the crate of one module of this text runs within a budget of so many units. The store
//! is `list`, without limit, or `region:BYTES:BLOCKS`, which holds so many bytes and live blocks. The host is `refuse`, which
//! takes no call, or `ANSWERS` or `ANSWERS / FAILS` as in `host`. The answer is how the run came out, how many units it
//! took, the answers that it took, and the calls that it made, each with its answer.

ghost use Rattle.std.specs.Prelude.{◌≡◌, ◌≤◌, [], IsTrue};
ghost use Rattle.rs_mean.specs.Typing.{well_typed};
ghost use Rattle.rs_text.specs.Valid.{valid_crate};
ghost use Rattle.rs_tree.specs.Views.{crate_view};

use crate::stage::crates::{module_asked, read, write_ill};
use ext_calls::{Call, Host, HostFault, ScriptHost};
use mem_bytes::{ListStore, Store};
use row_words::{Answer, Asked, RowFault, first_step, region, write_made};
use rs_exec::{ROutcome, RRun, run_rust};
use rs_tree::Crate;
use rs_types::check_crate;
use std::alloc::Global;

// The most units that a row may give.
const MOST_STEPS: u64 = 1_000_000_000;

/// A host that takes no call.
#[derive(Drop)]
struct NoHost;

impl Host for NoHost {
    ghost use Rattle.std.specs.Prelude.{Some, [], false};

    ghost state = { λ host. record { made = Some []; left = Some []; takes = λ call. false; faults = 0 } };

    fn answer(&mut self, _call: &Call) -> Result<i64, HostFault> {
        Err(HostFault::Refused)
    }
}

pub(crate) fn answer(alloc: Global, asked: &mut Asked, out: &mut Answer) {
    let setting = first_step(asked);
    let list = module_asked(alloc, asked);
    let Some(whole) = read(alloc, list, asked, out) else {
        return;
    };
    match check_crate(&whole) {
        Ok(()) => {
            asked.begin(setting);
            run_stored(alloc, &whole, asked, out);
        }
        Err(fault) => write_ill(fault, asked, out),
    }
}

// Runs a crate over the store that is asked.
fn run_stored(alloc: Global, whole: &Crate, asked: &mut Asked, out: &mut Answer)
    requires valid { IsTrue (valid_crate (crate_view whole.now)) }
    requires typed { IsTrue (well_typed (crate_view whole.now)) }
{
    let steps: u64 = asked.number();
    if steps > MOST_STEPS {
        asked.refuse();
        return;
    }
    let store = asked.word();
    if store == "list" {
        run_hosted(alloc, whole, steps, &mut ListStore::new(alloc), asked, out);
    } else {
        run_in_region(alloc, whole, steps, store, asked, out);
    }
}

// Runs a crate over a store in a region, by `region:BYTES:BLOCKS`.
fn run_in_region(
    alloc: Global,
    whole: &Crate,
    steps: u64,
    sizes: &str,
    asked: &mut Asked,
    out: &mut Answer,
)
    requires valid { IsTrue (valid_crate (crate_view whole.now)) }
    requires typed { IsTrue (well_typed (crate_view whole.now)) }
    requires steps { steps ≤ MOST_STEPS }
{
    let sizes = sizes.strip_prefix("region:").unwrap_or("");
    let (bytes, blocks) = sizes.split_once(':').unwrap_or(("", ""));
    let bytes = asked.found(bytes.parse().ok(), 0);
    let blocks = asked.found(blocks.parse().ok(), 0);
    if let Some(mut store) = region(alloc, bytes, blocks, asked) {
        run_hosted(alloc, whole, steps, &mut store, asked, out);
    }
}

// Runs a crate with the answers of the host that is asked.
fn run_hosted<S: Store>(
    alloc: Global,
    whole: &Crate,
    steps: u64,
    store: &mut S,
    asked: &mut Asked,
    out: &mut Answer,
)
    requires valid { IsTrue (valid_crate (crate_view whole.now)) }
    requires typed { IsTrue (well_typed (crate_view whole.now)) }
    requires steps { steps ≤ MOST_STEPS }
    requires empty { S.memory store.old ≡ [] }
{
    if asked.rest() == "refuse" {
        run(alloc, whole, steps, store, &mut NoHost, asked, out);
    } else {
        run_scripted(alloc, whole, steps, store, script(alloc, asked), asked, out);
    }
}

// The host that is asked, by its answers and the numbers of the calls that fail.
fn script(alloc: Global, asked: &mut Asked) -> ScriptHost {
    let (answers, fails) = asked.rest().split_once(" / ").unwrap_or((asked.rest(), ""));
    asked.begin(answers);
    let answers = asked.numbers(alloc);
    asked.begin(fails);
    ScriptHost::new(answers, asked.numbers(alloc))
}

// Runs a crate with the answers of a host, and writes the calls that it made.
fn run_scripted<S: Store>(
    alloc: Global,
    whole: &Crate,
    steps: u64,
    store: &mut S,
    host: ScriptHost,
    asked: &mut Asked,
    out: &mut Answer,
)
    requires valid { IsTrue (valid_crate (crate_view whole.now)) }
    requires typed { IsTrue (well_typed (crate_view whole.now)) }
    requires steps { steps ≤ MOST_STEPS }
    requires empty { S.memory store.old ≡ [] }
{
    let mut host = host;
    run(alloc, whole, steps, store, &mut host, asked, out);
    for made in host.made() {
        write_made(made, out);
    }
}

fn run<S: Store, H: Host>(
    alloc: Global,
    whole: &Crate,
    steps: u64,
    store: &mut S,
    host: &mut H,
    asked: &mut Asked,
    out: &mut Answer,
)
    requires valid { IsTrue (valid_crate (crate_view whole.now)) }
    requires typed { IsTrue (well_typed (crate_view whole.now)) }
    requires steps { steps ≤ MOST_STEPS }
    requires empty { S.memory store.old ≡ [] }
{
    match run_rust(alloc, whole, steps, store, host) {
        Ok(run) => write_run(&run, out),
        Err(_) => asked.fail(RowFault::Memory),
    }
}

fn write_run(run: &RRun, out: &mut Answer) {
    write_outcome(&run.outcome, out);
    out.text(" (");
    out.value(run.steps);
    out.text(" units)");
    for answer in run.trail.as_slice() {
        out.text(" ");
        out.value(*answer);
    }
}

fn write_outcome(outcome: &ROutcome, out: &mut Answer) {
    match outcome {
        ROutcome::Ended(status) => {
            out.text("ended ");
            out.value(*status);
        }
        ROutcome::Wrong(why) => {
            out.text("wrong ");
            out.variant(*why);
        }
        ROutcome::StepsUsed => out.text("units used"),
        ROutcome::StoreFull { need, left } => {
            out.text("store full ");
            out.value(*need);
            out.text(" ");
            out.value(*left);
        }
        ROutcome::HostRefused(name) => {
            out.text("refused ");
            out.bytes(name.bytes());
        }
        ROutcome::HostFault => out.text("host failed"),
    }
}

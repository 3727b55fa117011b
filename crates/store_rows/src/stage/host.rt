//! `host ANSWERS | CALL | CALL ..`: what a host that never fails, with these answers to come, answers to each
//! call; `host ANSWERS / FAILS | CALL ..`: what one answers that fails at the calls with these numbers. Behind
//! each answer stand the numbers of calls that failed so far, of answers left and of calls made, and behind all
//! the calls made, each with its answer. A call is `NAME ARGUMENT ..`; an argument is `TYPE:NUMBER`, whose type
//! is one of `scalar`, or `text:TEXT`.

use cr_base::{Items, Name, Scalar};
use ext_calls::{Arg, Call, Host, HostFault, Made, ScriptHost, SureHost, answer_surely};
use row_words::{Answer, Asked, Steps, answer_steps, first_step, scalar_of, write_made};
use std::alloc::Global;

pub(crate) fn answer(alloc: Global, asked: &mut Asked, out: &mut Answer) {
    let script = first_step(asked);
    let calls = asked.rest();
    let (answers, fails) = script.split_once(" / ").unwrap_or((script, ""));
    asked.begin(answers);
    let answers = asked.numbers(alloc);
    asked.begin(fails);
    if fails.is_empty() {
        ask_all(alloc, SureHost::new(answers), asked, calls, out);
    } else {
        let host = ScriptHost::new(answers, asked.numbers(alloc));
        ask_all(alloc, host, asked, calls, out);
    }
}

// A host that tells what became of its calls.
trait Told: Drop {
    fn ask(&mut self, call: &Call) -> Result<i64, HostFault>;

    fn failed(&self) -> u64;

    fn answers_left(&self) -> usize;

    fn calls_made(&self) -> &[Made];
}

impl Told for SureHost {
    fn ask(&mut self, call: &Call) -> Result<i64, HostFault> {
        answer_surely(self, call)
    }

    fn failed(&self) -> u64 {
        0
    }

    fn answers_left(&self) -> usize {
        self.left().len()
    }

    fn calls_made(&self) -> &[Made] {
        self.made()
    }
}

impl Told for ScriptHost {
    fn ask(&mut self, call: &Call) -> Result<i64, HostFault> {
        self.answer(call)
    }

    fn failed(&self) -> u64 {
        self.faults()
    }

    fn answers_left(&self) -> usize {
        self.left().len()
    }

    fn calls_made(&self) -> &[Made] {
        self.made()
    }
}

#[derive(Drop)]
struct Asking<H> {
    host: H,
}

fn ask_all<'a, H: Told>(
    alloc: Global,
    host: H,
    asked: &mut Asked<'a>,
    calls: &'a str,
    out: &mut Answer,
) {
    let mut asking = Asking { host };
    asked.begin(calls);
    answer_steps(&mut asking, alloc, asked, out);
    for made in asking.host.calls_made() {
        write_made(made, out);
    }
}

impl<H: Told> Steps for Asking<H> {
    fn step(&mut self, alloc: Global, asked: &mut Asked<'_>, out: &mut Answer) {
        let call = call(alloc, asked);
        out.separate();
        match self.host.ask(&call) {
            Ok(answer) => out.value(answer),
            Err(fault) => out.variant(fault),
        }
        write_counts(&self.host, out);
    }
}

fn write_counts<H: Told>(host: &H, out: &mut Answer) {
    out.text(" (");
    out.value(host.failed());
    out.text(" failed, ");
    out.value(host.answers_left());
    out.text(" left, ");
    out.value(host.calls_made().len());
    out.text(" made)");
}

fn call(alloc: Global, asked: &mut Asked) -> Call {
    let name = asked.word();
    let args = args(alloc, asked);
    asked.begin(name);
    Call {
        name: Name::of(asked.bytes(alloc)),
        args,
    }
}

fn args(alloc: Global, asked: &mut Asked) -> Items<Arg> {
    let mut args = Items::new(alloc);
    for word in asked.rest().split_ascii_whitespace() {
        asked.begin(word);
        let arg = arg(alloc, asked);
        asked.had(args.push(arg));
    }
    args
}

fn arg(alloc: Global, asked: &mut Asked) -> Arg {
    let (ty, value) = asked.rest().split_once(':').unwrap_or(("", ""));
    asked.begin(value);
    if ty == "text" {
        return Arg::Text(Name::of(asked.bytes(alloc)));
    }
    Arg::Whole {
        scalar: asked.found(scalar_of(ty), Scalar::Truth),
        value: asked.number(),
    }
}

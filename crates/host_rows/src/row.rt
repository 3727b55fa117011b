use crate::answer::Answer;
use crate::asked::Asked;
use crate::call::calls;
use crate::fault::RowFault;
use cr_base::{Items, Memory};
use ext_calls::{Call, Host, HostFault};
use shelf::{MemSink, MemSource};
use std::alloc::{AllocError, Global};
use std_host::{StdHost, out_of};

/// The answer to a row.
pub fn answer_to(alloc: Global, row: &str) -> Result<String, AllocError> {
    let mut out = Answer::new(alloc);
    if row.is_empty() || row.starts_with('#') {
        out.text(row);
    } else if let Some(fault) = write_answer(alloc, row, &mut out) {
        write_fault(fault, &mut out);
    }
    out.finish()
}

fn write_answer(alloc: Global, row: &str, out: &mut Answer) -> Option<RowFault> {
    let Some((outside, text)) = row.split_once(" | ") else {
        return Some(RowFault::Form);
    };
    let mut asked = Asked::new(outside);
    let host = host(alloc, &mut asked);
    let calls = calls(alloc, text, &mut asked);
    write_calls(host, calls.as_slice(), out);
    write_output(out_of(alloc, calls.as_slice()), &mut asked, out);
    asked.fault()
}

// The host that a row asks for.
fn host(alloc: Global, asked: &mut Asked) -> StdHost<MemSource, MemSink> {
    let input = asked.word();
    let reads = asked.word();
    let writes = asked.word();
    let most = asked.number();
    let reads = numbers(alloc, reads, asked);
    let source = MemSource::new(text(alloc, input, asked), reads);
    let sink = MemSink::new(numbers(alloc, writes, asked), most);
    StdHost::new(alloc, source, sink)
}

// The bytes of a word that begins with `'`.
fn text<'a>(alloc: Global, word: &'a str, asked: &mut Asked<'a>) -> Vec<u8> {
    let text = asked.found(word.strip_prefix("'"), "");
    asked.begin(text);
    asked.bytes(alloc)
}

// The numbers of a word, which commas separate; none for `-`.
fn numbers(alloc: Global, word: &str, asked: &mut Asked) -> Vec<u64> {
    let mut numbers = Vec::new(alloc);
    if word == "-" {
        return numbers;
    }
    for digits in word.split(',') {
        let number = asked.found(digits.parse().ok(), 0);
        asked.had(numbers.push(number));
    }
    numbers
}

// Makes the calls, and writes the answers and what the sink has taken then.
fn write_calls(mut host: StdHost<MemSource, MemSink>, calls: &[Call], out: &mut Answer) {
    for call in calls {
        write_outcome(host.answer(call), out);
        out.text(" ");
    }
    out.text("| ");
    match host.output().written() {
        Some(written) => out.bytes(written),
        None => out.text("not told"),
    }
}

fn write_outcome(outcome: Result<i64, HostFault>, out: &mut Answer) {
    match outcome {
        Ok(answer) => out.value(answer),
        Err(HostFault::Failed) => out.text("failed"),
        Err(HostFault::Refused) => out.text("refused"),
        Err(HostFault::Memory) => out.text("memory"),
    }
}

fn write_output(output: Result<Option<Items<u8>>, Memory>, asked: &mut Asked, out: &mut Answer) {
    out.text(" | ");
    match asked.had(output) {
        Some(Some(bytes)) => out.bytes(bytes.as_slice()),
        Some(None) => out.text("none"),
        None => {}
    }
}

fn write_fault(fault: RowFault, out: &mut Answer) {
    match fault {
        RowFault::Form => out.replace("no answer: not the form of a row"),
        RowFault::Memory => out.replace("no answer: out of memory"),
    }
}

//! `surely FILE TEXT`: the job `transpile -o out FILE` over a shelf that holds this file, over streams and a host that never fail: its exit status,
//! the status of want of memory told behind it, what was told, and the module of the crate, if there is one.

use crate::stage::files::{hold, words};
use crate::stage::transpile::write_file;
use ext_calls::SureHost;
use front::{out_of_memory, run_surely};
use row_words::{Answer, Asked};
use shelf::{SureShelf, SureSink};
use std::alloc::Global;
use straight_items::stem_of;

pub(crate) fn answer(alloc: Global, asked: &mut Asked, out: &mut Answer) {
    let unit = asked.rest();
    let mut files = Vec::new(alloc);
    hold(alloc, asked, &mut files);
    asked.begin(unit);
    let name = asked.word();
    let mut shelf = SureShelf::new(files);
    run_over(alloc, name, &mut shelf, asked, out);
    if let Some(module) = asked.had(format!(in alloc; "out/src/{}.rs", stem_of(name))) {
        write_file(&mut shelf, module.as_str(), out);
    }
}

fn run_over(alloc: Global, name: &str, shelf: &mut SureShelf, asked: &mut Asked, out: &mut Answer) {
    asked.begin("transpile -o out");
    let mut job = words(alloc, asked);
    let name = asked.string(alloc, name);
    asked.had(job.push(name));
    let mut output = SureSink::new(alloc);
    let mut report = SureSink::new(alloc);
    let mut host = SureHost::new(Vec::new(alloc));
    let status = run_surely(
        alloc,
        job.as_slice(),
        shelf,
        &mut output,
        &mut report,
        &mut host,
    );
    out.value(status);
    out.text(" and ");
    out.value(out_of_memory(&mut report));
    out.text(" ");
    out.quoted(report.written().unwrap_or(&[]));
}

//! The program `c2rs`: does the job that its words ask for, over the files of the system, standard
//! output and standard error. A program that it runs reads standard input and writes standard output.
#![tactic(auto)]

use front::run_given;
use shelf::{DiskShelf, StdSink, StdSource};
use std::process::ExitCode;
use std::rt::Env;
use std::{env, io};
use std_host::StdHost;

fn main(rt: HostRuntime) -> ExitCode {
    let mut shelf = DiskShelf::new(rt.alloc(), &rt);
    let mut out = StdSink::new(rt.stdout());
    let mut err = StdSink::new(rt.stderr());
    let input = StdSource::new(rt.stdin());
    // What a program writes is out when its call is answered, so before a report.
    let mut host = StdHost::new(rt.alloc(), input, StdSink::new(rt.stdout()));
    let status = run_given(
        rt.alloc(),
        words(&rt),
        &mut shelf,
        &mut out,
        &mut err,
        &mut host,
    );
    ExitCode::from(status)
}

// The words after the program's name, as the system gives them.
fn words<R: Env + AllocGlobal>(rt: &R) -> io::Result<Vec<String>> {
    let words = env::args(rt)?.skip(1).collect(rt.alloc())?;
    Ok(words)
}

//! `crate NAME TEXT | NAME TEXT ..`: the crate that files of these names and texts read as, by its own files, as
//! `NAME TEXT | NAME TEXT ..`, or `not Rust: FILE:LINE`, with the number of the file in the list; `module TEXT`: the same where
//! `src/a.rs` has this text and `Cargo.toml` and `src/main.rs`, which stand before it, are those of a crate of this one module, and
//! then the text of the module alone; `modules TEXT`: the names of the modules that `main.rs` of this text declares.
//!
//! `check NAME TEXT | NAME TEXT ..` and `typed TEXT`: whether the same crates are well typed, as `well typed` or
//! `ill typed: MODULE: item ITEM`, with the numbers of the first item that isn't.

ghost use Rattle.std.specs.Prelude.{IsTrue, IfSome};
ghost use Rattle.rs_text.specs.Valid.{valid_crate};
ghost use Rattle.rs_tree.specs.Views.{crate_view};

use cr_base::{Items, Memory, Text};
use row_words::{Answer, Asked, RowFault};
use rs_parse::{ReadFault, mod_names, read_crate};
use rs_print::{print, valid_crates_are_printable};
use rs_tree::{Crate, Files};
use rs_types::{TypeFault, check_crate};
use shelf::File;
use std::alloc::Global;

const CARGO: &str = "[package]\nname = \"translated\"\nversion = \"0.0.0\"\nedition = \"2021\"\n";

const MAIN: &str =
    "#![allow(unconditional_panic, arithmetic_overflow)]\nmod a;\nfn main() {\n    unsafe {\n        crate::a::run_static_initializers();\n        std::process::exit(crate::a::main_0());\n    }\n}\n";

pub(crate) fn answer(alloc: Global, asked: &mut Asked, out: &mut Answer) {
    let list = files_asked(alloc, asked);
    if let Some(whole) = read(alloc, list, asked, out) {
        write_files(alloc, &whole, asked, out);
    }
}

pub(crate) fn answer_module(alloc: Global, asked: &mut Asked, out: &mut Answer) {
    let list = module_asked(alloc, asked);
    if let Some(whole) = read(alloc, list, asked, out) {
        write_first(alloc, &whole, asked, out);
    }
}

pub(crate) fn answer_check(alloc: Global, asked: &mut Asked, out: &mut Answer) {
    let list = files_asked(alloc, asked);
    if let Some(whole) = read(alloc, list, asked, out) {
        write_check(&whole, asked, out);
    }
}

pub(crate) fn answer_typed(alloc: Global, asked: &mut Asked, out: &mut Answer) {
    let list = module_asked(alloc, asked);
    if let Some(whole) = read(alloc, list, asked, out) {
        write_check(&whole, asked, out);
    }
}

// The files that a row names.
fn files_asked(alloc: Global, asked: &mut Asked) -> Items<File> {
    let mut list = Items::new(alloc);
    for step in asked.rest().split(" | ") {
        asked.begin(step);
        let name = asked.word();
        let bytes = Items::of(asked.bytes(alloc));
        push_file(alloc, &mut list, name, bytes, asked);
    }
    list
}

/// The files of a crate of one module, of which a row has the text.
pub(crate) fn module_asked(alloc: Global, asked: &mut Asked) -> Items<File> {
    let bytes = Items::of(asked.bytes(alloc));
    let mut list = Items::new(alloc);
    push_text(alloc, &mut list, "Cargo.toml", CARGO, asked);
    push_text(alloc, &mut list, "src/main.rs", MAIN, asked);
    push_file(alloc, &mut list, "src/a.rs", bytes, asked);
    list
}

// Writes whether a crate is well typed.
fn write_check(whole: &Crate, asked: &mut Asked, out: &mut Answer)
    requires { IsTrue (valid_crate (crate_view whole.now)) }
{
    match check_crate(whole) {
        Ok(()) => out.text("well typed"),
        Err(fault) => write_ill(fault, asked, out),
    }
}

/// Writes why a crate isn't well typed.
pub(crate) fn write_ill(fault: TypeFault, asked: &mut Asked, out: &mut Answer) {
    match fault {
        TypeFault::IllTyped { module, item } => {
            out.text("ill typed: ");
            out.value(module);
            out.text(": item ");
            out.value(item);
        }
        TypeFault::Memory => asked.fail(RowFault::Memory),
    }
}

pub(crate) fn answer_modules(alloc: Global, asked: &mut Asked, out: &mut Answer) {
    let bytes = asked.bytes(alloc);
    match mod_names(alloc, bytes.as_slice()) {
        Ok(names) => {
            for name in names.as_slice() {
                out.separate_words();
                out.bytes(name.bytes());
            }
        }
        Err(fault) => write_fault(fault, asked, out),
    }
}

fn push_text(alloc: Global, list: &mut Items<File>, name: &str, text: &str, asked: &mut Asked) {
    if let Some(bytes) = asked.had(Items::from_slice(alloc, text.as_bytes())) {
        push_file(alloc, list, name, bytes, asked);
    }
}

fn push_file(
    alloc: Global,
    list: &mut Items<File>,
    name: &str,
    bytes: Items<u8>,
    asked: &mut Asked,
) {
    if let Some(name) = asked.had(Text::from_str(alloc, name)) {
        asked.had(list.push(File { name, bytes }));
    }
}

/// The crate that files read as, which is valid.
pub(crate) fn read(
    alloc: Global,
    list: Items<File>,
    asked: &mut Asked,
    out: &mut Answer,
) -> Option<Crate>
    ensures { IfSome result (λ whole. IsTrue (valid_crate (crate_view whole))) }
{
    match read_crate(alloc, &Files { list }) {
        Ok(whole) => Some(whole),
        Err(fault) => {
            write_fault(fault, asked, out);
            None
        }
    }
}

fn write_fault(fault: ReadFault, asked: &mut Asked, out: &mut Answer) {
    match fault {
        ReadFault::NotRust { file, line } => {
            out.text("not Rust: ");
            out.value(file);
            out.text(":");
            out.value(line);
        }
        ReadFault::Memory => asked.fail(RowFault::Memory),
    }
}

// The files of a crate.
fn printed(alloc: Global, whole: &Crate) -> Result<Files, Memory>
    requires { IsTrue (valid_crate (crate_view whole.now)) }
{
    valid_crates_are_printable();
    print(alloc, whole)
}

fn write_files(alloc: Global, whole: &Crate, asked: &mut Asked, out: &mut Answer)
    requires { IsTrue (valid_crate (crate_view whole.now)) }
{
    if let Some(files) = asked.had(printed(alloc, whole)) {
        for file in files.list.as_slice() {
            out.separate();
            out.text(file.name.as_str());
            out.text(" ");
            out.bytes(file.bytes.as_slice());
        }
    }
}

// Writes the text of the first module.
fn write_first(alloc: Global, whole: &Crate, asked: &mut Asked, out: &mut Answer)
    requires { IsTrue (valid_crate (crate_view whole.now)) }
{
    if let Some(files) = asked.had(printed(alloc, whole)) {
        if let Some(file) = files.list.get(0) {
            out.bytes(file.bytes.as_slice());
        }
    }
}

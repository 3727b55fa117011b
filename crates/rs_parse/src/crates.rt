//! Reading of the files of a crate.

ghost use Rattle.std.specs.Prelude.{◌≡◌, ◌<◌, ◌&&◌, not, map, codes, length, IfOk, IsTrue, if◌then◌else◌};
ghost use Rattle.std.specs.Option.{is_none};
ghost use Rattle.std.specs.List.{list_any};
ghost use Rattle.rs_parse.specs.Crates.{IfNotRust, IsAtFault};
ghost use Rattle.rs_parse.specs.Crates as crates;
ghost use Rattle.rs_parse.specs.Reading.{AreModulesRead, IsAt, IsCrateRead, IsHeaded, IsMainOf, IsModuleAt, IsModuleRead, IsOnly};
ghost use Rattle.rs_text.specs.Lines.{module_names};
ghost use Rattle.rs_text.specs.Reads.{ReadsAs};
ghost use Rattle.rs_text.specs.Text.{cargo_path, main_path};
ghost use Rattle.rs_text.specs.Tree.{CrateTree};
ghost use Rattle.rs_text.specs.Valid.{is_function};
ghost use Rattle.rs_tree.specs.Views.{item_view, crate_view};

use crate::cargo::other_cargo_line;
use crate::fault::ReadFault;
use crate::module::read_items;
use crate::names::{are_of_modules, only_file, only_module_file};
use crate::outline::outline_of;
use cr_base::{Items, Memory, Name};
use rs_tree::{Crate, Files, Item, Module};
use rs_valid::have_main;
use shelf::File;
use std::alloc::Global;

// A fault on a line of the file with this number; more than 2^32 files are want of memory.
fn at_file(number: usize, line: u32) -> ReadFault
    ensures { IsAt result number }
{
    match u32::try_from(number) {
        Ok(file) => ReadFault::NotRust { file, line },
        Err(_) => ReadFault::Memory,
    }
}

// The fault of `main.rs`, or of `Cargo.toml` where a line of that is wrong.
fn head_fault(cargo: usize, cargo_line: Option<u32>, main: usize, main_line: u32) -> ReadFault
    ensures { IsAt result (if is_none cargo_line then main else cargo) }
{
    match cargo_line {
        Some(line) => at_file(cargo, line),
        None => at_file(main, main_line),
    }
}

// Whether items are those of the entry and have no `main_0`.
fn lacks_main(is_entry: bool, items: &[Item]) -> bool
    ensures { result ≡ (is_entry && not (list_any (is_function (codes "main_0")) (map item_view items.now))) }
{
    is_entry && !have_main(items)
}

// The module of a name whose file has this number, where its file is that of a module, and has `main_0`
// where the module is the entry.
fn module_at(
    alloc: Global,
    files: &[File],
    number: usize,
    name: &Name,
    is_entry: bool,
) -> Result<Module, ReadFault>
    requires { number < length files.now }
    ensures { IsModuleAt files.now number name.now is_entry result }
{
    let items = match read_items(alloc, files[number].bytes.as_slice()) {
        Err(ReadFault::Memory) => return Err(ReadFault::Memory),
        Err(ReadFault::NotRust { line, .. }) => return Err(at_file(number, line)),
        Ok(items) => items,
    };
    if lacks_main(is_entry, items.as_slice()) {
        return Err(at_file(number, 1));
    }
    let name = name.copy()?;
    Ok(Module { name, items })
}

// The module with a number of those that `main.rs` names.
fn read_module(
    alloc: Global,
    files: &[File],
    outline: &Crate,
    index: usize,
) -> Result<Module, ReadFault>
    requires within { index < length outline.now.modules }
    requires named { IsTrue (crates.are_of_modules files.now (module_names (crate_view outline.now))) }
    ensures { IsModuleRead files.now (crate_view outline.now) index result }
{
    let name = &outline.modules.as_slice()[index].name;
    let Some(number) = only_module_file(alloc, files, name)? else {
        unreachable!()
    };
    module_at(alloc, files, number, name, index == outline.entry as usize)
}

// The modules that `main.rs` names.
fn read_modules(alloc: Global, files: &[File], outline: &Crate) -> Result<Items<Module>, ReadFault>
    requires { IsTrue (crates.are_of_modules files.now (module_names (crate_view outline.now))) }
    ensures { AreModulesRead files.now (crate_view outline.now) result }
{
    let mut modules = Items::new(alloc);
    for index in 0..outline.modules.len() {
        match read_module(alloc, files, outline, index) {
            Err(fault) => return Err(fault),
            Ok(module) => modules.push(module)?,
        }
    }
    Ok(modules)
}

// The crate of an outline, where `Cargo.toml` and `main.rs` have these numbers.
fn read_outlined(
    alloc: Global,
    files: &[File],
    outline: Crate,
    cargo: usize,
    cargo_line: Option<u32>,
) -> Result<Crate, ReadFault>
    requires cargo { IsHeaded files.now cargo cargo_line }
    requires main { IsMainOf files.now (crate_view outline) }
    ensures { IsCrateRead files.now result }
{
    if !are_of_modules(alloc, files, outline.modules.as_slice())? {
        return Err(ReadFault::NotRust { file: 0, line: 1 });
    }
    if let Some(line) = cargo_line {
        return Err(at_file(cargo, line));
    }
    match read_modules(alloc, files, &outline) {
        Err(fault) => Err(fault),
        Ok(modules) => Ok(Crate {
            modules,
            entry: outline.entry,
        }),
    }
}

// The crate of files of which `Cargo.toml` and `main.rs` have these numbers.
fn read_headed(alloc: Global, files: &[File], cargo: usize, main: usize) -> Result<Crate, ReadFault>
    requires cargo { IsOnly files.now cargo_path cargo }
    requires main { IsOnly files.now main_path main }
    ensures { IsCrateRead files.now result }
{
    let cargo_line = other_cargo_line(alloc, files[cargo].bytes.as_slice())?;
    match outline_of(alloc, files[main].bytes.as_slice()) {
        Err(ReadFault::Memory) => Err(ReadFault::Memory),
        Err(ReadFault::NotRust { line, .. }) => Err(head_fault(cargo, cargo_line, main, line)),
        Ok(outline) => read_outlined(alloc, files, outline, cargo, cargo_line),
    }
}

fn read_files(alloc: Global, files: &[File]) -> Result<Crate, ReadFault>
    ensures { IsCrateRead files.now result }
{
    let Some(cargo) = only_file(files, b"Cargo.toml") else {
        return Err(ReadFault::NotRust { file: 0, line: 1 });
    };
    let Some(main) = only_file(files, b"src/main.rs") else {
        return Err(ReadFault::NotRust { file: 0, line: 1 });
    };
    read_headed(alloc, files, cargo, main)
}

/// The one crate whose tokens are those of the files, in whatever order these are. `NotRust` says that there
/// is none, and which file is at fault: 0 where `Cargo.toml` or `src/main.rs` isn't there once, or where the
/// others aren't the files of the modules that `main.rs` names; otherwise the first one, in the order
/// `Cargo.toml`, `src/main.rs` and the modules as `main.rs` names them, such that no crate has its tokens and
/// those of the files before it.
pub fn read_crate(alloc: Global, files: &Files) -> Result<Crate, ReadFault>
    ensures found { IfOk result (λ whole. ReadsAs files.now.list (crate_view whole)) }
    ensures refused { IfNotRust result (λ file. (whole : CrateTree) → ReadsAs files.now.list whole → ⊥) }
    ensures file { IfNotRust result (IsAtFault files.now.list) }
{
    let whole = read_files(alloc, files.list.as_slice())?;
    Ok(whole)
}

ghost use Rattle.std.specs.Prelude.{◌≡◌, ◌∷◌, [], ◌++◌, map, IfOk, IsTrue, IsUtf8, IsOk};
ghost use Rattle.rs_text.specs.Lines.{main_lines, cargo_lines, text_of_lines};
ghost use Rattle.rs_text.specs.Names.{is_word};
ghost use Rattle.rs_text.specs.Text.{module_path, module_file, main_path, cargo_path, file_of, text_of};
ghost use Rattle.rs_print.specs.Condition.{have_words, IsPrintable};
ghost use Rattle.rs_tree.specs.Views.{module_view, crate_view};

use crate::bytes::bytes_of;
use cr_base::{Items, Memory, Name, Text};
use rs_tree::{Crate, Files, Line, Module, cargo_lines, main_lines, module_lines};
use shelf::File;
use std::alloc::Global;

/// All files of a crate, in the order in which they are put: a file for each module, `src/main.rs`,
/// `Cargo.toml`. The names of the modules are words, as those of every valid crate are. Refused only
/// for want of memory.
pub fn print(alloc: Global, whole: &Crate) -> Result<Files, Memory>
    requires { IsPrintable (crate_view whole.now) }
    ensures { IfOk result (λ files. files.list ≡ text_of (crate_view whole.now)) }
{
    let mut list = module_files(alloc, whole.modules.as_slice())?;
    list.push(main_file(alloc, whole)?)?;
    list.push(cargo_file(alloc)?)?;
    Ok(Files { list })
}

fn module_files(alloc: Global, modules: &[Module]) -> Result<Items<File>, Memory>
    requires { IsTrue (have_words (map module_view modules.now)) }
    ensures { IfOk result (λ files. files ≡ map module_file (map module_view modules.now)) }
{
    let mut files = Items::new(alloc);
    for module in modules {
        files.push(module_file(alloc, module)?)?;
    }
    Ok(files)
}

fn module_file(alloc: Global, module: &Module) -> Result<File, Memory>
    requires { IsTrue (is_word (module_view «module».now).name) }
    ensures { IfOk result (λ file. file ≡ module_file (module_view «module».now)) }
{
    let name = module_path(alloc, &module.name)?;
    let lines = module_lines(alloc, module)?;
    let bytes = bytes_of(alloc, lines.as_slice())?;
    Ok(File { name, bytes })
}

// The path of a module's file.
fn module_path(alloc: Global, name: &Name) -> Result<Text, Memory>
    requires { IsTrue (is_word name.now) }
    ensures { IfOk result (λ path. path ≡ module_path name.now) }
{
    let mut bytes = Vec::from_slice(alloc, b"src/")?;
    bytes.extend_from_slice(name.bytes())?;
    bytes.extend_from_slice(b".rs")?;
    Ok(text_of_bytes(bytes))
}

// The text of bytes that are UTF-8.
fn text_of_bytes(bytes: Vec<u8>) -> Text
    requires { IsUtf8 bytes.items }
    ensures { result ≡ bytes.items }
{
    match String::from_utf8(bytes) {
        Ok(string) => Text::of(string),
        Err(_error) => unreachable!(),
    }
}

fn main_file(alloc: Global, whole: &Crate) -> Result<File, Memory>
    ensures { IfOk result (λ file. file ≡ file_of main_path (text_of_lines (main_lines (crate_view whole.now)))) }
{
    let lines = main_lines(alloc, whole)?;
    named(alloc, "src/main.rs", lines.as_slice())
}

fn cargo_file(alloc: Global) -> Result<File, Memory>
    ensures { IfOk result (λ file. file ≡ file_of cargo_path (text_of_lines cargo_lines)) }
{
    let lines = cargo_lines(alloc)?;
    named(alloc, "Cargo.toml", lines.as_slice())
}

// The file of this name and of these lines.
fn named(alloc: Global, name: &str, lines: &[Line]) -> Result<File, Memory>
    ensures { IfOk result (λ file. file ≡ file_of name.now (text_of_lines lines.now)) }
{
    let name = Text::from_str(alloc, name)?;
    let bytes = bytes_of(alloc, lines)?;
    Ok(File { name, bytes })
}

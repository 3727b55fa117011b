//! The files of a crate that is run.

ghost use Rattle.std.specs.Prelude.{◌≡◌, ◌∷◌, [], map, IfOk, MatchResult, IsTrue};
ghost use Rattle.std.specs.Str.{IsUtf8};
ghost use Rattle.front.specs.CrateFiles.{AreGotAll, AreGotIn, IsGotWhole, IsNamedAs, ModulesAreGot, NamesPaths, StopsCrate, StopsFile, StopsGet, StopsMain, StopsModules};
ghost use Rattle.front.specs.Crates.{path_of};
ghost use Rattle.rs_text.specs.Text.{cargo_path, main_path, module_path};
ghost use Rattle.rs_text.specs.Valid.{valid_names};

use crate::files::named;
use crate::unread::Unread;
use cr_base::{Items, Memory, Name, Text};
use rs_parse::{ReadFault, mod_names};
use shelf::{File, Got, Shelf, ShelfFault};
use std::alloc::Global;

/// The most bytes of a file of a crate that is run.
const MOST_FILE_BYTES: usize = 268_435_456;

const CARGO: &str = "Cargo.toml";

const MAIN: &str = "src/main.rs";

// Gets the file with a path from under a directory.
fn got_file<F: Shelf>(
    alloc: Global,
    directory: &str,
    path: &Text,
    shelf: &mut F,
) -> Result<File, Unread>
    ensures { MatchResult result
        (λ file. (file.name ≡ path.now) × AreGotIn directory.now (file ∷ []) (F.state shelf.old) (F.state shelf.new))
        (λ why. StopsFile directory.now path.now why (F.state shelf.old) (F.state shelf.new)) }
{
    let own = Text::from_str(alloc, path.as_str())?;
    let name = named(alloc, directory, path.as_str())?;
    match shelf.get(name.as_str(), MOST_FILE_BYTES) {
        Ok(Got::Bytes(bytes)) => Ok(File { name: own, bytes }),
        Ok(Got::TooLarge) => Err(Unread::NotRead(name)),
        Err(ShelfFault::Failed) => Err(Unread::NotRead(name)),
        Err(ShelfFault::Memory) => Err(Unread::Memory),
    }
}

// Gets the files with these paths from under a directory, one behind another, up to the first that can't be read.
fn got_files<F: Shelf>(
    alloc: Global,
    directory: &str,
    paths: &[Text],
    shelf: &mut F,
) -> Result<Items<File>, Unread>
    ensures { MatchResult result
        (λ files. AreGotAll directory.now paths.now files (F.state shelf.old) (F.state shelf.new))
        (λ why. StopsGet directory.now paths.now why (F.state shelf.old) (F.state shelf.new)) }
{
    let mut files = Items::new(alloc);
    for path in paths {
        files.push(got_file(alloc, directory, path, shelf)?)?;
    }
    Ok(files)
}

// The paths of `Cargo.toml` and `main.rs`. Refused only for want of memory.
fn head_paths(alloc: Global) -> Result<Items<Text>, Memory>
    ensures { IfOk result (λ paths. paths ≡ cargo_path ∷ main_path ∷ []) }
{
    let mut paths = Items::new(alloc);
    paths.push(Text::from_str(alloc, CARGO)?)?;
    paths.push(Text::from_str(alloc, MAIN)?)?;
    Ok(paths)
}

// The path of a module's file. Refused only for want of memory.
fn path_of_module(alloc: Global, name: &[u8]) -> Result<Text, Memory>
    requires { IsUtf8 name.now }
    ensures { IfOk result (λ path. path ≡ module_path name.now) }
{
    let Ok(name) = std::str::from_utf8(name) else {
        unreachable!()
    };
    let path = format!(in alloc; "src/{name}.rs")?;
    Ok(Text::of(path))
}

// The paths of the files of modules. Refused only for want of memory.
fn module_paths(alloc: Global, names: &[Name]) -> Result<Items<Text>, Memory>
    requires { IsTrue (valid_names names.now) }
    ensures { IfOk result (λ paths. paths ≡ map module_path names.now) }
{
    let mut paths = Items::new(alloc);
    for name in names {
        paths.push(path_of_module(alloc, name.bytes())?)?;
    }
    Ok(paths)
}

// That `main.rs` under a directory isn't of its form.
fn not_main(alloc: Global, directory: &str, line: u32) -> Unread
    ensures { IsNamedAs directory.now main_path result }
{
    match named(alloc, directory, MAIN) {
        Ok(name) => Unread::NotMain { name, line },
        Err(Memory) => Unread::Memory,
    }
}

// The paths of the files of the modules that `main.rs` names.
fn paths_in_main(alloc: Global, directory: &str, main: &File) -> Result<Items<Text>, Unread>
    ensures { MatchResult result (NamesPaths main.now.bytes) (StopsMain directory.now main.now.bytes) }
{
    match mod_names(alloc, main.bytes.as_slice()) {
        Ok(names) => Ok(module_paths(alloc, names.as_slice())?),
        Err(ReadFault::NotRust { line, .. }) => Err(not_main(alloc, directory, line)),
        Err(ReadFault::Memory) => Err(Unread::Memory),
    }
}

// Gets the files of the modules, behind `Cargo.toml` and `main.rs`.
fn got_modules<F: Shelf>(
    alloc: Global,
    directory: &str,
    heads: Items<File>,
    shelf: &mut F,
) -> Result<Items<File>, Unread>
    requires { map path_of heads ≡ cargo_path ∷ main_path ∷ [] }
    ensures { MatchResult result
        (λ files. ModulesAreGot directory.now heads files (F.state shelf.old) (F.state shelf.new))
        (λ why. StopsModules directory.now heads why (F.state shelf.old) (F.state shelf.new)) }
{
    let mut files = heads;
    let Some(main) = files.get(1) else {
        unreachable!()
    };
    let paths = match paths_in_main(alloc, directory, main) {
        Ok(paths) => paths,
        Err(why) => return Err(why),
    };
    let modules = match got_files(alloc, directory, paths.as_slice(), shelf) {
        Ok(modules) => modules,
        Err(why) => return Err(why),
    };
    files.append(modules)?;
    Ok(files)
}

/// Gets the files of the crate under a directory: `Cargo.toml`, `main.rs`, and those of the modules that `main.rs` names, in its order,
/// each of at most 268,435,456 bytes.
pub(crate) fn got_crate<F: Shelf>(
    alloc: Global,
    directory: &str,
    shelf: &mut F,
) -> Result<Items<File>, Unread>
    ensures { MatchResult result
        (λ files. IsGotWhole directory.now files (F.state shelf.old) (F.state shelf.new))
        (λ why. StopsCrate directory.now why (F.state shelf.old) (F.state shelf.new)) }
{
    let paths = head_paths(alloc)?;
    let heads = got_files(alloc, directory, paths.as_slice(), shelf)?;
    got_modules(alloc, directory, heads, shelf)
}

//! Files by their names.

ghost use Rattle.std.specs.Prelude.{◌≡◌, IfOk, IfSome};
ghost use Rattle.std.specs.List.{list_all};
ghost use Rattle.std.specs.Option.{is_some};
ghost use Rattle.rs_parse.specs.Crates as crates;
ghost use Rattle.rs_parse.specs.Reading.{IsOnly};
ghost use Rattle.rs_text.specs.Text as text;
ghost use Rattle.rs_valid.specs.Lists.{names_of};

use cr_base::{Items, Memory, Name};
use rs_tree::Module;
use shelf::File;
use std::alloc::Global;

/// The number of the only file of a name, or None where there is none or several.
pub(crate) fn only_file(files: &[File], name: &[u8]) -> Option<usize>
    ensures once { is_some result ≡ crates.stands_once files.now name.now }
    ensures here { IfSome result (IsOnly files.now name.now) }
{
    let mut found = None;
    for index in 0..files.len() {
        if files[index].name.as_bytes() == name {
            if found.is_some() {
                return None;
            }
            found = Some(index);
        }
    }
    found
}

// The path of a module's file.
fn module_path(alloc: Global, name: &Name) -> Result<Items<u8>, Memory>
    ensures { IfOk result (λ path. path ≡ text.module_path name.now) }
{
    let mut bytes = Vec::from_slice(alloc, b"src/")?;
    bytes.extend_from_slice(name.bytes())?;
    bytes.extend_from_slice(b".rs")?;
    Ok(Items::of(bytes))
}

/// The number of the only file of a module of this name, or None where there is none or several.
pub(crate) fn only_module_file(
    alloc: Global,
    files: &[File],
    name: &Name,
) -> Result<Option<usize>, Memory>
    ensures once { IfOk result (λ found. is_some found ≡ crates.stands_once files.now (text.module_path name.now)) }
    ensures here { IfOk result (λ found. IfSome found (IsOnly files.now (text.module_path name.now))) }
{
    let path = module_path(alloc, name)?;
    Ok(only_file(files, path.as_slice()))
}

// Whether each of these modules has a file, once.
fn have_files(alloc: Global, files: &[File], modules: &[Module]) -> Result<bool, Memory>
    ensures { IfOk result (λ have. have ≡ list_all (λ name. crates.stands_once files.now (text.module_path name)) (names_of modules.now)) }
{
    for module in modules {
        if only_module_file(alloc, files, &module.name)?.is_none() {
            return Ok(false);
        }
    }
    Ok(true)
}

/// Whether files are `Cargo.toml`, `main.rs` and those of these modules, each once, where the first two are
/// there once.
pub(crate) fn are_of_modules(
    alloc: Global,
    files: &[File],
    modules: &[Module],
) -> Result<bool, Memory>
    ensures { IfOk result (λ are. are ≡ crates.are_of_modules files.now (names_of modules.now)) }
{
    if !have_files(alloc, files, modules)? {
        return Ok(false);
    }
    Ok(2 <= files.len() && files.len() - 2 == modules.len())
}

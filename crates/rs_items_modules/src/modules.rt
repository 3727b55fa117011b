ghost use Rattle.std.specs.Prelude.{◌≡◌, ◌||◌, IfOk};
ghost use Rattle.rs_items_modules.specs.Modules.{is_kept_back, module_candidate, module_name, module_names};
ghost use Rattle.rs_items_sets.specs.Names.{IsFirstFree, IsGone};
ghost use Rattle.rs_text.specs.Names.{is_among};

use crate::stems::file_word;
use cr_base::{Items, Memory, Name};
use rs_items_sets::{is_keyword, is_path_word, is_reserved, suffixed};
use std::alloc::Global;

/// The names of the modules of a crate, one for each of its files, in their order. Refused only for want of memory.
pub fn module_names(alloc: Global, files: &[Name]) -> Result<Items<Name>, Memory>
    ensures { IfOk result (λ names. names ≡ module_names files.now) }
{
    let mut names = Items::new(alloc);
    for file in files {
        let name = module_name(alloc, names.as_slice(), file)?;
        names.push(name)?;
    }
    Ok(names)
}

// The name of the module of a file beside those that are taken.
fn module_name(alloc: Global, taken: &[Name], file: &Name) -> Result<Name, Memory>
    ensures { IfOk result (λ name. name ≡ module_name taken.now file.now) }
{
    let word = file_word(alloc, file.bytes())?;
    let name = first_free(alloc, taken, word)?;
    Ok(Name::of(name))
}

// The first candidate for a word that is free.
fn first_free(alloc: Global, taken: &[Name], word: Vec<u8>) -> Result<Vec<u8>, Memory>
    ensures { IfOk result (λ name. IsFirstFree taken.now (module_candidate word.items) name.items) }
{
    if is_gone(taken, word.as_slice()) {
        return first_suffixed(alloc, taken, word.as_slice());
    }
    Ok(word)
}

// The first candidate with a suffix that is free, where the word itself isn't.
fn first_suffixed(alloc: Global, taken: &[Name], word: &[u8]) -> Result<Vec<u8>, Memory>
    requires { IsGone taken.now (module_candidate word.now 0) }
    ensures { IfOk result (λ name. IsFirstFree taken.now (module_candidate word.now) name.items) }
{
    for number in 0..u64::MAX {
        let name = suffixed(alloc, word, number)?;
        if !is_taken(taken, name.as_slice()) {
            return Ok(name);
        }
    }
    Err(Memory)
}

// Whether a word is no candidate for itself, or taken.
fn is_gone(taken: &[Name], word: &[u8]) -> bool
    ensures { result ≡ (is_kept_back word.now || is_among taken.now word.now) }
{
    is_kept_back(word) || is_taken(taken, word)
}

// Whether a name is among those that are taken.
fn is_taken(taken: &[Name], name: &[u8]) -> bool
    ensures { result ≡ is_among taken.now name.now }
{
    for one in taken {
        if one.bytes() == name {
            return true;
        }
    }
    false
}

// Whether a word is no candidate for itself.
fn is_kept_back(word: &[u8]) -> bool
    ensures { result ≡ is_kept_back word.now }
{
    is_path_word(word) || is_keyword(word) || is_reserved(word) || word == b"main".as_slice()
}

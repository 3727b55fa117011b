ghost use Rattle.std.specs.Prelude.{◌≡◌, ◌||◌, ◌&&◌, not, suc, IfOk, IfSome, None, Some, option_map};
ghost use Rattle.rs_items_sets.specs.Names.{candidate, is_entry_in, is_excluded, is_main_in, suffixed};

use crate::scope::NameScope;
use crate::words::{is_keyword, is_path_word, is_reserved};
use cr_base::Memory;
use std::alloc::Global;

/// The first candidate for a name: itself, behind `r#` where it is a keyword, or none where it is kept for something else.
pub(crate) fn itself(
    alloc: Global,
    scope: NameScope,
    name: &[u8],
) -> Result<Option<Vec<u8>>, Memory>
    ensures { IfOk result (λ one. option_map (λ v. v.items) one ≡ candidate scope name.now 0) }
{
    if is_excluded(scope, name) {
        return Ok(None);
    }
    let mut bytes = Vec::new(alloc);
    if is_keyword(name) {
        bytes.extend_from_slice(b"r#")?;
    }
    bytes.extend_from_slice(name)?;
    Ok(Some(bytes))
}

/// A candidate with a suffix, or none where it is kept for the function `main`.
pub(crate) fn with_suffix(
    alloc: Global,
    scope: NameScope,
    name: &[u8],
    number: u64,
) -> Result<Option<Vec<u8>>, Memory>
    ensures { IfOk result (λ one. option_map (λ v. v.items) one ≡ candidate scope name.now (suc number)) }
{
    let bytes = suffixed(alloc, name, number)?;
    if is_entry_in(scope, bytes.as_slice()) {
        return Ok(None);
    }
    Ok(Some(bytes))
}

/// A name with a number behind `_`.
pub fn suffixed(alloc: Global, name: &[u8], number: u64) -> Result<Vec<u8>, Memory>
    ensures { IfOk result (λ bytes. bytes.items ≡ suffixed name.now number) }
{
    let suffix = format!(in alloc; "_{number}")?;
    let mut bytes = Vec::from_slice(alloc, name)?;
    bytes.extend_from_slice(suffix.as_bytes())?;
    Ok(bytes)
}

// Whether a name is no candidate for itself.
fn is_excluded(scope: NameScope, name: &[u8]) -> bool
    ensures { result ≡ is_excluded scope name.now }
{
    if is_path_word(name) {
        return true;
    }
    is_reserved(name) || is_main_in(scope, name)
}

// Whether a name is `main` where that is the crate's own.
fn is_main_in(scope: NameScope, name: &[u8]) -> bool
    ensures { result ≡ is_main_in scope name.now }
{
    match scope {
        NameScope::Module => name == b"main".as_slice(),
        NameScope::Function | NameScope::Fields => false,
    }
}

// Whether a name is that of the function `main` in such a set.
fn is_entry_in(scope: NameScope, name: &[u8]) -> bool
    ensures { result ≡ is_entry_in scope name.now }
{
    match scope {
        NameScope::Module | NameScope::Function => name == b"main_0".as_slice(),
        NameScope::Fields => false,
    }
}

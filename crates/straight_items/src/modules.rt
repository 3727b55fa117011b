ghost use Rattle.std.specs.Prelude.{◌≡◌, ◌-◌, ◌==◌, ◌&&◌, ◌↔◌, not, length, IsTrue};
ghost use Rattle.std.specs.List.{list_all, after_last};
ghost use Rattle.straight_items.specs.Modules.{stem_of, is_name, lacks_start, named_by};
ghost use Rattle.straight_items.specs.Names.{keeps_name};
ghost use Rattle.straight_rust_tree.specs.Names.{is_word_byte};

use crate::kept::keeps_name;
use crate::scope::NameScope;

/// The last component of a file's name, without its last `.` and what follows, where that `.` isn't
/// the first byte.
pub fn stem_of(file: &str) -> &str
    ensures { result.now ≡ stem_of file.now }
{
    let name = last_component(file);
    match name.rfind('.') {
        Some(at) if at > 0 => &name[..at],
        _ => name,
    }
}

// What stands behind the last slash, or all where there is none.
fn last_component(file: &str) -> &str
    ensures { result.now ≡ after_last (λ byte. byte == 47) file.now }
{
    match file.rfind('/') {
        Some(at) => &file[at + 1..],
        None => file,
    }
}

/// Whether the module of a unit is named by the stem of its file alone.
pub fn is_plain(stem: &str) -> bool
    ensures { IsTrue result ↔ (named_by stem.now ≡ stem.now) }
{
    is_free(stem.as_bytes())
}

// Whether the bytes are an identifier that isn't kept for something else.
fn is_free(name: &[u8]) -> bool
    ensures { result ≡ (is_name name.now && keeps_name NameScope.Module name.now) }
{
    if is_name(name) {
        keeps_name(NameScope::Module, name)
    } else {
        false
    }
}

// Whether the bytes are an identifier: letters, digits and `_`, no digit first, not `_` alone.
fn is_name(name: &[u8]) -> bool
    ensures { result ≡ is_name name.now }
{
    if lacks_start(name) {
        false
    } else {
        are_word_bytes(name)
    }
}

fn lacks_start(name: &[u8]) -> bool
    ensures { result ≡ lacks_start name.now }
{
    match name.first() {
        None => true,
        Some(first) => first.is_ascii_digit() || name == b"_".as_slice(),
    }
}

fn are_word_bytes(name: &[u8]) -> bool
    ensures { result ≡ list_all is_word_byte name.now }
{
    name.iter().all(|byte| is_word_byte(*byte))
}

fn is_word_byte(byte: u8) -> bool
    ensures { result ≡ is_word_byte byte }
{
    byte.is_ascii_alphanumeric() || byte == b'_'
}

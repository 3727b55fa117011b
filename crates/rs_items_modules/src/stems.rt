//! Words out of the names of files.

ghost use Rattle.std.specs.Prelude.{◌≡◌, IfOk};
ghost use Rattle.rs_items_modules.specs.Modules.{lacks_start, last_component, started, stem_of, up_to_last, without_extension, word_byte_of, word_bytes_of, word_of};
ghost use Rattle.rs_text.specs.Names.{is_word_byte};

use cr_base::Memory;
use std::alloc::Global;

/// The word that the name of a file is tried as: its stem with `_` for each byte that can't stand in an identifier, behind `c_` where that is no identifier.
pub(crate) fn file_word(alloc: Global, file: &[u8]) -> Result<Vec<u8>, Memory>
    ensures { IfOk result (λ word. word.items ≡ word_of (stem_of file.now)) }
{
    let word = word_of(alloc, stem_of(file))?;
    Ok(word)
}

// The last component of a file's name, without its last `.` and what follows, where that `.` isn't the first byte.
fn stem_of(file: &[u8]) -> &[u8]
    ensures { result.now ≡ stem_of file.now }
{
    without_extension(last_component(file))
}

// What stands behind the last slash, or all where there is none.
fn last_component(file: &[u8]) -> &[u8]
    ensures { result.now ≡ last_component file.now }
{
    &file[up_to_last(b'/', file)..]
}

fn without_extension(name: &[u8]) -> &[u8]
    ensures { result.now ≡ without_extension name.now }
{
    let end = up_to_last(b'.', name);
    if end > 1 { &name[..end - 1] } else { name }
}

// How many bytes stand up to the last one that is this, that byte too: 0 where none is.
fn up_to_last(wanted: u8, bytes: &[u8]) -> usize
    ensures { result ≡ up_to_last wanted bytes.now }
{
    let mut end = bytes.len();
    while end > 0 {
        if bytes[end - 1] == wanted {
            return end;
        }
        end -= 1;
    }
    0
}

fn word_of(alloc: Global, stem: &[u8]) -> Result<Vec<u8>, Memory>
    ensures { IfOk result (λ word. word.items ≡ word_of stem.now) }
{
    let bytes = word_bytes_of(alloc, stem)?;
    let word = started(alloc, lacks_start(bytes.as_slice()), bytes.as_slice())?;
    Ok(word)
}

// The same bytes, with `_` for each that can't stand in an identifier.
fn word_bytes_of(alloc: Global, stem: &[u8]) -> Result<Vec<u8>, Memory>
    ensures { IfOk result (λ bytes. bytes.items ≡ word_bytes_of stem.now) }
{
    let mut bytes = Vec::new(alloc);
    for byte in stem {
        bytes.push(word_byte_of(*byte))?;
    }
    Ok(bytes)
}

fn word_byte_of(byte: u8) -> u8
    ensures { result ≡ word_byte_of byte }
{
    if is_word_byte(byte) { byte } else { b'_' }
}

fn is_word_byte(byte: u8) -> bool
    ensures { result ≡ is_word_byte byte }
{
    byte.is_ascii_alphanumeric() || byte == b'_'
}

// Whether bytes of identifiers aren't one: nothing, a digit first, or `_` alone.
fn lacks_start(bytes: &[u8]) -> bool
    ensures { result ≡ lacks_start bytes.now }
{
    match bytes.first() {
        None => true,
        Some(first) => first.is_ascii_digit() || bytes == b"_".as_slice(),
    }
}

// These bytes, behind `c_` where that has to be.
fn started(alloc: Global, lacks: bool, bytes: &[u8]) -> Result<Vec<u8>, Memory>
    ensures { IfOk result (λ word. word.items ≡ started lacks bytes.now) }
{
    let mut word = Vec::new(alloc);
    if lacks {
        word.extend_from_slice(b"c_")?;
    }
    word.extend_from_slice(bytes)?;
    Ok(word)
}

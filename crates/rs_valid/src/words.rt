//! Words, and the names of items, modules and labels (the Rust Reference, "Identifiers" and "Keywords").

ghost use Rattle.std.specs.Prelude.{◌≡◌, bytes_eq};
ghost use Rattle.std.specs.List.{list_all, list_any};
ghost use Rattle.rs_text.specs.Names as names;
ghost use Rattle.rs_text.specs.Names.{path_words, keywords};
ghost use Rattle.rs_text.specs.Valid.{valid_path, valid_label, valid_symbol};

use cr_base::Name;
use rs_tree::RPath;

// The words that are no identifiers, also behind `r#`.
const PATH_WORDS: [&[u8]; 6] = [b"_", b"None", b"crate", b"self", b"Self", b"super"];

// The keywords of Rust, those that are reserved too.
const KEYWORDS: [&[u8]; 48] = [
    b"abstract",
    b"as",
    b"async",
    b"await",
    b"become",
    b"box",
    b"break",
    b"const",
    b"continue",
    b"do",
    b"dyn",
    b"else",
    b"enum",
    b"extern",
    b"false",
    b"final",
    b"fn",
    b"for",
    b"gen",
    b"if",
    b"impl",
    b"in",
    b"let",
    b"loop",
    b"macro",
    b"match",
    b"mod",
    b"move",
    b"mut",
    b"override",
    b"priv",
    b"pub",
    b"ref",
    b"return",
    b"static",
    b"struct",
    b"trait",
    b"true",
    b"try",
    b"type",
    b"typeof",
    b"unsafe",
    b"unsized",
    b"use",
    b"virtual",
    b"where",
    b"while",
    b"yield",
];

#[tactic(auto, unfolding(rs_text::specs::Names::path_words))]
fn is_path_word(name: &[u8]) -> bool
    ensures { result ≡ names.is_among path_words name.now }
{
    is_among(&PATH_WORDS, name)
}

#[tactic(auto, unfolding(rs_text::specs::Names::keywords))]
fn is_keyword(name: &[u8]) -> bool
    ensures { result ≡ names.is_among keywords name.now }
{
    is_among(&KEYWORDS, name)
}

// Whether a name is one of the words.
fn is_among(words: &[&[u8]], name: &[u8]) -> bool
    ensures { result ≡ list_any (λ word. bytes_eq word.now name.now) words.now }
{
    for word in words {
        if *word == name {
            return true;
        }
    }
    false
}

fn is_digit(byte: u8) -> bool
    ensures { result ≡ names.is_digit byte }
{
    b'0' <= byte && byte <= b'9'
}

fn is_word_byte(byte: u8) -> bool
    ensures { result ≡ names.is_word_byte byte }
{
    is_digit(byte) || b'A' <= byte && byte <= b'Z' || b'a' <= byte && byte <= b'z' || byte == b'_'
}

fn are_word_bytes(name: &[u8]) -> bool
    ensures { result ≡ list_all names.is_word_byte name.now }
{
    name.iter().all(|byte| is_word_byte(*byte))
}

/// Whether a text is letters, digits and `_`, at least one, and no digit first.
pub(crate) fn is_word(name: &[u8]) -> bool
    ensures { result ≡ names.is_word name.now }
{
    match name {
        [] => false,
        [first, ..] => !is_digit(*first) && are_word_bytes(name),
    }
}

fn is_plain_identifier(name: &[u8]) -> bool
    ensures { result ≡ names.is_plain_identifier name.now }
{
    is_word(name) && !is_path_word(name) && !is_keyword(name)
}

// Whether a name is a keyword behind `r#`.
fn is_raw_identifier(name: &[u8]) -> bool
    ensures { result ≡ names.is_raw_identifier name.now }
{
    name.starts_with(b"r#") && is_keyword(&name[2..])
}

pub(crate) fn is_identifier(name: &Name) -> bool
    ensures { result ≡ names.is_identifier name.now }
{
    is_plain_identifier(name.bytes()) || is_raw_identifier(name.bytes())
}

pub(crate) fn is_module_name(name: &Name) -> bool
    ensures { result ≡ names.is_module_name name.now }
{
    is_plain_identifier(name.bytes()) && name.bytes() != b"main".as_slice()
}

pub(crate) fn is_label(name: &Name) -> bool
    ensures { result ≡ names.is_label name.now }
{
    is_plain_identifier(name.bytes())
}

pub(crate) fn is_valid_label(label: &Option<Name>) -> bool
    ensures { result ≡ valid_label label.now }
{
    match label {
        None => true,
        Some(label) => is_label(label),
    }
}

/// Whether a symbol, where there is one, is an identifier of C (ISO C99, 6.4.2.1).
pub(crate) fn is_valid_symbol(symbol: &Option<Name>) -> bool
    ensures { result ≡ valid_symbol symbol.now }
{
    match symbol {
        None => true,
        Some(symbol) => is_word(symbol.bytes()),
    }
}

pub(crate) fn is_valid_path(path: &RPath) -> bool
    ensures { result ≡ valid_path path.now.home path.now.name }
{
    is_plain_identifier(path.home.bytes()) && is_identifier(&path.name)
}

//! Identifiers and keywords, and the words that the profile leaves out.

ghost use Rattle.std.specs.Prelude.{bytes_eq, ◌≡◌, ◌<◌, ◌≤◌, ◌+◌, [], ◌∷◌, length, map, IfOk};
ghost use Rattle.cx_lex.specs.Words.{entry_of, keywords, floating_words, gnu_words, builtin_prefix, is_among, word_rule, key_or_word};

use crate::token::{Keyword, TokenKind};
use cr_base::{Memory, Name, Rule};
use std::alloc::Global;

// The keywords (ISO C99, 6.4.1).
const KEYWORDS: [(&[u8], Keyword); 37] = [
    (b"auto", Keyword::Auto),
    (b"break", Keyword::Break),
    (b"case", Keyword::Case),
    (b"char", Keyword::Char),
    (b"const", Keyword::Const),
    (b"continue", Keyword::Continue),
    (b"default", Keyword::Default),
    (b"do", Keyword::Do),
    (b"double", Keyword::Double),
    (b"else", Keyword::Else),
    (b"enum", Keyword::Enum),
    (b"extern", Keyword::Extern),
    (b"float", Keyword::Float),
    (b"for", Keyword::For),
    (b"goto", Keyword::Goto),
    (b"if", Keyword::If),
    (b"inline", Keyword::Inline),
    (b"int", Keyword::Int),
    (b"long", Keyword::Long),
    (b"register", Keyword::Register),
    (b"restrict", Keyword::Restrict),
    (b"return", Keyword::Return),
    (b"short", Keyword::Short),
    (b"signed", Keyword::Signed),
    (b"sizeof", Keyword::Sizeof),
    (b"static", Keyword::Static),
    (b"struct", Keyword::Struct),
    (b"switch", Keyword::Switch),
    (b"typedef", Keyword::Typedef),
    (b"union", Keyword::Union),
    (b"unsigned", Keyword::Unsigned),
    (b"void", Keyword::Void),
    (b"volatile", Keyword::Volatile),
    (b"while", Keyword::While),
    (b"_Bool", Keyword::Bool),
    (b"_Complex", Keyword::Complex),
    (b"_Imaginary", Keyword::Imaginary),
];

// The words of floating and complex types.
const FLOATING_WORDS: [&[u8]; 4] = [b"float", b"double", b"_Complex", b"_Imaginary"];

// The words of GNU C, and `__func__` (ISO C99, 6.4.2.2).
const GNU_WORDS: [&[u8]; 21] = [
    b"asm",
    b"typeof",
    b"__asm",
    b"__asm__",
    b"__attribute",
    b"__attribute__",
    b"__extension__",
    b"__inline",
    b"__inline__",
    b"__typeof",
    b"__typeof__",
    b"__restrict",
    b"__restrict__",
    b"__volatile__",
    b"__const",
    b"__signed__",
    b"__alignof__",
    b"__label__",
    b"__int128",
    b"__func__",
    b"__FUNCTION__",
];

// The beginning of the names of GNU C's built-in functions.
const BUILTIN_PREFIX: &[u8] = b"__builtin_";

// Whether two words are the same. Most words that are compared differ in their lengths.
fn is_word(word: &[u8], other: &[u8]) -> bool
    ensures { result ≡ bytes_eq word.now other.now }
{
    if word.len() != other.len() {
        return false;
    }
    word == other
}

fn entry_of(table: &[(&[u8], Keyword)], word: &[u8]) -> Option<Keyword>
    ensures { result ≡ entry_of (map (λ entry. (entry.0.now, entry.1)) table.now) word.now }
{
    for entry in table {
        if is_word(word, entry.0) {
            return Some(entry.1);
        }
    }
    None
}

#[tactic(auto, unfolding(crate::specs::Words::keywords))]
fn keyword(word: &[u8]) -> Option<Keyword>
    ensures { result ≡ entry_of keywords word.now }
{
    entry_of(&KEYWORDS, word)
}

fn is_among(words: &[&[u8]], word: &[u8]) -> bool
    ensures { result ≡ is_among (map (λ entry. entry.now) words.now) word.now }
{
    for entry in words {
        if is_word(word, entry) {
            return true;
        }
    }
    false
}

#[tactic(auto, unfolding(crate::specs::Words::floating_words))]
fn is_floating_word(word: &[u8]) -> bool
    ensures { result ≡ is_among floating_words word.now }
{
    is_among(&FLOATING_WORDS, word)
}

#[tactic(auto, unfolding(crate::specs::Words::gnu_words))]
fn is_gnu_word(word: &[u8]) -> bool
    ensures { result ≡ is_among gnu_words word.now }
{
    is_among(&GNU_WORDS, word)
}

/// The rule that an identifier or keyword breaks: O1 at a word of floating types, O2 at `volatile`,
/// O12 at a word of GNU C.
#[tactic(auto, unfolding(crate::specs::Words::builtin_prefix))]
pub fn word_rule(word: &[u8]) -> Option<Rule>
    ensures { result ≡ word_rule word.now }
{
    if is_floating_word(word) {
        return Some(Rule::O1);
    }
    if word == b"volatile".as_slice() {
        return Some(Rule::O2);
    }
    if is_gnu_word(word) || word.starts_with(BUILTIN_PREFIX) {
        return Some(Rule::O12);
    }
    None
}

/// The token of the bytes of an identifier or keyword.
pub fn word_token(alloc: Global, word: &[u8]) -> Result<TokenKind, Memory>
    ensures { IfOk result (λ kind. kind ≡ key_or_word word.now (entry_of keywords word.now)) }
{
    if let Some(keyword) = keyword(word) {
        return Ok(TokenKind::Key(keyword));
    }
    let bytes = Vec::from_slice(alloc, word)?;
    Ok(TokenKind::Word(Name::of(bytes)))
}

ghost use Rattle.std.specs.Prelude.{◌≡◌, ◌||◌, bytes_eq};
ghost use Rattle.std.specs.List.{list_any};
ghost use Rattle.rs_text.specs.Names.{is_among, path_words, keywords};
ghost use Rattle.rs_items_sets.specs.Names.{reserved};

// The words that are no identifiers, also behind `r#`.
const PATH_WORDS: [&[u8]; 6] = [b"_", b"None", b"crate", b"self", b"Self", b"super"];

// The keywords of Rust, those that are reserved too.
const KEYWORDS: [&[u8]; 48] = [
    b"abstract",
    b"as",
    b"async",
    b"await",
    b"become",
    b"box",
    b"break",
    b"const",
    b"continue",
    b"do",
    b"dyn",
    b"else",
    b"enum",
    b"extern",
    b"false",
    b"final",
    b"fn",
    b"for",
    b"gen",
    b"if",
    b"impl",
    b"in",
    b"let",
    b"loop",
    b"macro",
    b"match",
    b"mod",
    b"move",
    b"mut",
    b"override",
    b"priv",
    b"pub",
    b"ref",
    b"return",
    b"static",
    b"struct",
    b"trait",
    b"true",
    b"try",
    b"type",
    b"typeof",
    b"unsafe",
    b"unsized",
    b"use",
    b"virtual",
    b"where",
    b"while",
    b"yield",
];

// The names that have a meaning of their own in a written crate.
const RESERVED: [&[u8]; 19] = [
    b"run_static_initializers",
    b"current_block",
    b"main_0",
    b"core",
    b"std",
    b"Option",
    b"Some",
    b"None",
    b"i8",
    b"i16",
    b"i32",
    b"i64",
    b"u8",
    b"u16",
    b"u32",
    b"u64",
    b"isize",
    b"usize",
    b"bool",
];

/// Whether a name is no identifier, also behind `r#`.
#[tactic(auto, unfolding(rs_text::specs::Names::path_words))]
pub fn is_path_word(name: &[u8]) -> bool
    ensures { result ≡ is_among path_words name.now }
{
    is_among(&PATH_WORDS, name)
}

/// Whether a name is a keyword of Rust, one that is reserved too.
#[tactic(auto, unfolding(rs_text::specs::Names::keywords))]
pub fn is_keyword(name: &[u8]) -> bool
    ensures { result ≡ is_among keywords name.now }
{
    is_among(&KEYWORDS, name)
}

/// Whether a name has a meaning of its own in a written crate.
#[tactic(auto, unfolding(crate::specs::Names::reserved))]
pub fn is_reserved(name: &[u8]) -> bool
    ensures { result ≡ is_among reserved name.now }
{
    is_among(&RESERVED, name)
}

// Whether a name is one of the words.
fn is_among(words: &[&[u8]], name: &[u8]) -> bool
    ensures { result ≡ list_any (λ word. bytes_eq word.now name.now) words.now }
{
    for word in words {
        if *word == name {
            return true;
        }
    }
    false
}

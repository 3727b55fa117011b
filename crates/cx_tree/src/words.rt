//! The keywords among a declaration's specifiers (ISO C99, 6.7).

ghost use Rattle.std.specs.Prelude.{◌≡◌};
ghost use Rattle.cx_tree.specs.Words as words;

use cx_lex::Keyword;

/// Whether a keyword is a storage class specifier (6.7.1).
#[tactic(auto, unfolding(crate::specs::Words::is_storage_class))]
pub fn is_storage_class(word: Keyword) -> bool
    ensures { result ≡ words.is_storage_class word }
{
    matches!(
        word,
        Keyword::Typedef | Keyword::Extern | Keyword::Static | Keyword::Auto | Keyword::Register
    )
}

/// Whether a keyword is a type specifier (6.7.2). `float`, `double`, `_Complex` and `_Imaginary` are none
/// here: a unit that holds one of these words is refused before it is parsed.
#[tactic(auto, unfolding(crate::specs::Words::is_type_word))]
pub fn is_type_word(word: Keyword) -> bool
    ensures { result ≡ words.is_type_word word }
{
    matches!(
        word,
        Keyword::Void
            | Keyword::Char
            | Keyword::Short
            | Keyword::Int
            | Keyword::Long
            | Keyword::Signed
            | Keyword::Unsigned
            | Keyword::Bool
    )
}

/// Whether a keyword is a type qualifier (6.7.3). `volatile` is none here: a unit that holds it is refused
/// before it is parsed.
#[tactic(auto, unfolding(crate::specs::Words::is_qualifier))]
pub fn is_qualifier(word: Keyword) -> bool
    ensures { result ≡ words.is_qualifier word }
{
    matches!(word, Keyword::Const | Keyword::Restrict)
}

/// Whether a keyword is a function specifier (6.7.4).
#[tactic(auto, unfolding(crate::specs::Words::is_function_specifier))]
pub fn is_function_specifier(word: Keyword) -> bool
    ensures { result ≡ words.is_function_specifier word }
{
    matches!(word, Keyword::Inline)
}

/// Whether a keyword is `typedef`, so that its declaration declares typedef names (6.7.1, 6.7.7).
#[tactic(auto, unfolding(crate::specs::Words::is_typedef_word))]
pub fn is_typedef_word(word: Keyword) -> bool
    ensures { result ≡ words.is_typedef_word word }
{
    matches!(word, Keyword::Typedef)
}

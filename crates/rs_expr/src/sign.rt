//! What a token is to a reader.

ghost use Rattle.std.specs.Prelude.{◌≡◌};
ghost use Rattle.rs_lex.specs.Views.{token_view};
ghost use Rattle.rs_expr.specs.Exprs as exprs;
ghost use Rattle.rs_expr.specs.Reading as reading;
ghost use Rattle.rs_expr.specs.Signs as signs;
ghost use Rattle.rs_expr.specs.declared.sign.Sign.TheVariants.{Name};

use crate::words::entry_of;
use rs_lex::{Token, TokenKind};

/// What a token is to a reader.
#[derive(Clone, Copy, PartialEq, Eq)]
pub enum Sign {
    /// No token: all are read.
    End,
    /// A word that none of the following is.
    Name,
    /// A word that begins with a digit.
    Number,
    As,
    Break,
    Continue,
    Crate,
    Else,
    Extern,
    False,
    If,
    Let,
    Loop,
    Match,
    NoneWord,
    Return,
    Static,
    Struct,
    True,
    /// `_`
    Underscore,
    Label,
    Quoted,
    /// The end of a list of types.
    Close,
    /// A mark that none of the following is.
    OtherMark,
    /// `&&`
    AndAnd,
    /// `->`
    Arrow,
    /// `!`
    Bang,
    Comma,
    Dot,
    /// `=`
    Equal,
    /// `#`
    Hash,
    LeftBrace,
    LeftBracket,
    LeftParenthesis,
    Minus,
    /// `||`
    OrOr,
    /// `::`
    PathMark,
    RightBrace,
    RightBracket,
    RightParenthesis,
    Semicolon,
    Star,
}

impl Sign {
    /// Whether nothing more of a list in parentheses stands here.
    pub(crate) fn ends_list(self) -> bool
        ensures { result ≡ reading.ends_list self }
    {
        match self {
            Sign::End | Sign::RightParenthesis => true,
            _ => false,
        }
    }
}

impl Sign {
    /// Whether this is a word that begins with a digit.
    pub(crate) fn is_number(self) -> bool
        ensures { result ≡ exprs.is_number self }
    {
        match self {
            Sign::Number => true,
            _ => false,
        }
    }

    /// Whether this is a dot.
    pub(crate) fn is_dot(self) -> bool
        ensures { result ≡ exprs.is_dot self }
    {
        match self {
            Sign::Dot => true,
            _ => false,
        }
    }
}

// The words that a reader tells apart.
const WORDS: [(&[u8], Sign); 17] = [
    (b"as", Sign::As),
    (b"break", Sign::Break),
    (b"continue", Sign::Continue),
    (b"crate", Sign::Crate),
    (b"else", Sign::Else),
    (b"extern", Sign::Extern),
    (b"false", Sign::False),
    (b"if", Sign::If),
    (b"let", Sign::Let),
    (b"loop", Sign::Loop),
    (b"match", Sign::Match),
    (b"None", Sign::NoneWord),
    (b"return", Sign::Return),
    (b"static", Sign::Static),
    (b"struct", Sign::Struct),
    (b"true", Sign::True),
    (b"_", Sign::Underscore),
];

// The marks that a reader tells apart.
const MARKS: [(&[u8], Sign); 18] = [
    (b"&&", Sign::AndAnd),
    (b"->", Sign::Arrow),
    (b"!", Sign::Bang),
    (b",", Sign::Comma),
    (b".", Sign::Dot),
    (b"=", Sign::Equal),
    (b"#", Sign::Hash),
    (b"{", Sign::LeftBrace),
    (b"[", Sign::LeftBracket),
    (b"(", Sign::LeftParenthesis),
    (b"-", Sign::Minus),
    (b"||", Sign::OrOr),
    (b"::", Sign::PathMark),
    (b"}", Sign::RightBrace),
    (b"]", Sign::RightBracket),
    (b")", Sign::RightParenthesis),
    (b";", Sign::Semicolon),
    (b"*", Sign::Star),
];

fn begins_with_digit(word: &[u8]) -> bool
    ensures { result ≡ signs.begins_with_digit word.now }
{
    match word {
        [] => false,
        [first, ..] => b'0' <= *first && *first <= b'9',
    }
}

#[tactic(auto, unfolding(crate::specs::Signs::words))]
fn key_sign(word: &[u8]) -> Sign
    ensures { result ≡ signs.entry_of signs.words word.now Name }
{
    entry_of(&WORDS, word, Sign::Name)
}

fn word_sign(word: &[u8]) -> Sign
    ensures { result ≡ signs.word_sign word.now }
{
    if begins_with_digit(word) {
        return Sign::Number;
    }
    key_sign(word)
}

#[tactic(auto, unfolding(crate::specs::Signs::marks))]
fn mark_sign(mark: &[u8]) -> Sign
    ensures { result ≡ signs.mark_sign mark.now }
{
    entry_of(&MARKS, mark, Sign::OtherMark)
}

/// What a token is.
pub(crate) fn sign_of(token: &Token) -> Sign
    ensures { result ≡ signs.sign (token_view token.now) }
{
    match &token.kind {
        TokenKind::Word(name) => word_sign(name.bytes()),
        TokenKind::Mark(name) => mark_sign(name.bytes()),
        TokenKind::Label(_) => Sign::Label,
        TokenKind::Quoted(_) => Sign::Quoted,
        TokenKind::Close => Sign::Close,
    }
}

/// The bytes of a token; the end of a list of types has none.
pub(crate) fn text(token: &Token) -> &[u8]
    ensures { result.now ≡ signs.text_of (token_view token.now) }
{
    match &token.kind {
        TokenKind::Word(name)
        | TokenKind::Mark(name)
        | TokenKind::Label(name)
        | TokenKind::Quoted(name) => name.bytes(),
        TokenKind::Close => b"",
    }
}

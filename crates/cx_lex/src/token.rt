use cr_base::Name;

/// A token of a C unit (ISO C99, 6.4).
#[derive(Debug, Drop)]
pub struct Token {
    pub kind: TokenKind,
    /// The line of the token's first byte in the file, from 1.
    pub line: u32,
}

/// What a token is.
#[derive(Debug, Drop)]
pub enum TokenKind {
    /// An identifier (6.4.2), by its bytes.
    Word(Name),
    /// A keyword (6.4.1).
    Key(Keyword),
    /// An integer constant (6.4.4.1): its value, and the first type of its list that holds it.
    Number { value: u64, ty: Ty0 },
    /// A character constant (6.4.4.4): its byte as a signed `char`, converted to `int`, so from -128
    /// to 127.
    Letter(i32),
    /// A string literal (6.4.5): its bytes, with each escape replaced by the byte that it stands for.
    /// Adjacent literals are apart here, and no zero byte is added.
    Text(Name),
    /// A mark (6.4.6).
    Mark(Punct),
}

/// A type of an integer constant (6.4.4.1).
#[derive(Clone, Copy, Debug, PartialEq, Eq)]
pub enum Ty0 {
    Int,
    Unsigned,
    Long,
    UnsignedLong,
    LongLong,
    UnsignedLongLong,
}

/// A keyword (6.4.1).
#[derive(Clone, Copy, Debug, PartialEq, Eq)]
pub enum Keyword {
    Auto,
    Break,
    Case,
    Char,
    Const,
    Continue,
    Default,
    Do,
    Double,
    Else,
    Enum,
    Extern,
    Float,
    For,
    Goto,
    If,
    Inline,
    Int,
    Long,
    Register,
    Restrict,
    Return,
    Short,
    Signed,
    Sizeof,
    Static,
    Struct,
    Switch,
    Typedef,
    Union,
    Unsigned,
    Void,
    Volatile,
    While,
    /// `_Bool`
    Bool,
    /// `_Complex`
    Complex,
    /// `_Imaginary`
    Imaginary,
}

/// A mark (6.4.6: a punctuator) other than `#`, `##`, `%:` and `%:%:`. The other digraphs are the
/// marks that they stand for.
#[derive(Clone, Copy, Debug, PartialEq, Eq)]
pub enum Punct {
    /// `[` or `<:`
    LeftBracket,
    /// `]` or `:>`
    RightBracket,
    /// `(`
    LeftParenthesis,
    /// `)`
    RightParenthesis,
    /// `{` or `<%`
    LeftBrace,
    /// `}` or `%>`
    RightBrace,
    /// `.`
    Dot,
    /// `->`
    Arrow,
    /// `++`
    PlusPlus,
    /// `--`
    MinusMinus,
    /// `&`
    Ampersand,
    /// `*`
    Star,
    /// `+`
    Plus,
    /// `-`
    Minus,
    /// `~`
    Tilde,
    /// `!`
    Exclamation,
    /// `/`
    Slash,
    /// `%`
    Percent,
    /// `<<`
    ShiftLeft,
    /// `>>`
    ShiftRight,
    /// `<`
    Less,
    /// `>`
    Greater,
    /// `<=`
    LessEqual,
    /// `>=`
    GreaterEqual,
    /// `==`
    EqualEqual,
    /// `!=`
    NotEqual,
    /// `^`
    Caret,
    /// `|`
    Bar,
    /// `&&`
    AndAnd,
    /// `||`
    BarBar,
    /// `?`
    Question,
    /// `:`
    Colon,
    /// `;`
    Semicolon,
    /// `...`
    Ellipsis,
    /// `=`
    Equal,
    /// `*=`
    StarEqual,
    /// `/=`
    SlashEqual,
    /// `%=`
    PercentEqual,
    /// `+=`
    PlusEqual,
    /// `-=`
    MinusEqual,
    /// `<<=`
    ShiftLeftEqual,
    /// `>>=`
    ShiftRightEqual,
    /// `&=`
    AmpersandEqual,
    /// `^=`
    CaretEqual,
    /// `|=`
    BarEqual,
    /// `,`
    Comma,
}

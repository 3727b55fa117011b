//! How keywords and marks are spelled (ISO C99, 6.4.1, 6.4.6).

use cx_lex::{Keyword, Punct};

/// The spelling of a keyword that stands in a tree as itself: a specifier or a qualifier (6.7).
pub(crate) fn key_text(word: Keyword) -> &'static str {
    match word {
        Keyword::Typedef => "typedef",
        Keyword::Extern => "extern",
        Keyword::Static => "static",
        Keyword::Auto => "auto",
        Keyword::Register => "register",
        Keyword::Void => "void",
        Keyword::Char => "char",
        Keyword::Short => "short",
        Keyword::Int => "int",
        Keyword::Long => "long",
        Keyword::Signed => "signed",
        Keyword::Unsigned => "unsigned",
        Keyword::Bool => "_Bool",
        Keyword::Const => "const",
        Keyword::Restrict => "restrict",
        Keyword::Inline => "inline",
        _ => "another keyword",
    }
}

/// The spelling of a mark that stands in a tree as itself: a unary or binary operator (6.5.3 to 6.5.14), or
/// one of assignment (6.5.16).
pub(crate) fn mark_text(mark: Punct) -> &'static str {
    match mark {
        Punct::Ampersand => "&",
        Punct::Star => "*",
        Punct::Plus => "+",
        Punct::Minus => "-",
        Punct::Tilde => "~",
        Punct::Exclamation => "!",
        Punct::Slash => "/",
        Punct::Percent => "%",
        Punct::ShiftLeft => "<<",
        Punct::ShiftRight => ">>",
        Punct::Less => "<",
        Punct::Greater => ">",
        Punct::LessEqual => "<=",
        Punct::GreaterEqual => ">=",
        Punct::EqualEqual => "==",
        Punct::NotEqual => "!=",
        Punct::Caret => "^",
        Punct::Bar => "|",
        Punct::AndAnd => "&&",
        Punct::BarBar => "||",
        _ => assignment_text(mark),
    }
}

fn assignment_text(mark: Punct) -> &'static str {
    match mark {
        Punct::Equal => "=",
        Punct::StarEqual => "*=",
        Punct::SlashEqual => "/=",
        Punct::PercentEqual => "%=",
        Punct::PlusEqual => "+=",
        Punct::MinusEqual => "-=",
        Punct::ShiftLeftEqual => "<<=",
        Punct::ShiftRightEqual => ">>=",
        Punct::AmpersandEqual => "&=",
        Punct::CaretEqual => "^=",
        Punct::BarEqual => "|=",
        _ => "another mark",
    }
}

//! Marks.

ghost use Rattle.std.specs.Prelude.{nat_eq, ◌≡◌, ◌<◌, ◌≤◌, length, map, IfSome};
ghost use Rattle.std.specs.List.{starts_with};
ghost use Rattle.cx_lex.specs.Marks.{marks};
ghost use Rattle.cx_lex.specs.Mirror.{mark_in};

use crate::token::Punct;

// The marks by their bytes (ISO C99, 6.4.6), those of more bytes first.
const MARKS: [(&[u8], Punct); 50] = [
    (b"...", Punct::Ellipsis),
    (b"<<=", Punct::ShiftLeftEqual),
    (b">>=", Punct::ShiftRightEqual),
    (b"->", Punct::Arrow),
    (b"++", Punct::PlusPlus),
    (b"--", Punct::MinusMinus),
    (b"<<", Punct::ShiftLeft),
    (b">>", Punct::ShiftRight),
    (b"<=", Punct::LessEqual),
    (b">=", Punct::GreaterEqual),
    (b"==", Punct::EqualEqual),
    (b"!=", Punct::NotEqual),
    (b"&&", Punct::AndAnd),
    (b"||", Punct::BarBar),
    (b"*=", Punct::StarEqual),
    (b"/=", Punct::SlashEqual),
    (b"%=", Punct::PercentEqual),
    (b"+=", Punct::PlusEqual),
    (b"-=", Punct::MinusEqual),
    (b"&=", Punct::AmpersandEqual),
    (b"^=", Punct::CaretEqual),
    (b"|=", Punct::BarEqual),
    (b"<:", Punct::LeftBracket),
    (b":>", Punct::RightBracket),
    (b"<%", Punct::LeftBrace),
    (b"%>", Punct::RightBrace),
    (b"[", Punct::LeftBracket),
    (b"]", Punct::RightBracket),
    (b"(", Punct::LeftParenthesis),
    (b")", Punct::RightParenthesis),
    (b"{", Punct::LeftBrace),
    (b"}", Punct::RightBrace),
    (b".", Punct::Dot),
    (b"&", Punct::Ampersand),
    (b"*", Punct::Star),
    (b"+", Punct::Plus),
    (b"-", Punct::Minus),
    (b"~", Punct::Tilde),
    (b"!", Punct::Exclamation),
    (b"/", Punct::Slash),
    (b"%", Punct::Percent),
    (b"<", Punct::Less),
    (b">", Punct::Greater),
    (b"^", Punct::Caret),
    (b"|", Punct::Bar),
    (b"?", Punct::Question),
    (b":", Punct::Colon),
    (b";", Punct::Semicolon),
    (b"=", Punct::Equal),
    (b",", Punct::Comma),
];

// Whether bytes begin with a mark. Most marks that are looked for begin otherwise.
fn begins_with(bytes: &[u8], mark: &[u8]) -> bool
    ensures { result ≡ starts_with nat_eq bytes.now mark.now }
{
    if let [first, ..] = mark {
        if let [head, ..] = bytes {
            if head != first {
                return false;
            }
        }
    }
    bytes.starts_with(mark)
}

fn mark_in(table: &[(&[u8], Punct)], bytes: &[u8]) -> Option<(usize, Punct)>
    ensures value { result ≡ mark_in (map (λ entry. (entry.0.now, entry.1)) table.now) bytes.now }
    ensures within { IfSome result (λ mark. mark.0 ≤ length bytes.now) }
{
    for entry in table {
        if begins_with(bytes, entry.0) {
            return Some((entry.0.len(), entry.1));
        }
    }
    None
}

/// The longest mark that the bytes begin with, and its size.
#[tactic(auto, unfolding(crate::specs::Marks::marks))]
pub fn mark_at(bytes: &[u8]) -> Option<(usize, Punct)>
    ensures value { result ≡ mark_in marks bytes.now }
    ensures within { IfSome result (λ mark. mark.0 ≤ length bytes.now) }
{
    mark_in(&MARKS, bytes)
}

//! The tokens of a C unit (ISO C99, 6.4), or the first rule of tokens that its bytes break.
#![tactic(auto)]

mod bytes;
mod fault;
mod laws;
mod lexer;
mod literals;
mod marks;
mod numbers;
mod piece;
mod place;
mod space;
mod token;
mod words;

pub use laws::{bytes_spell_once, bytes_spell_or_break, tokens_are_longest};
pub use lexer::lex;
pub use token::{Keyword, Punct, Token, TokenKind, Ty0};

//! The tokens of a file of a written crate (the Rust Reference, "Lexical structure").
#![tactic(auto)]

mod angles;
mod bytes;
mod front;
mod lexer;
mod marks;
mod same;
mod token;

pub use lexer::{LexFault, lex};
pub use same::{first_other_line, same_tokens};
pub use token::{Token, TokenKind};

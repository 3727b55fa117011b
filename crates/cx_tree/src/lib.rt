//! The syntax trees of a C unit (ISO C99, 6.5 to 6.9), what their tokens, their depth and the names in scope in
//! them are, and which tree a list of tokens derives.
#![tactic(auto)]

mod declaration;
mod declarator;
mod expr;
mod initialiser;
mod levels;
mod specifier;
mod stmt;
mod unit;
mod words;

pub use declaration::{Decl, InitDeclarator};
pub use declarator::{Brackets, Declarator, Param};
pub use expr::Expr;
pub use initialiser::{Designator, Entry, Initialiser, InitialiserList};
pub use levels::{binary_level, is_assignment_operator, is_unary_operator, level};
pub use specifier::{Enumerator, MemberDecl, MemberDeclarator, Spec, TypeName};
pub use stmt::{BlockItem, ForFirst, Stmt};
pub use unit::{Definition, External, Unit};
pub use words::{
    is_function_specifier, is_qualifier, is_storage_class, is_type_word, is_typedef_word,
};

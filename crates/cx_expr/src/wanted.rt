//! What a reader asks of the readers of its parts, and what they give.

use crate::nodes::{ReadDeclarator, ReadExpr, ReadList, ReadSpec, ReadTypeName};
use cx_words::Form;

/// What is asked for (ISO C99, 6.5 to 6.7).
#[derive(Clone, Copy)]
pub enum Wanted {
    /// An expression of this level or above.
    Expr(u32),
    TypeName,
    Spec,
    /// A declarator of this form that isn't missing.
    Declarator(Form),
    /// A list of initialisers in braces.
    List,
}

/// What was read.
#[derive(Drop)]
pub enum Found {
    Expr(ReadExpr),
    TypeName(ReadTypeName),
    Spec(ReadSpec),
    Declarator(ReadDeclarator),
    List(ReadList),
}

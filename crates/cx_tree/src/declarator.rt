use crate::expr::Expr;
use crate::specifier::Spec;
use cr_base::{Boxed, Items, Name};
use cx_lex::Keyword;

/// A declarator (ISO C99, 6.7.5), or an abstract one (6.7.6), which has no name.
#[cycle(tree)]
#[derive(Drop)]
pub enum Declarator {
    /// No name: the bottom of an abstract declarator. It is no node and prints nothing.
    Missing,
    /// The declared identifier.
    Identifier {
        name: Name,
        lines: Items<u32>,
    },
    /// `( inner )`.
    Group {
        inner: Boxed<Declarator>,
        lines: Items<u32>,
    },
    /// A pointer (6.7.5.1); its own tokens are `*` and the qualifiers behind it.
    Pointer {
        qualifiers: Items<Keyword>,
        of: Boxed<Declarator>,
        lines: Items<u32>,
    },
    /// An array (6.7.5.2); its own tokens are those of the brackets, without the length.
    Array {
        of: Boxed<Declarator>,
        brackets: Brackets,
        lines: Items<u32>,
    },
    /// A function with a list of parameter types (6.7.5.3); its own tokens are the parentheses, the
    /// commas, and `, ...` where it is variadic.
    Function {
        of: Boxed<Declarator>,
        params: Items<Param>,
        variadic: bool,
        lines: Items<u32>,
    },
    /// A function with a list of identifiers, which may be empty (6.7.5.3); its own tokens are the
    /// parentheses, the identifiers and the commas.
    Identifiers {
        of: Boxed<Declarator>,
        names: Items<Name>,
        lines: Items<u32>,
    },
}

/// What stands in the brackets of an array (6.7.5.2). It is no node; its tokens are the array's.
#[cycle(tree)]
#[derive(Drop)]
pub enum Brackets {
    /// `[ qualifiers ]`
    Unsized {
        qualifiers: Items<Keyword>,
    },
    /// `[ qualifiers length ]`
    Length {
        qualifiers: Items<Keyword>,
        length: Boxed<Expr>,
    },
    /// `[ static qualifiers length ]`
    StaticFirst {
        qualifiers: Items<Keyword>,
        length: Boxed<Expr>,
    },
    /// `[ qualifiers static length ]`, with one qualifier or more
    StaticLast {
        qualifiers: Items<Keyword>,
        length: Boxed<Expr>,
    },
    /// `[ qualifiers * ]`
    Star {
        qualifiers: Items<Keyword>,
    },
}

/// A parameter declaration (6.7.5), whose declarator may be missing or abstract. It prints no token itself.
#[cycle(tree)]
#[derive(Drop)]
pub struct Param {
    pub specs: Items<Spec>,
    pub declarator: Boxed<Declarator>,
    pub lines: Items<u32>,
}

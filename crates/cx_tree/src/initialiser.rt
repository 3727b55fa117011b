use crate::expr::Expr;
use cr_base::{Boxed, Items, Name};

/// An initialiser (ISO C99, 6.7.8). It is no node of its own.
#[cycle(tree)]
#[derive(Drop)]
pub enum Initialiser {
    /// An assignment expression.
    Single(Boxed<Expr>),
    /// A list in braces.
    Braced(Boxed<InitialiserList>),
}

/// A list of initialisers in braces (6.7.8); its own tokens are the braces and the commas. `last_comma` says
/// whether one stands behind the last entry.
#[cycle(tree)]
#[derive(Drop)]
pub struct InitialiserList {
    pub entries: Items<Entry>,
    pub last_comma: bool,
    pub lines: Items<u32>,
}

/// An initialiser in a list, with its designation (6.7.8); its own token is `=`, where there are designators.
#[cycle(tree)]
#[derive(Drop)]
pub struct Entry {
    pub designators: Items<Designator>,
    pub init: Boxed<Initialiser>,
    pub lines: Items<u32>,
}

/// A designator (6.7.8).
#[cycle(tree)]
#[derive(Drop)]
pub enum Designator {
    /// `[ at ]`
    Element { at: Boxed<Expr>, lines: Items<u32> },
    /// `. name`
    Member { name: Name, lines: Items<u32> },
}

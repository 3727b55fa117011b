use crate::declarator::{Declarator, Specs};
use crate::expr::Expr;
use cr_base::Items;

/// A declaration (ISO C99, 6.7); its own tokens are the commas between the declarators, and `;`.
#[derive(Drop)]
pub struct Decl {
    pub specs: Specs,
    pub list: Items<InitDeclarator>,
    pub lines: Items<u32>,
}

/// A declarator with the initialiser of what it declares (6.7); its own token is `=`, where an
/// initialiser stands.
#[derive(Drop)]
pub struct InitDeclarator {
    pub declarator: Declarator,
    pub init: Option<Initialiser>,
    pub lines: Items<u32>,
}

/// An initialiser (6.7.8).
#[derive(Drop)]
pub enum Initialiser {
    /// An assignment expression.
    Expr(Expr),
}

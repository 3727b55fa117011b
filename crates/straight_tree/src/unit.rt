use crate::declaration::Decl;
use crate::declarator::{Declarator, Specs};
use crate::stmt::Stmt;
use cr_base::Items;

/// A translation unit (ISO C99, 6.9). It prints no token itself.
#[derive(Drop)]
pub struct Unit {
    pub parts: Items<External>,
    pub lines: Items<u32>,
}

/// An external declaration (6.9).
#[derive(Drop)]
pub enum External {
    /// A function definition (6.9.1). It prints no token itself.
    Function {
        specs: Specs,
        declarator: Declarator,
        body: Stmt,
        lines: Items<u32>,
    },
    /// A declaration.
    Decl(Decl),
}

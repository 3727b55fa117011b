use crate::declaration::Decl;
use crate::declarator::Declarator;
use crate::specifier::Spec;
use crate::stmt::Stmt;
use cr_base::{Boxed, Items};

/// A translation unit (ISO C99, 6.9). It prints no token itself.
#[derive(Drop)]
pub struct Unit {
    pub parts: Items<External>,
    pub lines: Items<u32>,
}

/// An external declaration (6.9). It is no node of its own.
#[derive(Drop)]
pub enum External {
    Function(Boxed<Definition>),
    Declaration(Boxed<Decl>),
}

/// A function definition (6.9.1), without declarations between the declarator and the body. It prints no
/// token itself.
#[derive(Drop)]
pub struct Definition {
    pub specs: Items<Spec>,
    pub declarator: Boxed<Declarator>,
    pub body: Boxed<Stmt>,
    pub lines: Items<u32>,
}

use crate::declaration::Decl;
use crate::stmt::Stmt;
use cr_base::Boxed;

/// What stands in a compound statement (6.8.2). It is no node of its own.
#[cycle(statement)]
#[derive(Drop)]
pub enum BlockItem {
    Statement(Boxed<Stmt>),
    Declaration(Boxed<Decl>),
}

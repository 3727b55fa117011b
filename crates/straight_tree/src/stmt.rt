use crate::expr::Expr;
use cr_base::Items;

/// A statement (ISO C99, 6.8).
#[cycle(statement)]
#[derive(Drop)]
pub enum Stmt {
    /// A compound statement (6.8.2); its own tokens are the braces.
    Block {
        items: Items<BlockItem>,
        lines: Items<u32>,
    },
    /// An expression statement, or a null statement (6.8.3); its own token is `;`.
    Expr {
        expr: Option<Expr>,
        lines: Items<u32>,
    },
    /// A `return` statement (6.8.6.4); its own tokens are `return` and `;`.
    Return {
        value: Option<Expr>,
        lines: Items<u32>,
    },
}

/// What stands in a compound statement (6.8.2).
#[cycle(statement)]
#[derive(Drop)]
pub enum BlockItem {
    Stmt(Stmt),
}

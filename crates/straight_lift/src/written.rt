use crate::atom::Atom;
use cr_base::Items;
use straight_rust_tree::RStmt;

/// What is written for an expression.
#[derive(Drop)]
pub struct Written {
    /// The statements, in order.
    pub stmts: Items<RStmt>,
    /// What stands for its value behind them; None where it has none.
    pub value: Option<Atom>,
    /// The number of the next temporary.
    pub next: u32,
}

/// What is written for the arguments of a call.
#[derive(Drop)]
pub struct WrittenArgs {
    /// The statements, in order.
    pub stmts: Items<RStmt>,
    /// What stands for the value of each, from the left.
    pub values: Items<Option<Atom>>,
    /// The number of the next temporary.
    pub next: u32,
}

/// What is written for statements.
#[derive(Drop)]
pub struct WrittenStmts {
    /// The statements, in order.
    pub stmts: Items<RStmt>,
    /// The number of the next temporary.
    pub next: u32,
}

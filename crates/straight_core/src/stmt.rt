use crate::expr::CoreExpr;
use cr_base::{Items, Place};

/// A typed statement (ISO C99, 6.8).
#[cycle(stmt)]
#[derive(Drop)]
pub struct CoreStmt {
    /// The unit and line of the first token of the statement.
    pub place: Place,
    /// The numbers of the objects whose block it is (6.2.4p5), in text order.
    pub objects: Items<u32>,
    pub form: StmtForm,
}

/// What a statement does.
#[cycle(stmt)]
#[derive(Drop)]
pub enum StmtForm {
    /// A block (6.8.2): its statements in order.
    Block(Items<CoreStmt>),
    /// An expression statement (6.8.3). The expression has type `void`: a value is converted to it.
    Expr(CoreExpr),
    /// `return` (6.8.6.4), with a value of the function's result type, or without one.
    Return(Option<CoreExpr>),
}

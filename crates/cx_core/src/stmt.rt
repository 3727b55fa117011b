use crate::expr::{CoreExpr, Put};
use cr_base::{Boxed, Int, Items, Name, Place};

/// A typed statement (ISO C99, 6.8).
#[cycle(stmt)]
#[derive(Drop)]
pub struct CoreStmt {
    /// The unit and line of the first token of the statement.
    pub place: Place,
    /// The numbers of the objects whose block it is (6.2.4p5), in text order.
    pub objects: Items<u32>,
    pub form: StmtForm,
}

/// What a statement does.
#[cycle(stmt)]
#[derive(Drop)]
pub enum StmtForm {
    /// A statement with a label (6.8.1).
    Label(Name, Boxed<CoreStmt>),
    /// A statement behind `case` (6.8.1), with the value in the promoted type of the `switch`.
    Case(Int, Boxed<CoreStmt>),
    /// A statement behind `default` (6.8.1).
    Default(Boxed<CoreStmt>),
    /// A block (6.8.2): its statements in order.
    Block(Items<CoreStmt>),
    /// An expression statement, or the null statement (6.8.3). The expression has type `void`: a value is
    /// converted to it.
    Expr(Option<Boxed<CoreExpr>>),
    /// `if` (6.8.4.1): the condition, and the statements for values that aren't 0 and for 0.
    If(Boxed<CoreExpr>, Boxed<CoreStmt>, Option<Boxed<CoreStmt>>),
    /// `switch` (6.8.4.2).
    Switch(Boxed<CoreExpr>, Boxed<CoreStmt>),
    /// `while` (6.8.5.1).
    While(Boxed<CoreExpr>, Boxed<CoreStmt>),
    /// `do` (6.8.5.2).
    Do(Boxed<CoreStmt>, Boxed<CoreExpr>),
    /// `for` (6.8.5.3): its declarations, or one expression statement, or none; its condition; its third
    /// expression, of type `void`; and its body.
    For {
        first: Items<CoreStmt>,
        test: Option<Boxed<CoreExpr>>,
        next: Option<Boxed<CoreExpr>>,
        body: Boxed<CoreStmt>,
    },
    /// `goto` to a label of the function (6.8.6.1).
    Goto(Name),
    /// `continue` (6.8.6.2).
    Continue,
    /// `break` (6.8.6.3).
    Break,
    /// `return` (6.8.6.4), with a value of the function's result type, or without one.
    Return(Option<Boxed<CoreExpr>>),
    /// The declaration of an object that isn't static is reached (6.2.4p6): its number, and what its
    /// initialiser stores in the order of the places, or None without one.
    Begin(u32, Option<Items<Put>>),
}

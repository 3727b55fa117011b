mod items;

use crate::declaration::Decl;
use crate::expr::Expr;
use cr_base::{Boxed, Items, Name};
pub use items::BlockItem;

/// A statement (ISO C99, 6.8). Each has `lines`, the line of each token that it prints itself, in text order.
#[cycle(statement)]
#[derive(Drop)]
pub enum Stmt {
    /// `name : stmt` (6.8.1).
    Label {
        name: Name,
        stmt: Boxed<Stmt>,
        lines: Items<u32>,
    },
    /// `case value : stmt` (6.8.1).
    Case {
        value: Boxed<Expr>,
        stmt: Boxed<Stmt>,
        lines: Items<u32>,
    },
    /// `default : stmt` (6.8.1).
    Default {
        stmt: Boxed<Stmt>,
        lines: Items<u32>,
    },
    /// `{ items }` (6.8.2).
    Block {
        items: Items<BlockItem>,
        lines: Items<u32>,
    },
    /// `expr ;`, or a null statement (6.8.3).
    Expr {
        expr: Option<Boxed<Expr>>,
        lines: Items<u32>,
    },
    /// `if ( condition ) branch`, or that and `else otherwise` (6.8.4.1).
    If {
        condition: Boxed<Expr>,
        branch: Boxed<Stmt>,
        otherwise: Option<Boxed<Stmt>>,
        lines: Items<u32>,
    },
    /// `switch ( on ) body` (6.8.4.2).
    Switch {
        on: Boxed<Expr>,
        body: Boxed<Stmt>,
        lines: Items<u32>,
    },
    /// `while ( condition ) body` (6.8.5.1).
    While {
        condition: Boxed<Expr>,
        body: Boxed<Stmt>,
        lines: Items<u32>,
    },
    /// `do body while ( condition ) ;` (6.8.5.2).
    Do {
        body: Boxed<Stmt>,
        condition: Boxed<Expr>,
        lines: Items<u32>,
    },
    /// `for ( first ; second ; third ) body` (6.8.5.3); a declaration in the place of `first` prints its
    /// semicolon itself.
    For {
        first: ForFirst,
        second: Option<Boxed<Expr>>,
        third: Option<Boxed<Expr>>,
        body: Boxed<Stmt>,
        lines: Items<u32>,
    },
    /// `goto name ;` (6.8.6.1).
    Goto {
        name: Name,
        lines: Items<u32>,
    },
    /// `continue ;` (6.8.6.2).
    Continue {
        lines: Items<u32>,
    },
    /// `break ;` (6.8.6.3).
    Break {
        lines: Items<u32>,
    },
    /// `return value ;`, or `return ;` (6.8.6.4).
    Return {
        value: Option<Boxed<Expr>>,
        lines: Items<u32>,
    },
}

/// The first clause of a `for` statement (6.8.5.3). It is no node of its own.
#[derive(Drop)]
pub enum ForFirst {
    /// An expression, which may be missing.
    Value(Option<Boxed<Expr>>),
    Declared(Boxed<Decl>),
}

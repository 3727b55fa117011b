use cr_base::{Boxed, Items, Name};
use cx_lex::{Punct, Ty0};

/// An expression (ISO C99, 6.5). Each has `lines`, the line of each token that it prints itself, in
/// text order.
#[derive(Drop)]
pub enum Expr {
    /// An identifier (6.5.1).
    Name {
        name: Name,
        lines: Items<u32>,
    },
    /// An integer constant (6.5.1, 6.4.4.1): its value and its type.
    Number {
        value: u64,
        ty: Ty0,
        lines: Items<u32>,
    },
    /// An expression in parentheses (6.5.1).
    Paren {
        inner: Boxed<Expr>,
        lines: Items<u32>,
    },
    /// A function call (6.5.2.2).
    Call {
        of: Boxed<Expr>,
        args: Items<Expr>,
        lines: Items<u32>,
    },
    /// A unary operator and its operand (6.5.3).
    Unary {
        op: Punct,
        on: Boxed<Expr>,
        lines: Items<u32>,
    },
    /// A binary operator between its operands (6.5.5 to 6.5.14).
    Binary {
        left: Boxed<Expr>,
        op: Punct,
        right: Boxed<Expr>,
        lines: Items<u32>,
    },
    /// An assignment (6.5.16).
    Assign {
        left: Boxed<Expr>,
        op: Punct,
        right: Boxed<Expr>,
        lines: Items<u32>,
    },
}

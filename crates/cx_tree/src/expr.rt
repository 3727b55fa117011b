use crate::initialiser::InitialiserList;
use crate::specifier::TypeName;
use cr_base::{Boxed, Items, Name};
use cx_lex::{Punct, Ty0};

/// An expression (ISO C99, 6.5). Each has `lines`, the line of each token that it prints itself, in
/// text order.
#[cycle(tree)]
#[derive(Drop)]
pub enum Expr {
    /// An identifier (6.5.1).
    Name {
        name: Name,
        lines: Items<u32>,
    },
    /// An integer constant (6.5.1, 6.4.4.1): its value and its type.
    Number {
        value: u64,
        ty: Ty0,
        lines: Items<u32>,
    },
    /// A character constant (6.5.1, 6.4.4.4): its value, from -128 to 127.
    Letter {
        value: i32,
        lines: Items<u32>,
    },
    /// One string literal or more that are adjacent (6.5.1, 6.4.5): the bytes of each, without a zero
    /// byte at the end, and the line of each.
    Text {
        parts: Items<Name>,
        lines: Items<u32>,
    },
    /// `( inner )` (6.5.1).
    Paren {
        inner: Boxed<Expr>,
        lines: Items<u32>,
    },
    /// `of [ index ]` (6.5.2.1).
    Index {
        of: Boxed<Expr>,
        index: Boxed<Expr>,
        lines: Items<u32>,
    },
    /// `of ( args )` (6.5.2.2); its own tokens are the parentheses and the commas.
    Call {
        of: Boxed<Expr>,
        args: Items<Expr>,
        lines: Items<u32>,
    },
    /// `of . member` (6.5.2.3).
    Dot {
        of: Boxed<Expr>,
        member: Name,
        lines: Items<u32>,
    },
    /// `of -> member` (6.5.2.3).
    Arrow {
        of: Boxed<Expr>,
        member: Name,
        lines: Items<u32>,
    },
    /// `of ++` (6.5.2.4).
    PostUp {
        of: Boxed<Expr>,
        lines: Items<u32>,
    },
    /// `of --` (6.5.2.4).
    PostDown {
        of: Boxed<Expr>,
        lines: Items<u32>,
    },
    /// `( of ) { .. }`, a compound literal (6.5.2.5); its own tokens are the parentheses.
    Literal {
        of: Boxed<TypeName>,
        list: Boxed<InitialiserList>,
        lines: Items<u32>,
    },
    /// `++ on` (6.5.3.1).
    PreUp {
        on: Boxed<Expr>,
        lines: Items<u32>,
    },
    /// `-- on` (6.5.3.1).
    PreDown {
        on: Boxed<Expr>,
        lines: Items<u32>,
    },
    /// A unary operator and its operand (6.5.3.2, 6.5.3.3).
    Unary {
        op: Punct,
        on: Boxed<Expr>,
        lines: Items<u32>,
    },
    /// `sizeof on` (6.5.3.4).
    SizeofExpr {
        on: Boxed<Expr>,
        lines: Items<u32>,
    },
    /// `sizeof ( of )` (6.5.3.4).
    SizeofType {
        of: Boxed<TypeName>,
        lines: Items<u32>,
    },
    /// `( to ) on` (6.5.4).
    Cast {
        to: Boxed<TypeName>,
        on: Boxed<Expr>,
        lines: Items<u32>,
    },
    /// A binary operator between its operands (6.5.5 to 6.5.14).
    Binary {
        left: Boxed<Expr>,
        op: Punct,
        right: Boxed<Expr>,
        lines: Items<u32>,
    },
    /// `condition ? if_true : if_false` (6.5.15).
    Cond {
        condition: Boxed<Expr>,
        if_true: Boxed<Expr>,
        if_false: Boxed<Expr>,
        lines: Items<u32>,
    },
    /// An assignment operator between its operands (6.5.16).
    Assign {
        left: Boxed<Expr>,
        op: Punct,
        right: Boxed<Expr>,
        lines: Items<u32>,
    },
    /// `left , right` (6.5.17).
    Comma {
        left: Boxed<Expr>,
        right: Boxed<Expr>,
        lines: Items<u32>,
    },
}

use crate::ty::Ty;
use cr_base::{Boxed, Int, Items, Place};

/// A typed expression (ISO C99, 6.5). Each conversion, also one that no cast writes, is a node.
#[cycle(expr)]
#[derive(Drop)]
pub struct CoreExpr {
    pub ty: Ty,
    /// The unit and line of the first token of the node.
    pub place: Place,
    pub form: Form,
}

/// What a node of an expression does.
#[cycle(expr)]
#[derive(Drop)]
pub enum Form {
    /// A constant of integer type (6.4.4).
    Whole(Int),
    /// The object with this number (6.5.1p2), an lvalue.
    Object(u32),
    /// The value that an object holds (6.3.2.1p2). The operand is an lvalue.
    Load(Boxed<CoreExpr>),
    /// A conversion to the type of the node (6.3), `void` among them.
    Convert(Boxed<CoreExpr>),
    /// A unary arithmetic operator (6.5.3.3).
    Unary(Op1, Boxed<CoreExpr>),
    /// A binary operator whose operands are both evaluated (6.5.5 to 6.5.12).
    Binary(Op2, Boxed<CoreExpr>, Boxed<CoreExpr>),
    /// A simple assignment (6.5.16.1): the lvalue, and the value that is stored there.
    Assign(Boxed<CoreExpr>, Boxed<CoreExpr>),
    /// A call of the function with this number by its name (6.5.2.2), with its arguments from the left.
    Call(u32, Items<CoreExpr>),
}

/// A unary arithmetic operator (ISO C99, 6.5.3.3).
#[derive(Clone, Copy, Debug, PartialEq, Eq)]
pub enum Op1 {
    /// `-`.
    Minus,
}

/// A binary operator whose operands are both evaluated (ISO C99, 6.5.5 to 6.5.12).
#[derive(Clone, Copy, Debug, PartialEq, Eq)]
pub enum Op2 {
    /// `+` (6.5.6).
    Add,
    /// `-` (6.5.6).
    Subtract,
    /// `*` (6.5.5).
    Multiply,
}

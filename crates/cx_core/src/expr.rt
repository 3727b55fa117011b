use crate::ty::Ty;
use cr_base::{Boxed, Int, Items, Place, Spot};

/// A typed expression (ISO C99, 6.5). Each conversion, also one that no cast writes, is a node.
#[cycle(expr)]
#[derive(Drop)]
pub struct CoreExpr {
    pub ty: Ty,
    /// The unit and line of the first token of the node.
    pub place: Place,
    pub form: Form,
}

/// What a node of an expression does.
#[cycle(expr)]
#[derive(Drop)]
pub enum Form {
    /// A constant of integer type (6.4.4).
    Whole(Int),
    /// A null pointer (6.3.2.3p3).
    Null,
    /// The object with this number (6.5.1p2), an lvalue.
    Object(u32),
    /// A pointer to the function with this number (6.3.2.1p4).
    Code(u32),
    /// The value that an object holds (6.3.2.1p2). The operand is an lvalue.
    Load(Boxed<CoreExpr>),
    /// What a pointer points to (6.5.3.2p4), an lvalue.
    Deref(Boxed<CoreExpr>),
    /// The member at this place of a structure or union (6.5.2.3), an lvalue where the operand is one.
    Member(Boxed<CoreExpr>, Spot),
    /// The address of an lvalue, or of the first element of an array (6.5.3.2p3, 6.3.2.1p3).
    Address(Boxed<CoreExpr>),
    /// A conversion to the type of the node (6.3), `void` among them.
    Convert(Boxed<CoreExpr>),
    /// A unary arithmetic operator (6.5.3.3).
    Unary(Op1, Boxed<CoreExpr>),
    /// A binary operator whose operands are both evaluated (6.5.5 to 6.5.12).
    Binary(Op2, Boxed<CoreExpr>, Boxed<CoreExpr>),
    /// `&&` (6.5.13).
    And(Boxed<CoreExpr>, Boxed<CoreExpr>),
    /// `||` (6.5.14).
    Or(Boxed<CoreExpr>, Boxed<CoreExpr>),
    /// `?:` (6.5.15).
    Cond(Boxed<CoreExpr>, Boxed<CoreExpr>, Boxed<CoreExpr>),
    /// A simple assignment (6.5.16.1): the lvalue, and the value that is stored there.
    Assign(Boxed<CoreExpr>, Boxed<CoreExpr>),
    /// A compound assignment (6.5.16.2): the operator, the type in which it computes, the lvalue, and the
    /// right operand.
    AssignBy(Op2, Boxed<Ty>, Boxed<CoreExpr>, Boxed<CoreExpr>),
    /// `++` or `--` of an lvalue, behind it or in front of it (6.5.2.4, 6.5.3.1).
    Step {
        up: bool,
        post: bool,
        on: Boxed<CoreExpr>,
    },
    /// A call of the function with this number by its name (6.5.2.2), with its arguments from the left.
    Call(u32, Items<CoreExpr>),
    /// A call of the function that a pointer points to (6.5.2.2), with its arguments from the left.
    CallBy(Boxed<CoreExpr>, Items<CoreExpr>),
    /// The comma operator (6.5.17).
    Comma(Boxed<CoreExpr>, Boxed<CoreExpr>),
    /// A compound literal in a block (6.5.2.5), an lvalue: the number of its object, and what is stored
    /// there in the order of the places.
    Literal(u32, Items<Put>),
}

/// One value that an initialiser stores (ISO C99, 6.7.8).
#[cycle(expr)]
#[derive(Drop)]
pub struct Put {
    /// Where it stands in the object.
    pub spot: Spot,
    /// The type of the part of the object.
    pub ty: Ty,
    /// A value of that type.
    pub value: Boxed<CoreExpr>,
}

/// A unary arithmetic operator (ISO C99, 6.5.3.3).
#[derive(Clone, Copy, PartialEq, Eq)]
pub enum Op1 {
    /// `+`.
    Plus,
    /// `-`.
    Minus,
    /// `~`.
    Complement,
    /// `!`.
    Not,
}

/// A binary operator whose operands are both evaluated (ISO C99, 6.5.5 to 6.5.12).
#[derive(Clone, Copy, PartialEq, Eq)]
pub enum Op2 {
    /// `*` (6.5.5).
    Multiply,
    /// `/` (6.5.5).
    Divide,
    /// `%` (6.5.5).
    Remainder,
    /// `+` (6.5.6).
    Add,
    /// `-` (6.5.6).
    Subtract,
    /// `<<` (6.5.7).
    ShiftLeft,
    /// `>>` (6.5.7).
    ShiftRight,
    /// `<` (6.5.8).
    Less,
    /// `>` (6.5.8).
    Greater,
    /// `<=` (6.5.8).
    LessOrEqual,
    /// `>=` (6.5.8).
    GreaterOrEqual,
    /// `==` (6.5.9).
    Equal,
    /// `!=` (6.5.9).
    NotEqual,
    /// `&` (6.5.10).
    BitAnd,
    /// `^` (6.5.11).
    BitXor,
    /// `|` (6.5.12).
    BitOr,
}

/// An operator between two operands that are both evaluated (the Rust Reference, "Arithmetic and logical
/// binary operators" and "Comparison operators").
#[derive(Clone, Copy, PartialEq, Eq)]
pub enum Operator {
    Add,
    Sub,
    Mul,
    Div,
    Rem,
    BitAnd,
    BitOr,
    BitXor,
    Shl,
    Shr,
    Equal,
    NotEqual,
    Less,
    LessEqual,
    Greater,
    GreaterEqual,
}

/// An operation modulo 2 to the width of an integer type (`core`, the integer types' methods).
#[derive(Clone, Copy, PartialEq, Eq)]
pub enum Wrapping {
    WrappingAdd,
    WrappingSub,
    WrappingMul,
}

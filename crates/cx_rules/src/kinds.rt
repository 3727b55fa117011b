/// What an expression is before its value is taken (ISO C99, 6.3.2.1).
#[derive(Clone, Copy, PartialEq, Eq)]
pub enum OperandKind {
    /// It gives a value, or where its type is `void` nothing.
    Value,
    /// An lvalue: it names an object (6.3.2.1p1).
    Place,
    /// A function designator (6.3.2.1p4); its node is a pointer to the function.
    Function,
    /// What a pointer to `void` points to (6.5.3.2p4); its node is the pointer.
    VoidPlace,
}

/// In which of the ways that its constraints allow a binary operator takes its operands (ISO C99, 6.5.5 to 6.5.14).
#[derive(Clone, Copy, PartialEq, Eq)]
pub enum Pairing {
    /// Both are integers, which are converted to their common type.
    Arithmetic,
    /// Both are integers, which are promoted each by itself: shifts (6.5.7p3).
    Shift,
    /// A pointer, and an integer that moves it (6.5.6p2).
    PointerInteger,
    /// An integer, and a pointer that it moves (6.5.6p2).
    IntegerPointer,
    /// Two pointers whose types go together as they are (6.5.6p3, 6.5.8p2, 6.5.9p2).
    Pointers,
    /// The left operand is converted to the pointer type of the right one (6.5.9p5).
    LeftConverted,
    /// The right operand is converted to the pointer type of the left one (6.5.9p5).
    RightConverted,
    /// Both are scalars, which are tested: `&&` and `||` (6.5.13p2, 6.5.14p2).
    Tests,
    /// The operator doesn't take these.
    Nothing,
}

/// Where specifiers of a declaration stand, so far as it decides which of them may stand there (ISO C99, 6.7).
#[derive(Clone, Copy, PartialEq, Eq)]
pub enum SpecsPlace {
    /// In a declaration outside of functions.
    File,
    /// In the definition of a function.
    Definition,
    /// In a declaration in a block.
    Block,
    /// In the first clause of a `for` statement.
    ForClause,
    /// In a parameter.
    Parameter,
    /// In a type name, or in a declaration of members.
    Plain,
}

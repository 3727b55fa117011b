/// What surrounds a node of a full expression.
#[derive(Clone, Copy, Debug, PartialEq, Eq)]
pub struct Asked {
    /// Its value is used: not that of a full expression of type `void`, of the first operand of a comma, or of what is converted to `void`.
    pub used: bool,
    /// It is an operand of a binary operator, an assignment or a call, and a call stands in an operand to its right.
    pub pinned: bool,
    /// It is the structure or union of a bit-field.
    pub is_base: bool,
}

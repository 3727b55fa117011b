use cr_base::Int;

/// A pointer to an object: the number of a block and the offset of a byte in it. It may point past
/// the end of its block, and to a block that is dead.
#[derive(Clone, Copy, Debug, PartialEq, Eq)]
pub struct Ptr {
    /// The number of the block.
    pub block: u64,
    /// The offset, in bytes from the start of the block.
    pub offset: u64,
}

/// A value of a scalar type (ISO C99, 6.2.5p21).
#[derive(Clone, Copy, Debug, PartialEq, Eq)]
pub enum Value {
    /// A value of an integer type, `_Bool` too.
    Whole(Int),
    /// A null pointer, to an object or to a function (6.3.2.3p3).
    Null,
    /// A pointer to an object that isn't null.
    Object(Ptr),
    /// A pointer to the function with this number.
    Code(u32),
}

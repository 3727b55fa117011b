/// Why a run of a crate is wrong: its next step has no meaning in Rust.
#[derive(Clone, Copy, Debug, PartialEq, Eq)]
pub enum Cause {
    /// A result of `+`, `-`, `*` or unary minus isn't a value of its type.
    Overflow,
    /// `/` or `%` with divisor 0, or with a quotient that isn't a value of its type.
    Divisor,
    /// A shift by at least as many bits as the type has.
    Shift,
    /// An access to an object that has ended, or that never began.
    Dead,
    /// An access that leaves its object, or through null.
    Outside,
    /// A scalar is read of which a bit was never set.
    Unset,
    /// A byte of a `bool` is read that is neither 0 nor 1.
    BadBool,
    /// Bytes of a stored pointer are read as another kind of value.
    MixedPointer,
    /// An access at a place that isn't aligned for its type.
    Misaligned,
    /// `offset` that leaves the object, or of null.
    Offset,
    /// `offset_from`, or an order of pointers, not within one object or by no whole multiple.
    Apart,
    /// A call of `None`.
    NoneCall,
    /// A call with other arguments or another result than the function has.
    WrongCall,
    /// `free` of what is no start of an allocated block.
    BadFree,
    /// `memcpy` between bytes that overlap.
    Overlap,
}

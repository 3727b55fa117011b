use cr_base::Int;

/// What stands for the value of an expression behind the statements that are written for it.
#[derive(Clone, Copy, Debug, PartialEq, Eq)]
pub enum Atom {
    /// A literal of type `i32`.
    Fixed(Int),
    /// The temporary with this number, from 0 on.
    Temporary(u32),
}

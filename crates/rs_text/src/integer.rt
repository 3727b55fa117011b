/// An integer type (the Rust Reference, "Numeric types").
#[derive(Clone, Copy, PartialEq, Eq)]
pub enum IntegerTy {
    I8,
    I16,
    I32,
    I64,
    U8,
    U16,
    U32,
    U64,
    Isize,
    Usize,
}

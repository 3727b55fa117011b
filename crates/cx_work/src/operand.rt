//! Finished operands (ISO C99, 6.5p1): what one gives, of which type, and what was accessed for it.

use crate::marks::Marks;
use cr_base::{Items, Place};
use cx_core::{Basic, Fun, Outer, Ty};
use mem_bytes::{Cell, Ptr, Value};

/// The type of an operand: it is read where the program has it, and never copied.
#[derive(Clone, Copy)]
pub enum OperandTy<'a> {
    /// A type of the program.
    Of(&'a Ty),
    /// Its unqualified version.
    Unqualified(&'a Ty),
    /// An unqualified basic type, as the integer promotions give one.
    Basic(Basic),
}

/// A scalar value and its type.
#[derive(Clone, Copy)]
pub struct Typed<'a> {
    pub ty: OperandTy<'a>,
    pub value: Value,
}

/// What a finished operand gives.
#[derive(Drop)]
pub enum Finished {
    /// A value of a scalar type (6.2.5p21).
    Scalar(Value),
    /// A value of a structure or union type: its cells, and the object from which they were read, if they were.
    Cells(Items<Cell>, Option<Ptr>),
    /// An lvalue (6.3.2.1p1): the object in scope with this number.
    Names(u32),
    /// An lvalue: what a pointer points to. It may be null, to a dead object, or past an end.
    Designates(Value),
    /// An lvalue: a bit-field at a place, with the bit at which it begins and its width.
    Bits(Ptr, u32, u32),
    /// No value, as of a call whose result is `void` (6.3.2.2), or that ended without one (6.9.1p12).
    Missing,
}

/// A finished operand.
#[derive(Drop)]
pub struct Operand<'a> {
    pub ty: &'a Ty,
    pub value: Finished,
    pub marks: Marks,
}

/// A function that is called.
#[derive(Clone, Copy)]
pub enum Callee<'a> {
    /// One that a unit defines.
    Defined(&'a Fun),
    /// One that no unit defines.
    External(&'a Outer),
}

/// A call: the function, the place and the type of its node, and its arguments.
#[derive(Drop)]
pub struct Called<'a> {
    pub callee: Callee<'a>,
    pub place: Place,
    pub ty: &'a Ty,
    pub args: Items<Operand<'a>>,
}

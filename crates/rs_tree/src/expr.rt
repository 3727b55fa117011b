use crate::ty::{RPath, RTy};
use cr_base::{Boxed, Int, Items, Name};
use rs_text::{IntegerTy, Operator, Wrapping};

/// A place (the Rust Reference, "Place expressions and value expressions").
#[cycle(expression)]
#[derive(Drop)]
pub enum RPlace {
    /// A parameter or a local.
    Local(Name),
    /// A static object of a module.
    Static(RPath),
    /// `*o`, what a pointer points to ("The dereference operator").
    Deref(Boxed<RExpr>),
    /// `p.f`, a field of a record ("Field access expressions"); a place `*o` stands in parentheses here.
    Field(Boxed<RPlace>, Name),
}

/// An expression (the Rust Reference, "Expressions").
#[cycle(expression)]
#[derive(Drop)]
pub enum RExpr {
    /// An integer literal with its type as suffix; a negative one has a sign before it.
    Literal(Int, IntegerTy),
    /// `true` or `false`.
    Truth(bool),
    /// `None`, no function.
    NoFunction,
    /// A place that is read.
    Read(Boxed<RPlace>),
    /// `crate::m::x(e, e)`, a call of a function ("Call expressions").
    Call(RPath, Items<RExpr>),
    /// `o.unwrap()(e, e)`, a call by a function pointer; it panics where there is no function.
    CallBy(Boxed<RExpr>, Items<RExpr>),
    /// `o.wrapping_add(e)` and its like, modulo 2 to the width of the type.
    Wrapping(Boxed<RExpr>, Wrapping, Boxed<RExpr>),
    /// `o.wrapping_neg()`.
    WrappingNeg(Boxed<RExpr>),
    /// `o.offset(e)`, the pointer moved by so many values of its target.
    Offset(Boxed<RExpr>, Boxed<RExpr>),
    /// `o.offset_from(e)`, how many values of its target a pointer is behind another.
    OffsetFrom(Boxed<RExpr>, Boxed<RExpr>),
    /// `o.is_null()`, of a raw pointer.
    IsNull(Boxed<RExpr>),
    /// `o.is_none()`, of a function pointer.
    IsNone(Boxed<RExpr>),
    /// `core::ptr::addr_of_mut!(p)`, the address of a place.
    AddressOf(Boxed<RPlace>),
    /// `core::ptr::null_mut::<T>()`, the null pointer to a value of the type T.
    NullPointer(Boxed<RTy>),
    /// `Some(crate::m::x as unsafe extern "C" fn(T) -> T)`, the address of a function, with the types
    /// of its parameters and of its result.
    SomeFunction(RPath, Items<RTy>, Option<Boxed<RTy>>),
    /// `core::mem::transmute::<T, T>(e)`, the same bits as a value of the second type.
    Transmute(Boxed<RTy>, Boxed<RTy>, Boxed<RExpr>),
    /// `-o`.
    Neg(Boxed<RExpr>),
    /// `!o`.
    Not(Boxed<RExpr>),
    /// `o as T` ("Type cast expressions").
    Cast(Boxed<RExpr>, Boxed<RTy>),
    /// `o op o`, of which both operands are evaluated.
    Binary(Boxed<RExpr>, Operator, Boxed<RExpr>),
    /// `o && o` ("Lazy boolean operators").
    And(Boxed<RExpr>, Boxed<RExpr>),
    /// `o || o`.
    Or(Boxed<RExpr>, Boxed<RExpr>),
    /// `if e { e } else { e }` ("if expressions").
    Choose(Boxed<RExpr>, Boxed<RExpr>, Boxed<RExpr>),
}

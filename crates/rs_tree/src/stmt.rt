use crate::expr::{RExpr, RPlace};
use cr_base::{Boxed, Int, Items, Name};
use rs_text::IntegerTy;

/// A statement (the Rust Reference, "Statements"). A label is kept without its quote.
#[cycle(statement)]
#[derive(Drop)]
pub enum RStmt {
    /// `p = e;`, which stores the value of e in the place p ("Assignment expressions").
    Assign(Boxed<RPlace>, Boxed<RExpr>),
    /// `e;` for a call, whose result is dropped.
    Eval(Boxed<RExpr>),
    /// `core::ptr::copy(e, e, e);`, which copies bytes from the first pointer to the second.
    CopyBytes(Boxed<RExpr>, Boxed<RExpr>, Boxed<RExpr>),
    /// `if e { .. } else { .. }`; there is no `else` where the second list is empty.
    If(Boxed<RExpr>, Items<RStmt>, Items<RStmt>),
    /// `'l: loop { .. }`, or without a label ("Infinite loops").
    Loop(Option<Name>, Items<RStmt>),
    /// `'l: { .. }` ("Labelled block expressions").
    Block(Name, Items<RStmt>),
    /// `break 'l;`.
    Break(Name),
    /// `continue 'l;`.
    Continue(Name),
    /// `match e { .. }`, with the arms of literals and the statements of the last arm, `_`
    /// ("match expressions").
    Match(Boxed<RExpr>, Items<Arm>, Items<RStmt>),
    /// `return e;`, or `return;`.
    Return(Option<Boxed<RExpr>>),
}

/// `1i32 => { .. }`, an arm of a literal.
#[cycle(statement)]
#[derive(Drop)]
pub struct Arm {
    pub value: Int,
    /// The type that the literal has as suffix.
    pub ty: IntegerTy,
    pub body: Items<RStmt>,
}

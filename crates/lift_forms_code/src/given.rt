use cr_base::Boxed;
use rs_tree::{RExpr, RPlace};

/// How the written crate gives what an expression of C gives (ISO C99, 6.5; the Rust Reference, "Place expressions and value expressions").
#[derive(Drop)]
pub enum RGiven {
    /// Nothing: it has no value, or its value isn't used.
    Nothing,
    /// The `int` 0 or 1 as a `bool`: what a comparison, `!`, `&&` and `||` give.
    Truth(Boxed<RExpr>),
    /// A value; of a structure or union the address of its place.
    Value(Boxed<RExpr>),
    /// The place of an lvalue.
    Place(Boxed<RPlace>),
}

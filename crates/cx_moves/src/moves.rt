//! What comes next in a body (ISO C99, 6.8).

use cr_base::Place;
use cx_core::{CoreExpr, CoreObject, CoreStmt, Put};

/// What the end of a function gives.
#[derive(Clone, Copy)]
pub enum Left {
    Nothing,
    Zero,
}

/// What is done behind the last put of an object.
#[derive(Clone, Copy)]
pub enum Behind<'a> {
    /// The body goes on.
    Body,
    /// Other static objects, those of this list that are defined, have puts.
    Statics(&'a [CoreObject]),
}

/// A put that is stored once its value is there.
#[derive(Clone, Copy)]
pub struct Putting<'a> {
    /// The number of the object.
    pub object: u32,
    pub put: &'a Put,
    /// The puts of the object behind it.
    pub others: &'a [Put],
    pub behind: Behind<'a>,
}

/// What is done with the value of a full expression.
#[derive(Clone, Copy)]
pub enum Purpose<'a> {
    /// It is stored (6.7.8).
    Puts(Putting<'a>),
    /// It is dropped, and what follows is next (6.8.3).
    Drops,
    /// It is dropped, and the loop goes on to its next turn (6.8.5.3).
    Turns,
    /// The function gives it back (6.8.6.4).
    Gives(Place),
    /// The innermost open statement chooses by it (6.8.4, 6.8.5).
    Chooses(Place),
}

/// What follows once the objects of a statement have begun.
#[derive(Clone, Copy)]
pub enum Goal<'a> {
    /// It does what it does.
    Does(Place),
    /// A jump goes on inside, to this statement.
    Follows(&'a CoreStmt),
}

/// What comes next.
#[derive(Clone, Copy)]
pub enum Move<'a> {
    /// A full expression is evaluated.
    Values(&'a CoreExpr, Purpose<'a>),
    /// A statement is reached.
    Reaches(&'a CoreStmt),
    /// An object of the innermost open statement begins, and then others.
    Begins {
        object: u32,
        others: &'a [u32],
        goal: Goal<'a>,
    },
    /// The function returns without an expression, or at its end.
    Leaves(Left),
    /// `main` is called (5.1.2.2.1).
    CallsMain,
    /// What no typed program does.
    Nowhere(Place),
}

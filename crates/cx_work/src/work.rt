ghost use Rattle.std.specs.Prelude.{◌≡◌};

use crate::child::Child;
use crate::children::Children;
use crate::marks::Marks;
use crate::operand::{Finished, Operand, OperandTy, Typed};
use cx_core::{CoreExpr, Op2, Put};
use mem_bytes::Value;

/// How far `op=`, `++` or `--` has come behind its load (ISO C99, 6.5.2.4, 6.5.3.1, 6.5.16.2).
#[derive(Clone, Copy)]
pub enum Stage {
    WasLoaded,
    /// The operator gave this value.
    WasComputed(Value),
    /// It was converted to the type of the target, to this value.
    WasConverted(Value),
}

/// `op=`, `++` or `--` behind its load.
#[derive(Drop)]
pub struct Update<'a> {
    pub op: Op2,
    /// The type in which the operator computes.
    pub computes: OperandTy<'a>,
    /// What it computes with.
    pub right: Typed<'a>,
    pub target_ty: OperandTy<'a>,
    pub target: Finished,
    /// Whether the operator stands behind the lvalue.
    pub is_postfix: bool,
    /// What was loaded.
    pub old: Value,
}

/// An expression under evaluation: what is left of it, with finished operands at its leaves. Each node keeps its
/// own expression; parts that aren't chosen yet are read there.
#[cycle(work)]
#[derive(Drop)]
pub enum Work<'a> {
    Finished(Operand<'a>),
    /// A node that needs all its operands.
    Needs(&'a CoreExpr, Children<Work<'a>>),
    /// `&&`, `||`, `?:` or a comma before its first operand is a value.
    Chooses(&'a CoreExpr, Child<Work<'a>>),
    /// `&&` or `||` with its second operand, and the marks of its first.
    Tests(&'a CoreExpr, Marks, Child<Work<'a>>),
    /// `?:` or a comma with its chosen part, which isn't finished, and the marks of what went before.
    Carries(&'a CoreExpr, Marks, Child<Work<'a>>),
    /// `op=`, `++` or `--` behind its load.
    Updates(&'a CoreExpr, Child<Update<'a>>, Stage, Marks),
    /// A compound literal with the value of a put, the puts behind it, and the marks of what went before.
    Fills(&'a CoreExpr, Marks, &'a Put, &'a [Put], Child<Work<'a>>),
    /// A call whose function runs.
    Waits(&'a CoreExpr, Marks),
}

impl<'a> Work<'a> {
    /// Puts another tree in the place of this one.
    pub fn put(&mut self, new: Work<'a>)
        ensures { self.new ≡ new.entry }
    {
        *self = new;
    }
}

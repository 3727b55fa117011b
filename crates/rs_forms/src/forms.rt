//! What expressions and statements are made of, by how they run (the Rust Reference, "Expressions" and
//! "Statements").

ghost use Rattle.std.specs.Prelude.{◌≡◌};
ghost use Rattle.rs_forms.specs.Forms.{form_run, stmt_run};
ghost use Rattle.rs_mean.specs.Run.{Frame, run_dropped, run_expr, run_stmt};
ghost use Rattle.rs_tree.specs.Views.{expr_view, stmt_view};

use cr_base::{Boxed, Int, Items, Name};
use rs_scene::Flow;
use rs_tree::{Arm, IntegerTy, Operator, RExpr, RPath, RPlace, RStmt, RTy, Wrapping};
use rs_value::Unary;

/// What a place is evaluated for.
#[derive(Clone, Copy)]
pub enum PlaceUse {
    /// The value that it holds.
    Value,
    /// Its address.
    Address,
}

/// An expression without operands.
#[derive(Clone, Copy)]
pub enum Plain<'t> {
    Literal(&'t Int, IntegerTy),
    Truth(bool),
    NoFunction,
    NullPointer(&'t RTy),
    SomeFunction(&'t RPath, &'t Items<RTy>, &'t Option<Boxed<RTy>>),
}

/// A call.
#[derive(Clone, Copy)]
pub enum CallForm<'t> {
    /// Of the function that a path names.
    Named(&'t RPath, &'t Items<RExpr>),
    /// By a function pointer.
    Pointed(&'t RExpr, &'t Items<RExpr>),
}

/// An operation on two operands, both of which are evaluated, from the left.
#[derive(Clone, Copy)]
pub enum Pair {
    Wrapping(Wrapping),
    Offset,
    OffsetFrom,
    Binary(Operator),
}

/// What is evaluated on one side of a test.
#[derive(Clone, Copy)]
pub enum Side<'t> {
    Known(bool),
    Operand(&'t RExpr),
}

/// How an expression runs.
#[derive(Clone, Copy)]
pub enum Form<'t> {
    Alone(Plain<'t>),
    Place(PlaceUse, &'t RPlace),
    Call(CallForm<'t>),
    One(Unary<'t>, &'t RExpr),
    Two(Pair, &'t RExpr, &'t RExpr),
    /// A condition, and what is evaluated where it is true and where it is false.
    Test(&'t RExpr, Side<'t>, Side<'t>),
}

/// A statement that has statements in it.
#[derive(Clone, Copy)]
pub enum Nested<'t> {
    If(&'t RExpr, &'t Items<RStmt>, &'t Items<RStmt>),
    Loop(&'t Option<Name>, &'t Items<RStmt>),
    Block(&'t Name, &'t Items<RStmt>),
    Match(&'t RExpr, &'t Items<Arm>, &'t Items<RStmt>),
}

/// How a statement runs.
#[derive(Clone, Copy)]
pub enum StmtForm<'t> {
    /// Control leaves here.
    Leaves(Flow<'t>),
    Assign(&'t RPlace, &'t RExpr),
    /// A call whose result is dropped.
    Call(CallForm<'t>),
    /// Another value that is dropped.
    Value(&'t RExpr),
    Copy(&'t RExpr, &'t RExpr, &'t RExpr),
    Return(&'t RExpr),
    Within(Nested<'t>),
}

/// How an expression runs.
#[inline(always)]
pub fn form_of<'t>(tree: &'t RExpr) -> Form<'t>
    ensures { (frame : Frame) → form_run frame result ≡ run_expr frame (expr_view tree.now) }
{
    match tree {
        RExpr::Literal(value, ty) => Form::Alone(Plain::Literal(value, *ty)),
        RExpr::Truth(value) => Form::Alone(Plain::Truth(*value)),
        RExpr::NoFunction => Form::Alone(Plain::NoFunction),
        RExpr::NullPointer(ty) => Form::Alone(Plain::NullPointer(ty.get())),
        RExpr::SomeFunction(path, params, given) => Form::Alone(Plain::SomeFunction(
            path, params, given,
        )),
        RExpr::Read(of) => Form::Place(PlaceUse::Value, of.get()),
        RExpr::AddressOf(of) => Form::Place(PlaceUse::Address, of.get()),
        RExpr::Call(path, args) => Form::Call(CallForm::Named(path, args)),
        RExpr::CallBy(operand, args) => Form::Call(CallForm::Pointed(operand.get(), args)),
        RExpr::WrappingNeg(operand) => Form::One(Unary::WrappingNeg, operand.get()),
        RExpr::IsNull(operand) => Form::One(Unary::IsNull, operand.get()),
        RExpr::IsNone(operand) => Form::One(Unary::IsNone, operand.get()),
        RExpr::Neg(operand) => Form::One(Unary::Neg, operand.get()),
        RExpr::Not(operand) => Form::One(Unary::Not, operand.get()),
        RExpr::Cast(operand, ty) => Form::One(Unary::Cast(ty.get()), operand.get()),
        RExpr::Transmute(_, to, operand) => Form::One(Unary::Transmute(to.get()), operand.get()),
        RExpr::Wrapping(left, operation, right) => {
            Form::Two(Pair::Wrapping(*operation), left.get(), right.get())
        }
        RExpr::Offset(operand, count) => Form::Two(Pair::Offset, operand.get(), count.get()),
        RExpr::OffsetFrom(operand, other) => Form::Two(
            Pair::OffsetFrom,
            operand.get(),
            other.get(),
        ),
        RExpr::Binary(left, operator, right) => {
            Form::Two(Pair::Binary(*operator), left.get(), right.get())
        }
        RExpr::And(left, right) => {
            Form::Test(left.get(), Side::Operand(right.get()), Side::Known(false))
        }
        RExpr::Or(left, right) => {
            Form::Test(left.get(), Side::Known(true), Side::Operand(right.get()))
        }
        RExpr::Choose(condition, if_true, if_false) => {
            Form::Test(
                condition.get(),
                Side::Operand(if_true.get()),
                Side::Operand(if_false.get()),
            )
        }
    }
}

// How a value that is dropped is evaluated.
fn dropped_form<'t>(value: &'t RExpr) -> StmtForm<'t>
    ensures { (frame : Frame) → stmt_run frame result ≡ run_dropped frame (expr_view value.now) }
{
    match value {
        RExpr::Call(path, args) => StmtForm::Call(CallForm::Named(path, args)),
        RExpr::CallBy(operand, args) => StmtForm::Call(CallForm::Pointed(operand.get(), args)),
        RExpr::Literal(_, _)
        | RExpr::Truth(_)
        | RExpr::NoFunction
        | RExpr::Read(_)
        | RExpr::Wrapping(_, _, _)
        | RExpr::WrappingNeg(_)
        | RExpr::Offset(_, _)
        | RExpr::OffsetFrom(_, _)
        | RExpr::IsNull(_)
        | RExpr::IsNone(_)
        | RExpr::AddressOf(_)
        | RExpr::NullPointer(_)
        | RExpr::SomeFunction(_, _, _)
        | RExpr::Transmute(_, _, _)
        | RExpr::Neg(_)
        | RExpr::Not(_)
        | RExpr::Cast(_, _)
        | RExpr::Binary(_, _, _)
        | RExpr::And(_, _)
        | RExpr::Or(_, _)
        | RExpr::Choose(_, _, _) => StmtForm::Value(value),
    }
}

/// How a statement runs.
#[inline(always)]
pub fn stmt_form<'t>(tree: &'t RStmt) -> StmtForm<'t>
    ensures { (frame : Frame) → stmt_run frame result ≡ run_stmt frame (stmt_view tree.now) }
{
    match tree {
        RStmt::Assign(of, value) => StmtForm::Assign(of.get(), value.get()),
        RStmt::Eval(value) => dropped_form(value.get()),
        RStmt::CopyBytes(source, target, count) => {
            StmtForm::Copy(source.get(), target.get(), count.get())
        }
        RStmt::If(condition, if_true, if_false) => {
            StmtForm::Within(Nested::If(condition.get(), if_true, if_false))
        }
        RStmt::Loop(label, body) => StmtForm::Within(Nested::Loop(label, body)),
        RStmt::Block(label, body) => StmtForm::Within(Nested::Block(label, body)),
        RStmt::Break(label) => StmtForm::Leaves(Flow::Breaks(label)),
        RStmt::Continue(label) => StmtForm::Leaves(Flow::Continues(label)),
        RStmt::Match(value, cases, other) => {
            StmtForm::Within(Nested::Match(value.get(), cases, other))
        }
        RStmt::Return(None) => StmtForm::Leaves(Flow::Returned(None)),
        RStmt::Return(Some(value)) => StmtForm::Return(value.get()),
    }
}

//! The beginning of an evaluation: constants and the names of objects and functions are finished at once, and
//! each other node waits for its operands (ISO C99, 6.5).

ghost use Rattle.std.specs.Prelude.{◌≡◌, map, IfOk, OnOk};
ghost use Rattle.cx_core.specs.Trees.{type_of};
ghost use Rattle.cx_core.specs.Views.{exprs_of, view_expr};
ghost use Rattle.cx_mean.specs.Operands.{at_once};
ghost use Rattle.cx_mean.specs.Work.{all_begun, begun, finished, needs, chooses, no_works, more_works};
ghost use Rattle.cx_work.specs.Pushed.{IsPushed};
ghost use Rattle.cx_work.specs.Views.{view_finished, view_work, view_works};

use crate::child::Child;
use crate::children::Children;
use crate::marks::Marks;
use crate::operand::{Finished, Operand};
use crate::work::Work;
use cr_base::Memory;
use cx_core::{CoreExpr, Form};
use mem_bytes::Value;
use std::alloc::Global;

impl<'a> Work<'a> {
    /// The full expression, of which no step was taken (ISO C99, 6.8p4). Refused only for want of memory.
    pub fn begin(alloc: Global, e: &'a CoreExpr) -> Result<Child<Work<'a>>, Memory>
        ensures { IfOk result (λ made. view_work made ≡ begun (view_expr e.now)) }
    {
        Child::new(alloc, begin(alloc, e)?)
    }
}

#[cycle(begin)]
fn begin<'a>(alloc: Global, e: &'a CoreExpr) -> Result<Work<'a>, Memory>
    ensures { IfOk result (λ made. view_work made ≡ begun (view_expr e.now)) }
{
    match &e.form {
        Form::Whole(_) | Form::Null | Form::Object(_) | Form::Code(_) => leaf(alloc, e),
        Form::Load(part)
        | Form::Deref(part)
        | Form::Member(part, _)
        | Form::Address(part)
        | Form::Convert(part)
        | Form::Unary(_, part)
        | Form::Step { on: part, .. } => needs_one(alloc, e, part.get(), begin(alloc, part.get())),
        Form::Binary(_, left, right)
        | Form::Assign(left, right)
        | Form::AssignBy(_, _, left, right) => needs_two(
            alloc,
            e,
            left.get(),
            begin(alloc, left.get()),
            right.get(),
            begin(alloc, right.get()),
        ),
        Form::And(first, _)
        | Form::Or(first, _)
        | Form::Cond(first, _, _)
        | Form::Comma(first, _) => { chooses(alloc, e, first.get(), begin(alloc, first.get())) }
        Form::Call(_, args) => needs_args(e, args.as_slice(), begin_all(alloc, args.as_slice())),
        Form::CallBy(callee, args) => needs_call(
            alloc,
            e,
            callee.get(),
            begin(alloc, callee.get()),
            args.as_slice(),
            begin_all(alloc, args.as_slice()),
        ),
        Form::Literal(_, _) => needs_none(alloc, e),
    }
}

// Expressions in their order.
#[cycle(begin)]
fn begin_all<'a>(alloc: Global, exprs: &'a [CoreExpr]) -> Result<Children<Work<'a>>, Memory>
    ensures { IfOk result (λ made. view_works made ≡ all_begun (exprs_of (map view_expr exprs.now))) }
{
    let mut made = Children::new(alloc);
    for one in exprs {
        made.push(begin(alloc, one)?)?;
    }
    Ok(made)
}

// A constant, or the name of an object or a function.
fn leaf<'a>(alloc: Global, e: &'a CoreExpr) -> Result<Work<'a>, Memory>
    ensures { IfOk result (λ made. view_work made ≡ begun (view_expr e.now)) }
{
    match &e.form {
        Form::Whole(value) => at_once(alloc, e, Finished::Scalar(Value::Whole(*value))),
        Form::Null => at_once(alloc, e, Finished::Scalar(Value::Null)),
        Form::Object(number) => at_once(alloc, e, Finished::Names(*number)),
        Form::Code(number) => at_once(alloc, e, Finished::Scalar(Value::Code(*number))),
        _ => Err(Memory),
    }
}

// A part that was begun, as one more operand.
fn push_part<'a>(
    operands: &mut Children<Work<'a>>,
    part: Result<Work<'a>, Memory>,
) -> Result<(), Memory>
    ensures { OnOk result (IsPushed operands.old operands.new part.entry) }
{
    operands.push(part?)
}

// An operand that is one without a step.
#[tactic(auto, using(crate::proofs::Opened::type_of_view))]
fn at_once<'a>(alloc: Global, e: &'a CoreExpr, value: Finished) -> Result<Work<'a>, Memory>
    ensures { IfOk result (λ made. view_work made ≡ finished (at_once (type_of (view_expr e.now)) (view_finished value))) }
{
    let operand = Operand {
        ty: &e.ty,
        value,
        marks: Marks::new(alloc),
    };
    Ok(Work::Finished(operand))
}

fn needs_none<'a>(alloc: Global, e: &'a CoreExpr) -> Result<Work<'a>, Memory>
    ensures { IfOk result (λ made. view_work made ≡ needs (view_expr e.now) no_works) }
{
    Ok(Work::Needs(e, Children::new(alloc)))
}

fn needs_one<'a>(
    alloc: Global,
    e: &'a CoreExpr,
    _part: &'a CoreExpr,
    first: Result<Work<'a>, Memory>,
) -> Result<Work<'a>, Memory>
    requires { IfOk first (λ made. view_work made ≡ begun (view_expr _part.now)) }
    ensures { IfOk result (λ made. view_work made ≡ needs (view_expr e.now) (more_works (begun (view_expr _part.now)) no_works)) }
{
    let mut operands = Children::new(alloc);
    push_part(&mut operands, first)?;
    Ok(Work::Needs(e, operands))
}

fn needs_two<'a>(
    alloc: Global,
    e: &'a CoreExpr,
    _left: &'a CoreExpr,
    first: Result<Work<'a>, Memory>,
    _right: &'a CoreExpr,
    second: Result<Work<'a>, Memory>,
) -> Result<Work<'a>, Memory>
    requires first { IfOk first (λ made. view_work made ≡ begun (view_expr _left.now)) }
    requires second { IfOk second (λ made. view_work made ≡ begun (view_expr _right.now)) }
    ensures { IfOk result (λ made. view_work made ≡
        needs (view_expr e.now) (more_works (begun (view_expr _left.now)) (more_works (begun (view_expr _right.now)) no_works))) }
{
    let mut operands = Children::new(alloc);
    push_part(&mut operands, first)?;
    push_part(&mut operands, second)?;
    Ok(Work::Needs(e, operands))
}

fn chooses<'a>(
    alloc: Global,
    e: &'a CoreExpr,
    _part: &'a CoreExpr,
    first: Result<Work<'a>, Memory>,
) -> Result<Work<'a>, Memory>
    requires { IfOk first (λ made. view_work made ≡ begun (view_expr _part.now)) }
    ensures { IfOk result (λ made. view_work made ≡ chooses (view_expr e.now) (begun (view_expr _part.now))) }
{
    Ok(Work::Chooses(e, Child::new(alloc, first?)?))
}

fn needs_args<'a>(
    e: &'a CoreExpr,
    _args: &'a [CoreExpr],
    others: Result<Children<Work<'a>>, Memory>,
) -> Result<Work<'a>, Memory>
    requires { IfOk others (λ made. view_works made ≡ all_begun (exprs_of (map view_expr _args.now))) }
    ensures { IfOk result (λ made. view_work made ≡ needs (view_expr e.now) (all_begun (exprs_of (map view_expr _args.now)))) }
{
    Ok(Work::Needs(e, others?))
}

fn needs_call<'a>(
    alloc: Global,
    e: &'a CoreExpr,
    _callee: &'a CoreExpr,
    first: Result<Work<'a>, Memory>,
    _args: &'a [CoreExpr],
    others: Result<Children<Work<'a>>, Memory>,
) -> Result<Work<'a>, Memory>
    requires first { IfOk first (λ made. view_work made ≡ begun (view_expr _callee.now)) }
    requires others { IfOk others (λ made. view_works made ≡ all_begun (exprs_of (map view_expr _args.now))) }
    ensures { IfOk result (λ made. view_work made ≡
        needs (view_expr e.now) (more_works (begun (view_expr _callee.now)) (all_begun (exprs_of (map view_expr _args.now))))) }
{
    let mut operands = Children::new(alloc);
    push_part(&mut operands, first)?;
    operands.append(others?)?;
    Ok(Work::Needs(e, operands))
}

//! Equal expressions and places. Each is refused only for want of memory.

ghost use Rattle.std.specs.Prelude.{◌≡◌, map, IfOk};
ghost use Rattle.rs_text.specs.Tree as tree;
ghost use Rattle.rs_tree.specs.Views.{ty_view, place_view, expr_view};

use crate::copied::{
    copied_address, copied_call, copied_call_by, copied_cast, copied_field, copied_function,
    copied_is_none, copied_is_null, copied_local, copied_neg, copied_not, copied_null, copied_read,
    copied_static, copied_target, copied_wrapping_neg,
};
use crate::makers::{
    and, binary, choose, literal, no_function, offset, offset_from, or, transmute, truth, wrapped,
};
use crate::types::copy_ty;
use cr_base::{Boxed, Items, Memory};
use rs_tree::{Operator, RExpr, RPlace, RTy, Wrapping};
use std::alloc::Global;

/// An equal place.
#[cycle(exprs)]
pub fn copy_place(alloc: Global, at: &RPlace) -> Result<Boxed<RPlace>, Memory>
    ensures { IfOk result (λ made. place_view made ≡ place_view at.now) }
{
    match at {
        RPlace::Local(name) => copied_local(alloc, name),
        RPlace::Static(path) => copied_static(alloc, path),
        RPlace::Deref(of) => copied_target(alloc, of, copy_expr(alloc, of.get())),
        RPlace::Field(of, name) => copied_field(alloc, of, copy_place(alloc, of.get()), name),
    }
}

/// An equal expression.
#[cycle(exprs)]
pub fn copy_expr(alloc: Global, e: &RExpr) -> Result<Boxed<RExpr>, Memory>
    ensures { IfOk result (λ made. expr_view made ≡ expr_view e.now) }
{
    match e {
        RExpr::Literal(number, which) => literal(alloc, *number, *which),
        RExpr::Truth(test) => truth(alloc, *test),
        RExpr::NoFunction => no_function(alloc),
        RExpr::NullPointer(ty) => copied_null(alloc, ty.get()),
        RExpr::SomeFunction(path, params, given) => copied_function(alloc, path, params, given),
        RExpr::Read(at) => copied_read(alloc, at, copy_place(alloc, at.get())),
        RExpr::AddressOf(at) => copied_address(alloc, at, copy_place(alloc, at.get())),
        RExpr::Call(path, args) => copied_call(alloc, path, args, copy_exprs(alloc, args)),
        RExpr::CallBy(by, args) => copied_call_by(
            alloc,
            by,
            copy_expr(alloc, by.get()),
            args,
            copy_exprs(alloc, args),
        ),
        RExpr::WrappingNeg(of) => copied_wrapping_neg(alloc, of, copy_expr(alloc, of.get())),
        RExpr::IsNull(of) => copied_is_null(alloc, of, copy_expr(alloc, of.get())),
        RExpr::IsNone(of) => copied_is_none(alloc, of, copy_expr(alloc, of.get())),
        RExpr::Neg(of) => copied_neg(alloc, of, copy_expr(alloc, of.get())),
        RExpr::Not(of) => copied_not(alloc, of, copy_expr(alloc, of.get())),
        RExpr::Cast(of, ty) => copied_cast(alloc, of, copy_expr(alloc, of.get()), ty.get()),
        RExpr::Transmute(from, to, of) => copy_transmute(alloc, from.get(), to.get(), of),
        RExpr::Offset(left, right) => copy_offset(alloc, left, right),
        RExpr::OffsetFrom(left, right) => copy_offset_from(alloc, left, right),
        RExpr::Wrapping(left, operation, right) => copy_wrapped(alloc, left, *operation, right),
        RExpr::Binary(left, operator, right) => copy_binary(alloc, left, *operator, right),
        RExpr::And(left, right) => copy_and(alloc, left, right),
        RExpr::Or(left, right) => copy_or(alloc, left, right),
        RExpr::Choose(condition, one, other) => copy_choice(alloc, condition, one, other),
    }
}

/// Equal expressions, in their order.
#[cycle(exprs)]
pub fn copy_exprs(alloc: Global, args: &Items<RExpr>) -> Result<Items<RExpr>, Memory>
    ensures { IfOk result (λ made. map expr_view made ≡ map expr_view args.now) }
{
    let mut made = Items::new(alloc);
    for one in args.as_slice() {
        made.push(copy_expr(alloc, one)?.into_inner())?;
    }
    Ok(made)
}

// ---- nodes with more than one operand, or with types

#[derive(Drop)]
struct Copies {
    left: Boxed<RExpr>,
    right: Boxed<RExpr>,
}

// Two equal operands.
#[cycle(exprs)]
fn copy_both(alloc: Global, left: &Boxed<RExpr>, right: &Boxed<RExpr>) -> Result<Copies, Memory>
    ensures left_is { IfOk result (λ copies. expr_view copies.left ≡ expr_view left.now) }
    ensures right_is { IfOk result (λ copies. expr_view copies.right ≡ expr_view right.now) }
{
    let left = copy_expr(alloc, left.get())?;
    let right = copy_expr(alloc, right.get())?;
    Ok(Copies { left, right })
}

#[cycle(exprs)]
fn copy_offset(
    alloc: Global,
    left: &Boxed<RExpr>,
    right: &Boxed<RExpr>,
) -> Result<Boxed<RExpr>, Memory>
    ensures { IfOk result (λ made. expr_view made ≡ tree.Offset (expr_view left.now) (expr_view right.now)) }
{
    let copies = copy_both(alloc, left, right)?;
    offset(alloc, copies.left, copies.right)
}

#[cycle(exprs)]
fn copy_offset_from(
    alloc: Global,
    left: &Boxed<RExpr>,
    right: &Boxed<RExpr>,
) -> Result<Boxed<RExpr>, Memory>
    ensures { IfOk result (λ made. expr_view made ≡ tree.OffsetFrom (expr_view left.now) (expr_view right.now)) }
{
    let copies = copy_both(alloc, left, right)?;
    offset_from(alloc, copies.left, copies.right)
}

#[cycle(exprs)]
fn copy_and(
    alloc: Global,
    left: &Boxed<RExpr>,
    right: &Boxed<RExpr>,
) -> Result<Boxed<RExpr>, Memory>
    ensures { IfOk result (λ made. expr_view made ≡ tree.And (expr_view left.now) (expr_view right.now)) }
{
    let copies = copy_both(alloc, left, right)?;
    and(alloc, copies.left, copies.right)
}

#[cycle(exprs)]
fn copy_or(alloc: Global, left: &Boxed<RExpr>, right: &Boxed<RExpr>) -> Result<Boxed<RExpr>, Memory>
    ensures { IfOk result (λ made. expr_view made ≡ tree.Or (expr_view left.now) (expr_view right.now)) }
{
    let copies = copy_both(alloc, left, right)?;
    or(alloc, copies.left, copies.right)
}

#[cycle(exprs)]
fn copy_wrapped(
    alloc: Global,
    left: &Boxed<RExpr>,
    operation: Wrapping,
    right: &Boxed<RExpr>,
) -> Result<Boxed<RExpr>, Memory>
    ensures { IfOk result (λ made. expr_view made ≡ tree.Wrapped (expr_view left.now) operation (expr_view right.now)) }
{
    let copies = copy_both(alloc, left, right)?;
    wrapped(alloc, copies.left, operation, copies.right)
}

#[cycle(exprs)]
fn copy_binary(
    alloc: Global,
    left: &Boxed<RExpr>,
    operator: Operator,
    right: &Boxed<RExpr>,
) -> Result<Boxed<RExpr>, Memory>
    ensures { IfOk result (λ made. expr_view made ≡ tree.Binary (expr_view left.now) operator (expr_view right.now)) }
{
    let copies = copy_both(alloc, left, right)?;
    binary(alloc, copies.left, operator, copies.right)
}

#[cycle(exprs)]
fn copy_choice(
    alloc: Global,
    condition: &Boxed<RExpr>,
    if_true: &Boxed<RExpr>,
    if_false: &Boxed<RExpr>,
) -> Result<Boxed<RExpr>, Memory>
    ensures { IfOk result (λ made. expr_view made ≡ tree.Choose (expr_view condition.now) (expr_view if_true.now) (expr_view if_false.now)) }
{
    let condition = copy_expr(alloc, condition.get())?;
    let copies = copy_both(alloc, if_true, if_false)?;
    choose(alloc, condition, copies.left, copies.right)
}

#[cycle(exprs)]
fn copy_transmute(
    alloc: Global,
    from: &RTy,
    to: &RTy,
    of: &Boxed<RExpr>,
) -> Result<Boxed<RExpr>, Memory>
    ensures { IfOk result (λ made. expr_view made ≡ tree.Transmute (ty_view from.now) (ty_view to.now) (expr_view of.now)) }
{
    let of = copy_expr(alloc, of.get())?;
    let from = copy_ty(alloc, from)?;
    let to = copy_ty(alloc, to)?;
    transmute(alloc, from, to, of)
}

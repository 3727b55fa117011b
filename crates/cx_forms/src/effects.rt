//! Assignments and calls: nodes of typed expressions.

ghost use Rattle.std.specs.Prelude.{◌≡◌, map, IfOk};
ghost use Rattle.cx_core.specs.Trees.{expr, assign, assign_by, step, call, call_by};
ghost use Rattle.cx_core.specs.Views.{view_expr, view_type, exprs_of};

use cr_base::{Boxed, Items, Memory, Place};
use cx_core::{CoreExpr, Form, Op2, Ty};
use std::alloc::Global;

/// A simple assignment: the lvalue, and the value that is stored there (ISO C99, 6.5.16.1). Refused only for want of memory.
pub fn assign_node(
    alloc: Global,
    ty: Boxed<Ty>,
    place: Place,
    target: Boxed<CoreExpr>,
    value: Boxed<CoreExpr>,
) -> Result<Boxed<CoreExpr>, Memory>
    ensures { IfOk result (λ made. view_expr made ≡ expr (view_type ty) place (assign (view_expr target) (view_expr value))) }
{
    Boxed::new(
        alloc,
        CoreExpr {
            ty: ty.into_inner(),
            place,
            form: Form::Assign(target, value),
        },
    )
}

/// A compound assignment: the operator, the type in which it computes, the lvalue, and the right operand (ISO C99,
/// 6.5.16.2). Refused only for want of memory.
pub fn assign_by_node(
    alloc: Global,
    ty: Boxed<Ty>,
    place: Place,
    op: Op2,
    computes: Boxed<Ty>,
    target: Boxed<CoreExpr>,
    value: Boxed<CoreExpr>,
) -> Result<Boxed<CoreExpr>, Memory>
    ensures { IfOk result (λ made. view_expr made ≡ expr (view_type ty) place (assign_by op (view_type computes) (view_expr target) (view_expr value))) }
{
    Boxed::new(
        alloc,
        CoreExpr {
            ty: ty.into_inner(),
            place,
            form: Form::AssignBy(op, computes, target, value),
        },
    )
}

/// `++` or `--` of an lvalue, behind it or in front of it (ISO C99, 6.5.2.4, 6.5.3.1). Refused only for want of memory.
pub fn step_node(
    alloc: Global,
    ty: Boxed<Ty>,
    place: Place,
    up: bool,
    post: bool,
    on: Boxed<CoreExpr>,
) -> Result<Boxed<CoreExpr>, Memory>
    ensures { IfOk result (λ made. view_expr made ≡ expr (view_type ty) place (step up post (view_expr on))) }
{
    Boxed::new(
        alloc,
        CoreExpr {
            ty: ty.into_inner(),
            place,
            form: Form::Step { up, post, on },
        },
    )
}

/// A call of the function with a number by its name (ISO C99, 6.5.2.2). Refused only for want of memory.
pub fn call_node(
    alloc: Global,
    ty: Boxed<Ty>,
    place: Place,
    callee: u32,
    args: Items<CoreExpr>,
) -> Result<Boxed<CoreExpr>, Memory>
    ensures { IfOk result (λ made. view_expr made ≡ expr (view_type ty) place (call callee (exprs_of (map view_expr args)))) }
{
    Boxed::new(
        alloc,
        CoreExpr {
            ty: ty.into_inner(),
            place,
            form: Form::Call(callee, args),
        },
    )
}

/// A call of the function that a pointer points to (ISO C99, 6.5.2.2). Refused only for want of memory.
pub fn call_by_node(
    alloc: Global,
    ty: Boxed<Ty>,
    place: Place,
    callee: Boxed<CoreExpr>,
    args: Items<CoreExpr>,
) -> Result<Boxed<CoreExpr>, Memory>
    ensures { IfOk result (λ made. view_expr made ≡ expr (view_type ty) place (call_by (view_expr callee) (exprs_of (map view_expr args)))) }
{
    Boxed::new(
        alloc,
        CoreExpr {
            ty: ty.into_inner(),
            place,
            form: Form::CallBy(callee, args),
        },
    )
}

//! Operators that give values: nodes of typed expressions.

ghost use Rattle.std.specs.Prelude.{◌≡◌, IfOk};
ghost use Rattle.cx_core.specs.Trees.{expr, unary, binary, and, or, comma, cond};
ghost use Rattle.cx_core.specs.Views.{view_expr, view_type};

use cr_base::{Boxed, Memory, Place};
use cx_core::{CoreExpr, Form, Op1, Op2, Ty};
use std::alloc::Global;

/// A unary arithmetic operator (ISO C99, 6.5.3.3). Refused only for want of memory.
pub fn unary_node(
    alloc: Global,
    ty: Boxed<Ty>,
    place: Place,
    op: Op1,
    on: Boxed<CoreExpr>,
) -> Result<Boxed<CoreExpr>, Memory>
    ensures { IfOk result (λ made. view_expr made ≡ expr (view_type ty) place (unary op (view_expr on))) }
{
    Boxed::new(
        alloc,
        CoreExpr {
            ty: ty.into_inner(),
            place,
            form: Form::Unary(op, on),
        },
    )
}

/// A binary operator whose operands are both evaluated (ISO C99, 6.5.5 to 6.5.12). Refused only for want of memory.
pub fn binary_node(
    alloc: Global,
    ty: Boxed<Ty>,
    place: Place,
    op: Op2,
    left: Boxed<CoreExpr>,
    right: Boxed<CoreExpr>,
) -> Result<Boxed<CoreExpr>, Memory>
    ensures { IfOk result (λ made. view_expr made ≡ expr (view_type ty) place (binary op (view_expr left) (view_expr right))) }
{
    Boxed::new(
        alloc,
        CoreExpr {
            ty: ty.into_inner(),
            place,
            form: Form::Binary(op, left, right),
        },
    )
}

/// `&&` (ISO C99, 6.5.13). Refused only for want of memory.
pub fn and_node(
    alloc: Global,
    ty: Boxed<Ty>,
    place: Place,
    left: Boxed<CoreExpr>,
    right: Boxed<CoreExpr>,
) -> Result<Boxed<CoreExpr>, Memory>
    ensures { IfOk result (λ made. view_expr made ≡ expr (view_type ty) place (and (view_expr left) (view_expr right))) }
{
    Boxed::new(
        alloc,
        CoreExpr {
            ty: ty.into_inner(),
            place,
            form: Form::And(left, right),
        },
    )
}

/// `||` (ISO C99, 6.5.14). Refused only for want of memory.
pub fn or_node(
    alloc: Global,
    ty: Boxed<Ty>,
    place: Place,
    left: Boxed<CoreExpr>,
    right: Boxed<CoreExpr>,
) -> Result<Boxed<CoreExpr>, Memory>
    ensures { IfOk result (λ made. view_expr made ≡ expr (view_type ty) place (or (view_expr left) (view_expr right))) }
{
    Boxed::new(
        alloc,
        CoreExpr {
            ty: ty.into_inner(),
            place,
            form: Form::Or(left, right),
        },
    )
}

/// The comma operator (ISO C99, 6.5.17). Refused only for want of memory.
pub fn comma_node(
    alloc: Global,
    ty: Boxed<Ty>,
    place: Place,
    left: Boxed<CoreExpr>,
    right: Boxed<CoreExpr>,
) -> Result<Boxed<CoreExpr>, Memory>
    ensures { IfOk result (λ made. view_expr made ≡ expr (view_type ty) place (comma (view_expr left) (view_expr right))) }
{
    Boxed::new(
        alloc,
        CoreExpr {
            ty: ty.into_inner(),
            place,
            form: Form::Comma(left, right),
        },
    )
}

/// `?:` (ISO C99, 6.5.15). Refused only for want of memory.
pub fn cond_node(
    alloc: Global,
    ty: Boxed<Ty>,
    place: Place,
    test: Boxed<CoreExpr>,
    first: Boxed<CoreExpr>,
    second: Boxed<CoreExpr>,
) -> Result<Boxed<CoreExpr>, Memory>
    ensures { IfOk result (λ made. view_expr made ≡ expr (view_type ty) place (cond (view_expr test) (view_expr first) (view_expr second))) }
{
    Boxed::new(
        alloc,
        CoreExpr {
            ty: ty.into_inner(),
            place,
            form: Form::Cond(test, first, second),
        },
    )
}

//! Operands of C as Rust writes them: their values, as numbers of an integer type, and as conditions. Each form is refused only for want of memory.

ghost use Rattle.std.specs.Prelude.{◌≡◌, pos, IfOk};
ghost use Rattle.lift_forms.specs.Operators.{cast_to, transmute_to, as_type, given_value, integer_as, is_not_zero, is_zero, test_of, opposite_of};
ghost use Rattle.lift_forms_code.specs.Views.{given_view, operand_view};
ghost use Rattle.rs_text.specs.Tree as tree;
ghost use Rattle.rs_tree.specs.Views.{ty_view, expr_view};

use crate::given::RGiven;
use cr_base::{Boxed, Memory};
use rs_makers::{
    binary, cast, copy_ty, is_none, is_null, literal, no_function, not, read, transmute,
};
use rs_same::same_type;
use rs_tree::{IntegerTy, Operator, RExpr, RTy};
use std::alloc::Global;

// `e as T`
fn cast_as(alloc: Global, to: &RTy, e: Boxed<RExpr>) -> Result<Boxed<RExpr>, Memory>
    ensures { IfOk result (λ made. expr_view made ≡ tree.Cast (expr_view e) (ty_view to.now)) }
{
    let to = copy_ty(alloc, to)?;
    cast(alloc, e, to)
}

/// `e as T`, or `e` where that is its type.
pub fn cast_to(alloc: Global, from: &RTy, to: &RTy, e: Boxed<RExpr>) -> Result<Boxed<RExpr>, Memory>
    ensures { IfOk result (λ made. expr_view made ≡ cast_to (ty_view from.now) (ty_view to.now) (expr_view e)) }
{
    if same_type(from, to) {
        Ok(e)
    } else {
        cast_as(alloc, to, e)
    }
}

// The same bits in another type.
fn transmute_as(
    alloc: Global,
    from: &RTy,
    to: &RTy,
    e: Boxed<RExpr>,
) -> Result<Boxed<RExpr>, Memory>
    ensures { IfOk result (λ made. expr_view made ≡ tree.Transmute (ty_view from.now) (ty_view to.now) (expr_view e)) }
{
    let from = copy_ty(alloc, from)?;
    let to = copy_ty(alloc, to)?;
    transmute(alloc, from, to, e)
}

/// The same bits as a function pointer of another type.
pub fn transmute_to(
    alloc: Global,
    from: &RTy,
    to: &RTy,
    e: Boxed<RExpr>,
) -> Result<Boxed<RExpr>, Memory>
    ensures { IfOk result (λ made. expr_view made ≡ transmute_to (ty_view from.now) (ty_view to.now) (expr_view e)) }
{
    if same_type(from, to) {
        Ok(e)
    } else {
        transmute_as(alloc, from, to, e)
    }
}

/// A value of a scalar type as one of another scalar type.
pub fn as_type(alloc: Global, from: &RTy, to: &RTy, e: Boxed<RExpr>) -> Result<Boxed<RExpr>, Memory>
    ensures { IfOk result (λ made. expr_view made ≡ as_type (ty_view from.now) (ty_view to.now) (expr_view e)) }
{
    match to {
        RTy::Integer(_) | RTy::Pointer(_) => cast_to(alloc, from, to, e),
        RTy::Code(_, _) => transmute_to(alloc, from, to, e),
        RTy::Boolean | RTy::Void | RTy::Array(_, _) | RTy::Record(_) => Ok(e),
    }
}

// An integer type.
fn integer_ty(alloc: Global, which: IntegerTy) -> Result<Boxed<RTy>, Memory>
    ensures { IfOk result (λ made. ty_view made ≡ tree.Integer which) }
{
    Boxed::new(alloc, RTy::Integer(which))
}

/// `e as T`, where T is an integer type.
pub(crate) fn as_integer(
    alloc: Global,
    which: IntegerTy,
    e: Boxed<RExpr>,
) -> Result<Boxed<RExpr>, Memory>
    ensures { IfOk result (λ made. expr_view made ≡ tree.Cast (expr_view e) (tree.Integer which)) }
{
    let to = integer_ty(alloc, which)?;
    cast(alloc, e, to)
}

/// An operand's value in its Rust type.
pub fn value_of(alloc: Global, given: RGiven) -> Result<Boxed<RExpr>, Memory>
    ensures { IfOk result (λ made. expr_view made ≡ given_value (given_view given)) }
{
    match given {
        RGiven::Nothing => no_function(alloc),
        RGiven::Truth(e) => as_integer(alloc, IntegerTy::I32, e),
        RGiven::Value(e) => Ok(e),
        RGiven::Place(p) => read(alloc, p),
    }
}

// A value as one of an integer type.
fn to_integer(
    alloc: Global,
    which: IntegerTy,
    ty: &RTy,
    e: Boxed<RExpr>,
) -> Result<Boxed<RExpr>, Memory>
    ensures { IfOk result (λ made. expr_view made ≡ cast_to (ty_view ty.now) (tree.Integer which) (expr_view e)) }
{
    let to = integer_ty(alloc, which)?;
    cast_to(alloc, ty, to.get(), e)
}

/// An operand's value in an integer type.
pub fn integer_as(
    alloc: Global,
    which: IntegerTy,
    ty: &RTy,
    given: RGiven,
) -> Result<Boxed<RExpr>, Memory>
    ensures { IfOk result (λ made. expr_view made ≡ integer_as which (operand_view ty.now given)) }
{
    match given {
        RGiven::Nothing => no_function(alloc),
        RGiven::Truth(e) => as_integer(alloc, which, e),
        RGiven::Value(e) => to_integer(alloc, which, ty, e),
        RGiven::Place(p) => {
            let e = read(alloc, p)?;
            to_integer(alloc, which, ty, e)
        }
    }
}

// A comparison with 0.
fn with_zero(
    alloc: Global,
    which: IntegerTy,
    operator: Operator,
    e: Boxed<RExpr>,
) -> Result<Boxed<RExpr>, Memory>
    ensures { IfOk result (λ made. expr_view made ≡ tree.Binary (expr_view e) operator (tree.Literal (pos 0) which)) }
{
    let zero = literal(alloc, 0, which)?;
    binary(alloc, e, operator, zero)
}

// `!o.is_null()`
fn is_some_object(alloc: Global, e: Boxed<RExpr>) -> Result<Boxed<RExpr>, Memory>
    ensures { IfOk result (λ made. expr_view made ≡ tree.Not (tree.IsNull (expr_view e))) }
{
    let test = is_null(alloc, e)?;
    not(alloc, test)
}

// `!o.is_none()`
fn is_some_function(alloc: Global, e: Boxed<RExpr>) -> Result<Boxed<RExpr>, Memory>
    ensures { IfOk result (λ made. expr_view made ≡ tree.Not (tree.IsNone (expr_view e))) }
{
    let test = is_none(alloc, e)?;
    not(alloc, test)
}

/// A value compares unequal to 0 (ISO C99, 6.5.3.3p5, 6.8.4.1p2).
pub fn is_not_zero(alloc: Global, ty: &RTy, e: Boxed<RExpr>) -> Result<Boxed<RExpr>, Memory>
    ensures { IfOk result (λ made. expr_view made ≡ is_not_zero (ty_view ty.now) (expr_view e)) }
{
    match ty {
        RTy::Integer(which) => with_zero(alloc, *which, Operator::NotEqual, e),
        RTy::Pointer(_) => is_some_object(alloc, e),
        RTy::Code(_, _) => is_some_function(alloc, e),
        RTy::Boolean | RTy::Void | RTy::Array(_, _) | RTy::Record(_) => Ok(e),
    }
}

/// It compares equal to 0.
pub fn is_zero(alloc: Global, ty: &RTy, e: Boxed<RExpr>) -> Result<Boxed<RExpr>, Memory>
    ensures { IfOk result (λ made. expr_view made ≡ is_zero (ty_view ty.now) (expr_view e)) }
{
    match ty {
        RTy::Integer(which) => with_zero(alloc, *which, Operator::Equal, e),
        RTy::Boolean => not(alloc, e),
        RTy::Pointer(_) => is_null(alloc, e),
        RTy::Code(_, _) => is_none(alloc, e),
        RTy::Void | RTy::Array(_, _) | RTy::Record(_) => Ok(e),
    }
}

/// An operand as a condition.
pub fn test_of(alloc: Global, ty: &RTy, given: RGiven) -> Result<Boxed<RExpr>, Memory>
    ensures { IfOk result (λ made. expr_view made ≡ test_of (operand_view ty.now given)) }
{
    match given {
        RGiven::Nothing => no_function(alloc),
        RGiven::Truth(e) => Ok(e),
        RGiven::Value(e) => is_not_zero(alloc, ty, e),
        RGiven::Place(p) => {
            let e = read(alloc, p)?;
            is_not_zero(alloc, ty, e)
        }
    }
}

/// The opposite condition.
pub fn opposite_of(alloc: Global, ty: &RTy, given: RGiven) -> Result<Boxed<RExpr>, Memory>
    ensures { IfOk result (λ made. expr_view made ≡ opposite_of (operand_view ty.now given)) }
{
    match given {
        RGiven::Nothing => no_function(alloc),
        RGiven::Truth(e) => not(alloc, e),
        RGiven::Value(e) => is_zero(alloc, ty, e),
        RGiven::Place(p) => {
            let e = read(alloc, p)?;
            is_zero(alloc, ty, e)
        }
    }
}

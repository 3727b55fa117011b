//! Conversions, constants, functions and choices of C as Rust writes them (ISO C99, 6.3, 6.5.13 to 6.5.15). Each form is refused only for want of memory.

ghost use Rattle.std.specs.Prelude.{◌≡◌, pos, IfOk};
ghost use Rattle.lift_forms.specs.Operators.{constant, null_of, zero_of, as_type, given_value, test_of, and_form, or_form, converted};
ghost use Rattle.lift_forms.specs.Given.{value};
ghost use Rattle.lift_forms_code.specs.Views.{given_view, operand_view};
ghost use Rattle.rs_text.specs.Tree as tree;
ghost use Rattle.rs_tree.specs.Views.{ty_view, expr_view};

use crate::given::RGiven;
use crate::operands::{as_type, integer_as, test_of, value_of};
use cr_base::{Boxed, Int, Memory};
use rs_makers::{and, choose, copy_ty, literal, no_function, null_pointer, or, transmute, truth};
use rs_tree::{IntegerTy, RExpr, RTy};
use std::alloc::Global;

/// A constant of an integer type, or of `bool`.
pub fn constant(alloc: Global, ty: &RTy, number: Int) -> Result<Boxed<RExpr>, Memory>
    ensures { IfOk result (λ made. expr_view made ≡ constant (ty_view ty.now) number) }
{
    match ty {
        RTy::Integer(which) => literal(alloc, number, *which),
        RTy::Boolean => truth(alloc, number != 0),
        _ => literal(alloc, number, IntegerTy::I32),
    }
}

// `core::ptr::null_mut::<T>()`
fn null_object(alloc: Global, target: &RTy) -> Result<Boxed<RExpr>, Memory>
    ensures { IfOk result (λ made. expr_view made ≡ tree.NullPointer (ty_view target.now)) }
{
    let target = copy_ty(alloc, target)?;
    null_pointer(alloc, target)
}

// `None`, with its type
fn null_function(alloc: Global, ty: &RTy) -> Result<Boxed<RExpr>, Memory>
    ensures { IfOk result (λ made. expr_view made ≡ tree.Transmute (ty_view ty.now) (ty_view ty.now) tree.NoFunction) }
{
    let from = copy_ty(alloc, ty)?;
    let to = copy_ty(alloc, ty)?;
    let none = no_function(alloc)?;
    transmute(alloc, from, to, none)
}

/// The null pointer of a type.
pub fn null_of(alloc: Global, ty: &RTy) -> Result<Boxed<RExpr>, Memory>
    ensures { IfOk result (λ made. expr_view made ≡ null_of (ty_view ty.now)) }
{
    match ty {
        RTy::Pointer(target) => null_object(alloc, target.get()),
        RTy::Code(_, _) => null_function(alloc, ty),
        _ => no_function(alloc),
    }
}

/// Zero, `false`, null or `None`.
pub fn zero_of(alloc: Global, ty: &RTy) -> Result<Boxed<RExpr>, Memory>
    ensures { IfOk result (λ made. expr_view made ≡ zero_of (ty_view ty.now)) }
{
    match ty {
        RTy::Integer(which) => literal(alloc, 0, *which),
        RTy::Boolean => truth(alloc, false),
        RTy::Pointer(target) => null_object(alloc, target.get()),
        RTy::Code(_, _) => null_function(alloc, ty),
        RTy::Void | RTy::Array(_, _) | RTy::Record(_) => no_function(alloc),
    }
}

/// `&&`.
pub fn and_form(
    alloc: Global,
    left_ty: &RTy,
    left: RGiven,
    right_ty: &RTy,
    right: RGiven,
) -> Result<RGiven, Memory>
    ensures { IfOk result (λ form. given_view form ≡ and_form (operand_view left_ty.now left) (operand_view right_ty.now right)) }
{
    let left = test_of(alloc, left_ty, left)?;
    let right = test_of(alloc, right_ty, right)?;
    Ok(RGiven::Truth(and(alloc, left, right)?))
}

/// `||`.
pub fn or_form(
    alloc: Global,
    left_ty: &RTy,
    left: RGiven,
    right_ty: &RTy,
    right: RGiven,
) -> Result<RGiven, Memory>
    ensures { IfOk result (λ form. given_view form ≡ or_form (operand_view left_ty.now left) (operand_view right_ty.now right)) }
{
    let left = test_of(alloc, left_ty, left)?;
    let right = test_of(alloc, right_ty, right)?;
    Ok(RGiven::Truth(or(alloc, left, right)?))
}

/// `?:` whose operands have values of one type (ISO C99, 6.5.15).
pub fn choice_form(
    alloc: Global,
    condition_ty: &RTy,
    condition: RGiven,
    if_true: RGiven,
    if_false: RGiven,
) -> Result<RGiven, Memory>
    ensures { IfOk result (λ form. given_view form ≡ value (tree.Choose (test_of (operand_view condition_ty.now condition)) (given_value (given_view if_true)) (given_value (given_view if_false)))) }
{
    let condition = test_of(alloc, condition_ty, condition)?;
    let if_true = value_of(alloc, if_true)?;
    let if_false = value_of(alloc, if_false)?;
    Ok(RGiven::Value(choose(alloc, condition, if_true, if_false)?))
}

// A value in a type, as what is given.
fn value_as(alloc: Global, from: &RTy, to: &RTy, given: RGiven) -> Result<RGiven, Memory>
    ensures { IfOk result (λ form. given_view form ≡ value (as_type (ty_view from.now) (ty_view to.now) (given_value (given_view given)))) }
{
    let e = value_of(alloc, given)?;
    Ok(RGiven::Value(as_type(alloc, from, to, e)?))
}

/// A value converted to a scalar type; one to `void` is none (ISO C99, 6.3).
pub fn converted(alloc: Global, to: &RTy, from: &RTy, given: RGiven) -> Result<RGiven, Memory>
    ensures { IfOk result (λ form. given_view form ≡ converted (ty_view to.now) (operand_view from.now given)) }
{
    match to {
        RTy::Integer(which) => Ok(RGiven::Value(integer_as(alloc, *which, from, given)?)),
        RTy::Boolean => Ok(RGiven::Value(test_of(alloc, from, given)?)),
        RTy::Pointer(_) | RTy::Code(_, _) => value_as(alloc, from, to, given),
        RTy::Void | RTy::Array(_, _) | RTy::Record(_) => Ok(RGiven::Nothing),
    }
}

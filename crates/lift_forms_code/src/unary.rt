//! Operators of C with one operand as Rust writes them (ISO C99, 6.5.3.3). Each form is refused only for want of memory.

ghost use Rattle.std.specs.Prelude.{◌≡◌, pos, IfOk};
ghost use Rattle.lift_forms.specs.Operators.{opposite, literal_or_minus, minus_literal, literal_number, minus_by, minus, negated, unary_form};
ghost use Rattle.lift_forms_code.specs.Views.{given_view, operand_view};
ghost use Rattle.rs_text.specs.Tree as tree;
ghost use Rattle.rs_text.specs.declared.operator.Operator.TheVariants as rust;
ghost use Rattle.rs_tree.specs.Views.{ty_view, expr_view};

use crate::given::RGiven;
use crate::operands::{opposite_of, value_of};
use cr_base::{Boxed, Int, Memory};
use cx_core::Op1;
use rs_makers::{binary, literal, neg, not, wrapping_neg};
use rs_mean::fits_integer;
use rs_same::is_signed_integer;
use rs_tree::{IntegerTy, Operator, RExpr, RTy};
use std::alloc::Global;

fn opposite(which: IntegerTy, number: Int) -> Option<Int>
    ensures { result ≡ opposite which number }
{
    match number.checked_neg() {
        Some(other) => {
            if fits_integer(which, other) {
                Some(other)
            } else {
                None
            }
        }
        None => None,
    }
}

// `0 - n`
fn taken_from_zero(alloc: Global, which: IntegerTy, number: Int) -> Result<Boxed<RExpr>, Memory>
    ensures { IfOk result (λ made. expr_view made ≡ tree.Binary (tree.Literal (pos 0) which) rust.Sub (tree.Literal number which)) }
{
    let zero = literal(alloc, 0, which)?;
    let right = literal(alloc, number, which)?;
    binary(alloc, zero, Operator::Sub, right)
}

fn literal_or_minus(
    alloc: Global,
    other: Option<Int>,
    which: IntegerTy,
    number: Int,
) -> Result<Boxed<RExpr>, Memory>
    ensures { IfOk result (λ made. expr_view made ≡ literal_or_minus other which number) }
{
    match other {
        Some(other) => literal(alloc, other, which),
        None => taken_from_zero(alloc, which, number),
    }
}

fn minus_literal(alloc: Global, which: IntegerTy, number: Int) -> Result<Boxed<RExpr>, Memory>
    ensures { IfOk result (λ made. expr_view made ≡ minus_literal which number) }
{
    literal_or_minus(alloc, opposite(which, number), which, number)
}

fn literal_number(e: &RExpr) -> Option<Int>
    ensures { result ≡ literal_number (expr_view e.now) }
{
    match e {
        RExpr::Literal(number, _) => Some(*number),
        _ => None,
    }
}

fn minus_by(
    alloc: Global,
    number: Option<Int>,
    which: IntegerTy,
    e: Boxed<RExpr>,
) -> Result<Boxed<RExpr>, Memory>
    ensures { IfOk result (λ made. expr_view made ≡ minus_by number which (expr_view e)) }
{
    match number {
        Some(number) => minus_literal(alloc, which, number),
        None => neg(alloc, e),
    }
}

pub(crate) fn minus(
    alloc: Global,
    which: IntegerTy,
    e: Boxed<RExpr>,
) -> Result<Boxed<RExpr>, Memory>
    ensures { IfOk result (λ made. expr_view made ≡ minus which (expr_view e)) }
{
    let number = literal_number(e.get());
    minus_by(alloc, number, which, e)
}

fn negated(alloc: Global, ty: &RTy, e: Boxed<RExpr>) -> Result<Boxed<RExpr>, Memory>
    ensures { IfOk result (λ made. expr_view made ≡ negated (ty_view ty.now) (expr_view e)) }
{
    match ty {
        RTy::Integer(which) => {
            if is_signed_integer(*which) {
                minus(alloc, *which, e)
            } else {
                wrapping_neg(alloc, e)
            }
        }
        _ => Ok(e),
    }
}

/// An operator with one operand.
pub fn unary_form(alloc: Global, op: Op1, ty: &RTy, given: RGiven) -> Result<RGiven, Memory>
    ensures { IfOk result (λ form. given_view form ≡ unary_form op (operand_view ty.now given)) }
{
    match op {
        Op1::Plus => Ok(RGiven::Value(value_of(alloc, given)?)),
        Op1::Minus => {
            let e = value_of(alloc, given)?;
            Ok(RGiven::Value(negated(alloc, ty, e)?))
        }
        Op1::Complement => {
            let e = value_of(alloc, given)?;
            Ok(RGiven::Value(not(alloc, e)?))
        }
        Op1::Not => Ok(RGiven::Truth(opposite_of(alloc, ty, given)?)),
    }
}

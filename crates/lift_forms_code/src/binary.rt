//! Operators of C with two operands as Rust writes them (ISO C99, 6.5.5 to 6.5.12). Each form is refused only for want of memory.

ghost use Rattle.std.specs.Prelude.{◌≡◌, if◌then◌else◌, map, option_map, IfOk};
ghost use Rattle.lift_forms.specs.Given.{nothing, truth};
ghost use Rattle.lift_forms.specs.Operators.{given_value, value_of, count_of, elements_of, minus, summed, operator_of, wrapping_of, is_comparison, is_shift, computed, joined, moves, is_back, moved, pointers_joined, pointers_form, as_type, binary_by, binary_form};
ghost use Rattle.lift_forms_code.specs.Views.{given_view, operand_view};
ghost use Rattle.rs_text.specs.Tree as tree;
ghost use Rattle.rs_text.specs.Tree.{tys, option_ty};
ghost use Rattle.rs_text.specs.declared.integer.IntegerTy.TheVariants.{I64, Isize};
ghost use Rattle.rs_tree.specs.Views.{ty_view, expr_view};

use crate::given::RGiven;
use crate::operands::{as_integer, as_type, integer_as, value_of};
use crate::unary::minus;
use cr_base::{Boxed, Items, Memory};
use cx_core::Op2;
use rs_makers::{binary, offset, offset_from, wrapped};
use rs_same::is_signed_integer;
use rs_tree::{IntegerTy, Operator, RExpr, RTy, Wrapping};
use std::alloc::Global;

fn operator_of(op: Op2) -> Operator
    ensures { result ≡ operator_of op }
{
    match op {
        Op2::Multiply => Operator::Mul,
        Op2::Divide => Operator::Div,
        Op2::Remainder => Operator::Rem,
        Op2::Add => Operator::Add,
        Op2::Subtract => Operator::Sub,
        Op2::ShiftLeft => Operator::Shl,
        Op2::ShiftRight => Operator::Shr,
        Op2::Less => Operator::Less,
        Op2::Greater => Operator::Greater,
        Op2::LessOrEqual => Operator::LessEqual,
        Op2::GreaterOrEqual => Operator::GreaterEqual,
        Op2::Equal => Operator::Equal,
        Op2::NotEqual => Operator::NotEqual,
        Op2::BitAnd => Operator::BitAnd,
        Op2::BitXor => Operator::BitXor,
        Op2::BitOr => Operator::BitOr,
    }
}

fn wrapping_of(op: Op2) -> Option<Wrapping>
    ensures { result ≡ wrapping_of op }
{
    match op {
        Op2::Multiply => Some(Wrapping::WrappingMul),
        Op2::Add => Some(Wrapping::WrappingAdd),
        Op2::Subtract => Some(Wrapping::WrappingSub),
        _ => None,
    }
}

fn is_comparison(op: Op2) -> bool
    ensures { result ≡ is_comparison op }
{
    matches!(
        op,
        Op2::Less
            | Op2::Greater
            | Op2::LessOrEqual
            | Op2::GreaterOrEqual
            | Op2::Equal
            | Op2::NotEqual
    )
}

fn is_shift(op: Op2) -> bool
    ensures { result ≡ is_shift op }
{
    matches!(op, Op2::ShiftLeft | Op2::ShiftRight)
}

fn summed(
    alloc: Global,
    which: IntegerTy,
    operator: Operator,
    wrapping: Wrapping,
    left: Boxed<RExpr>,
    right: Boxed<RExpr>,
) -> Result<Boxed<RExpr>, Memory>
    ensures { IfOk result (λ made. expr_view made ≡ summed which operator wrapping (expr_view left) (expr_view right)) }
{
    if is_signed_integer(which) {
        binary(alloc, left, operator, right)
    } else {
        wrapped(alloc, left, wrapping, right)
    }
}

fn computed(
    alloc: Global,
    op: Op2,
    which: IntegerTy,
    left: Boxed<RExpr>,
    right: Boxed<RExpr>,
) -> Result<Boxed<RExpr>, Memory>
    ensures { IfOk result (λ made. expr_view made ≡ computed (wrapping_of op) (operator_of op) which (expr_view left) (expr_view right)) }
{
    match wrapping_of(op) {
        Some(wrapping) => summed(alloc, which, operator_of(op), wrapping, left, right),
        None => binary(alloc, left, operator_of(op), right),
    }
}

fn joined(
    alloc: Global,
    op: Op2,
    which: IntegerTy,
    left: Boxed<RExpr>,
    right: Boxed<RExpr>,
) -> Result<RGiven, Memory>
    ensures { IfOk result (λ form. given_view form ≡ joined op which (expr_view left) (expr_view right)) }
{
    if is_comparison(op) {
        Ok(RGiven::Truth(binary(alloc, left, operator_of(op), right)?))
    } else {
        Ok(RGiven::Value(computed(alloc, op, which, left, right)?))
    }
}

// The right operand of an operator between integers.
fn right_of(alloc: Global, op: Op2, ty: &RTy, given: RGiven) -> Result<Boxed<RExpr>, Memory>
    ensures { IfOk result (λ made. expr_view made ≡ (if is_shift op then count_of (operand_view ty.now given) else value_of (operand_view ty.now given))) }
{
    if is_shift(op) {
        integer_as(alloc, IntegerTy::U32, ty, given)
    } else {
        value_of(alloc, given)
    }
}

fn integers_form(
    alloc: Global,
    op: Op2,
    which: IntegerTy,
    left: RGiven,
    right_ty: &RTy,
    right: RGiven,
) -> Result<RGiven, Memory>
    ensures { IfOk result (λ form. given_view form ≡ joined op which (given_value (given_view left))
        (if is_shift op then count_of (operand_view right_ty.now right) else value_of (operand_view right_ty.now right))) }
{
    let left = value_of(alloc, left)?;
    let right = right_of(alloc, op, right_ty, right)?;
    joined(alloc, op, which, left, right)
}

fn moves(op: Op2) -> bool
    ensures { result ≡ moves op }
{
    matches!(op, Op2::Add | Op2::Subtract)
}

fn is_back(op: Op2) -> bool
    ensures { result ≡ is_back op }
{
    matches!(op, Op2::Subtract)
}

// By how many elements a pointer is moved, in the direction of an operator.
fn directed(alloc: Global, op: Op2, elements: Boxed<RExpr>) -> Result<Boxed<RExpr>, Memory>
    ensures { IfOk result (λ made. expr_view made ≡ (if is_back op then minus Isize (expr_view elements) else expr_view elements)) }
{
    if is_back(op) {
        minus(alloc, IntegerTy::Isize, elements)
    } else {
        Ok(elements)
    }
}

fn moved(alloc: Global, op: Op2, at: Boxed<RExpr>, elements: Boxed<RExpr>) -> Result<RGiven, Memory>
    ensures { IfOk result (λ form. given_view form ≡ moved op (expr_view at) (expr_view elements)) }
{
    if moves(op) {
        let elements = directed(alloc, op, elements)?;
        Ok(RGiven::Value(offset(alloc, at, elements)?))
    } else {
        Ok(RGiven::Nothing)
    }
}

// A pointer and a number.
fn moved_form(
    alloc: Global,
    op: Op2,
    at: RGiven,
    count_ty: &RTy,
    count: RGiven,
) -> Result<RGiven, Memory>
    ensures { IfOk result (λ form. given_view form ≡ moved op (given_value (given_view at)) (elements_of (operand_view count_ty.now count))) }
{
    let at = value_of(alloc, at)?;
    let elements = integer_as(alloc, IntegerTy::Isize, count_ty, count)?;
    moved(alloc, op, at, elements)
}

// The second of two pointers, in the type of the first.
fn beside(
    alloc: Global,
    left_ty: &RTy,
    right_ty: &RTy,
    right: RGiven,
) -> Result<Boxed<RExpr>, Memory>
    ensures { IfOk result (λ made. expr_view made ≡ as_type (ty_view right_ty.now) (ty_view left_ty.now) (given_value (given_view right))) }
{
    let right = value_of(alloc, right)?;
    as_type(alloc, right_ty, left_ty, right)
}

// `p.offset_from(q) as i64`
fn apart(alloc: Global, left: Boxed<RExpr>, right: Boxed<RExpr>) -> Result<Boxed<RExpr>, Memory>
    ensures { IfOk result (λ made. expr_view made ≡ tree.Cast (tree.OffsetFrom (expr_view left) (expr_view right)) (tree.Integer I64)) }
{
    let elements = offset_from(alloc, left, right)?;
    as_integer(alloc, IntegerTy::I64, elements)
}

// Two pointers of one type that are compared.
fn compared(
    alloc: Global,
    op: Op2,
    left: Boxed<RExpr>,
    right: Boxed<RExpr>,
) -> Result<RGiven, Memory>
    ensures { IfOk result (λ form. given_view form ≡ (if is_comparison op then truth (tree.Binary (expr_view left) (operator_of op) (expr_view right)) else nothing)) }
{
    if is_comparison(op) {
        Ok(RGiven::Truth(binary(alloc, left, operator_of(op), right)?))
    } else {
        Ok(RGiven::Nothing)
    }
}

fn pointers_joined(
    alloc: Global,
    op: Op2,
    left: Boxed<RExpr>,
    right: Boxed<RExpr>,
) -> Result<RGiven, Memory>
    ensures { IfOk result (λ form. given_view form ≡ pointers_joined op (expr_view left) (expr_view right)) }
{
    if is_back(op) {
        Ok(RGiven::Value(apart(alloc, left, right)?))
    } else {
        compared(alloc, op, left, right)
    }
}

fn pointers_form(
    alloc: Global,
    op: Op2,
    left_ty: &RTy,
    left: RGiven,
    right_ty: &RTy,
    right: RGiven,
) -> Result<RGiven, Memory>
    ensures { IfOk result (λ form. given_view form ≡ pointers_form op (operand_view left_ty.now left) (operand_view right_ty.now right)) }
{
    let left = value_of(alloc, left)?;
    let right = beside(alloc, left_ty, right_ty, right)?;
    pointers_joined(alloc, op, left, right)
}

// An integer on the left.
fn integer_left(
    alloc: Global,
    op: Op2,
    which: IntegerTy,
    left_ty: &RTy,
    left: RGiven,
    right_ty: &RTy,
    right: RGiven,
) -> Result<RGiven, Memory>
    ensures { IfOk result (λ form. given_view form ≡ binary_by op (tree.Integer which) (ty_view right_ty.now) (operand_view left_ty.now left) (operand_view right_ty.now right)) }
{
    match right_ty {
        RTy::Integer(_) => integers_form(alloc, op, which, left, right_ty, right),
        RTy::Pointer(_) => moved_form(alloc, op, right, left_ty, left),
        _ => Ok(RGiven::Nothing),
    }
}

// A truth value of `_Bool` on the left.
fn boolean_left(
    alloc: Global,
    op: Op2,
    left_ty: &RTy,
    left: RGiven,
    right_ty: &RTy,
    right: RGiven,
) -> Result<RGiven, Memory>
    ensures { IfOk result (λ form. given_view form ≡ binary_by op tree.Boolean (ty_view right_ty.now) (operand_view left_ty.now left) (operand_view right_ty.now right)) }
{
    match right_ty {
        RTy::Pointer(_) => moved_form(alloc, op, right, left_ty, left),
        _ => Ok(RGiven::Nothing),
    }
}

// A pointer to an object on the left.
fn pointer_left(
    alloc: Global,
    op: Op2,
    _target: &RTy,
    left_ty: &RTy,
    left: RGiven,
    right_ty: &RTy,
    right: RGiven,
) -> Result<RGiven, Memory>
    ensures { IfOk result (λ form. given_view form ≡ binary_by op (tree.Pointer (ty_view _target.now)) (ty_view right_ty.now) (operand_view left_ty.now left) (operand_view right_ty.now right)) }
{
    match right_ty {
        RTy::Integer(_) => moved_form(alloc, op, left, right_ty, right),
        RTy::Boolean => moved_form(alloc, op, left, right_ty, right),
        RTy::Pointer(_) => pointers_form(alloc, op, left_ty, left, right_ty, right),
        _ => Ok(RGiven::Nothing),
    }
}

// A pointer to a function on the left.
fn code_left(
    alloc: Global,
    op: Op2,
    _params: &Items<RTy>,
    _given: &Option<Boxed<RTy>>,
    left_ty: &RTy,
    left: RGiven,
    right_ty: &RTy,
    right: RGiven,
) -> Result<RGiven, Memory>
    ensures { IfOk result (λ form. given_view form ≡ binary_by op (tree.Code (tys (map ty_view _params.now)) (option_ty (option_map ty_view _given.now))) (ty_view right_ty.now) (operand_view left_ty.now left) (operand_view right_ty.now right)) }
{
    match right_ty {
        RTy::Code(_, _) => pointers_form(alloc, op, left_ty, left, right_ty, right),
        _ => Ok(RGiven::Nothing),
    }
}

/// An operator with two operands, by their types.
pub fn binary_form(
    alloc: Global,
    op: Op2,
    left_ty: &RTy,
    left: RGiven,
    right_ty: &RTy,
    right: RGiven,
) -> Result<RGiven, Memory>
    ensures { IfOk result (λ form. given_view form ≡ binary_form op (operand_view left_ty.now left) (operand_view right_ty.now right)) }
{
    match left_ty {
        RTy::Integer(which) => integer_left(alloc, op, *which, left_ty, left, right_ty, right),
        RTy::Boolean => boolean_left(alloc, op, left_ty, left, right_ty, right),
        RTy::Pointer(target) => pointer_left(
            alloc,
            op,
            target.get(),
            left_ty,
            left,
            right_ty,
            right,
        ),
        RTy::Code(params, given) => {
            code_left(alloc, op, params, given, left_ty, left, right_ty, right)
        }
        _ => Ok(RGiven::Nothing),
    }
}

//! Operators over numbers (ISO C99, 6.5.3.3 and 6.5.5 to 6.5.12).

ghost use Rattle.std.specs.Prelude.{◌≡◌, true, IfSome, IsTrue, ℤ, Ok, Result};
ghost use Rattle.cr_base.specs.Scalar.{IsInteger};
ghost use Rattle.cx_access.specs.Finds.{Finds};
ghost use Rattle.cx_access.specs.Views.{view_setting};
ghost use Rattle.cx_mean.specs.Settings.{scalar_in_type};
ghost use Rattle.cx_mean.specs.Values.{unary_value};
ghost use Rattle.cx_numbers.specs.Calls.{IsNumber};
ghost use Rattle.cx_numbers.specs.Numbers.{CWhy, is_shift, number_of_binary, number_of_truth, number_of_unary};
ghost use Rattle.cx_operations.specs.Parts.{arithmetic_in, numbers_in};
ghost use Rattle.cx_work.specs.Views.{view_operand_ty};

use crate::truths::is_true;
use cr_base::{Int, Scalar};
use cx_access::{Setting, Trouble, number_in, scalar_of};
use cx_core::{Op1, Op2};
use cx_numbers::{Why, binary_number, is_represented, unary_number};
use cx_work::OperandTy;
use mem_bytes::{Store, Value};

// Whether a scalar type is an integer type of the profile.
fn is_integer(kind: Scalar) -> bool
    ensures { IsTrue result → IsInteger kind }
{
    match kind {
        Scalar::Truth => true,
        Scalar::Whole { width, .. } => matches!(width, 8 | 16 | 32 | 64),
        Scalar::Object => false,
        Scalar::Code => false,
    }
}

// What an operator over numbers answers.
fn number_found(answer: Result<Int, Why>) -> Result<Int, Trouble>
    ensures { (found : Result ℤ CWhy) → IsNumber answer found → Finds (λ number. number) result found }
{
    match answer {
        Ok(number) => Ok(number),
        Err(Why::Breaks(rule)) => Err(Trouble::Undefined(rule)),
        Err(Why::Stuck) => Err(Trouble::Memory),
    }
}

fn unary_in(op: Op1, kind: Scalar, number: Int) -> Result<Int, Trouble>
    ensures { Finds (λ one. one) result (number_of_unary op kind number) }
{
    if !is_integer(kind) {
        return Err(Trouble::Memory);
    }
    if !is_represented(kind, number) {
        return Err(Trouble::Memory);
    }
    number_found(unary_number(op, kind, number))
}

fn is_shift(op: Op2) -> bool
    ensures { result ≡ is_shift op }
{
    matches!(op, Op2::ShiftLeft | Op2::ShiftRight)
}

// What a comparison says of two numbers of any type (ISO C99, 6.5.8p6, 6.5.9p3); None for another operator.
fn compared(op: Op2, left: Int, right: Int) -> Option<bool>
    ensures { (kind : Scalar) → IfSome result (λ holds. number_of_binary op kind left right ≡ Ok (number_of_truth holds)) }
{
    match op {
        Op2::Less => Some(left < right),
        Op2::Greater => Some(left > right),
        Op2::LessOrEqual => Some(left <= right),
        Op2::GreaterOrEqual => Some(left >= right),
        Op2::Equal => Some(left == right),
        Op2::NotEqual => Some(left != right),
        _ => None,
    }
}

fn truth(holds: bool) -> Result<Int, Trouble>
    ensures { Finds (λ one. one) result (Ok (number_of_truth holds)) }
{
    Ok(Int::from(holds))
}

fn binary_in(op: Op2, kind: Scalar, left: Int, right: Int) -> Result<Int, Trouble>
    ensures { Finds (λ one. one) result (number_of_binary op kind left right) }
{
    if let Some(holds) = compared(op, left, right) {
        return truth(holds);
    }
    if !is_integer(kind) {
        return Err(Trouble::Memory);
    }
    if !is_represented(kind, left) {
        return Err(Trouble::Memory);
    }
    if !(is_shift(op) || is_represented(kind, right)) {
        return Err(Trouble::Memory);
    }
    number_found(binary_number(op, kind, left, right))
}

// An arithmetic operator in the scalar type of its node.
fn arithmetic(op: Op1, kind: Option<Scalar>, value: Value) -> Result<Value, Trouble>
    ensures { Finds (λ one. one) result (arithmetic_in op kind value) }
{
    let Some(kind) = kind else {
        return Err(Trouble::Memory);
    };
    let number = match number_in(value) {
        Ok(number) => number,
        Err(trouble) => return Err(trouble),
    };
    match unary_in(op, kind, number) {
        Ok(number) => Ok(Value::Whole(number)),
        Err(trouble) => Err(trouble),
    }
}

/// What an operator with one operand gives, in a type.
///
/// # Errors
///
/// `Undefined` by U2, or by U5 for `!` of a pointer to a dead object.
pub fn unary_value<S: Store>(
    store: &S,
    setting: &Setting<'_>,
    op: Op1,
    ty: OperandTy<'_>,
    value: Value,
) -> Result<Value, Trouble>
    ensures { Finds (λ one. one) result (unary_value (view_setting setting.now) op (view_operand_ty ty.entry) (S.memory store.now) value) }
{
    match op {
        Op1::Not => match is_true(store, value) {
            Ok(truth) => Ok(Value::Whole(Int::from(!truth))),
            Err(trouble) => Err(trouble),
        },
        Op1::Plus => arithmetic(op, scalar_of(setting, ty), value),
        Op1::Minus => arithmetic(op, scalar_of(setting, ty), value),
        Op1::Complement => arithmetic(op, scalar_of(setting, ty), value),
    }
}

/// What an operator with two operands gives of two numbers, in the scalar type of its node.
pub(crate) fn two_numbers(
    op: Op2,
    kind: Option<Scalar>,
    left: Int,
    right: Int,
) -> Result<Value, Trouble>
    ensures { Finds (λ one. one) result (numbers_in op kind left right) }
{
    let Some(kind) = kind else {
        return Err(Trouble::Memory);
    };
    match binary_in(op, kind, left, right) {
        Ok(number) => Ok(Value::Whole(number)),
        Err(trouble) => Err(trouble),
    }
}

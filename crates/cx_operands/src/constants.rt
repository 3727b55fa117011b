//! Integer constant expressions and null pointer constants (ISO C99, 6.3.2.3p3 and 6.6).

ghost use Rattle.std.specs.Prelude.{◌≡◌, ◌&&◌, not, option_map};
ghost use Rattle.std.specs.Option.{option_and_then};
ghost use Rattle.cx_core.specs.Conversions.{scalar_of_basic};
ghost use Rattle.cx_numbers.specs.Numbers.{number_of_truth};
ghost use Rattle.cx_core.specs.Views.{view_type, view_types, view_expr};
ghost use Rattle.cx_operands.specs.Views.{view_operand};
ghost use Rattle.cx_rules.specs.Operands.{is_constant_form, number_of, number_within, unary_number, binary_number, converted_number, both_hold, either_holds, chosen, constant_of, is_null_constant, is_null_pointer, has_value_zero, value_of, is_zero};

use crate::joining::joined;
use cr_base::{Int, convert};
use cx_core::{Basic, CoreExpr, Form, Op1, Types, basic_of};
use cx_numbers::{is_represented, unary_number};

/// The value of an integer constant expression, or None where it is none or its value isn't defined (ISO C99,
/// 6.6).
#[tactic(auto, unfolding(cx_rules::specs::Operands::constant_of))]
pub fn constant_of(types: &Types, e: &CoreExpr) -> Option<Int>
    ensures { result ≡ constant_of (view_types types.now) (view_expr e.now) }
{
    if is_constant_form(types, e) {
        number_of(types, e)
    } else {
        None
    }
}

// Whether its operands are those of an integer constant expression.
fn is_constant_form(types: &Types, e: &CoreExpr) -> bool
    ensures { result ≡ is_constant_form (view_types types.now) (view_expr e.now) }
{
    if basic_of(&e.ty, types).is_none() {
        return false;
    }
    match &e.form {
        Form::Whole(_) => true,
        Form::Convert(value) => is_constant_form(types, value.get()),
        Form::Unary(_, value) => is_constant_form(types, value.get()),
        Form::Binary(_, left, right) | Form::And(left, right) | Form::Or(left, right) => {
            is_constant_form(types, left.get()) && is_constant_form(types, right.get())
        }
        Form::Comma(first, second) => {
            is_constant_form(types, first.get()) && is_constant_form(types, second.get())
        }
        Form::Cond(test, first, second) => {
            is_constant_form(types, test.get())
                && is_constant_form(types, first.get())
                && is_constant_form(types, second.get())
        }
        _ => false,
    }
}

// The number that such an expression gives, or None where its value isn't defined.
fn number_of(types: &Types, e: &CoreExpr) -> Option<Int>
    ensures { result ≡ number_of (view_types types.now) (view_expr e.now) }
{
    match &e.form {
        Form::Whole(value) => number_within(basic_of(&e.ty, types), *value),
        Form::Convert(value) => converted_number(
            basic_of(&e.ty, types),
            number_of(types, value.get()),
        ),
        Form::Unary(op, value) => negated(
            *op,
            basic_of(&value.get().ty, types),
            number_of(types, value.get()),
        ),
        Form::Binary(op, left, right) => joined(
            *op,
            basic_of(&left.get().ty, types),
            number_of(types, left.get()),
            number_of(types, right.get()),
        ),
        Form::And(left, right) => both_hold(
            number_of(types, left.get()),
            number_of(types, right.get()),
        ),
        Form::Or(left, right) => either_holds(
            number_of(types, left.get()),
            number_of(types, right.get()),
        ),
        Form::Cond(test, first, second) => chosen(
            number_of(types, test.get()),
            number_of(types, first.get()),
            number_of(types, second.get()),
        ),
        _ => None,
    }
}

#[tactic(auto, using(crate::proofs::Scalars::basic_is_integer))]
fn number_within(which: Option<Basic>, value: Int) -> Option<Int>
    ensures { result ≡ number_within (option_map scalar_of_basic which) value }
{
    let Some(which) = which else {
        return None;
    };
    if is_represented(which.scalar(), value) {
        Some(value)
    } else {
        None
    }
}

#[tactic(auto, using(crate::proofs::Scalars::basic_is_integer))]
fn converted_number(which: Option<Basic>, value: Option<Int>) -> Option<Int>
    ensures { result ≡ option_and_then (converted_number (option_map scalar_of_basic which)) value }
{
    let Some(value) = value else {
        return None;
    };
    let Some(which) = which else {
        return None;
    };
    Some(convert(which.scalar(), value))
}

#[tactic(auto, using(crate::proofs::Scalars::basic_is_integer))]
fn negated(op: Op1, which: Option<Basic>, value: Option<Int>) -> Option<Int>
    ensures { result ≡ option_and_then (unary_number op (option_map scalar_of_basic which)) value }
{
    let Some(value) = value else {
        return None;
    };
    let Some(which) = which else {
        return None;
    };
    if !is_represented(which.scalar(), value) {
        return None;
    }
    match unary_number(op, which.scalar(), value) {
        Ok(number) => Some(number),
        Err(_) => None,
    }
}

fn both_hold(first: Option<Int>, second: Option<Int>) -> Option<Int>
    ensures { result ≡ option_and_then (both_hold second) first }
{
    let Some(first) = first else {
        return None;
    };
    if first == 0 {
        return Some(0);
    }
    truth_of(second)
}

fn either_holds(first: Option<Int>, second: Option<Int>) -> Option<Int>
    ensures { result ≡ option_and_then (either_holds second) first }
{
    let Some(first) = first else {
        return None;
    };
    if first == 0 {
        return truth_of(second);
    }
    Some(1)
}

fn truth_of(value: Option<Int>) -> Option<Int>
    ensures { result ≡ option_map (λ one. number_of_truth (not (is_zero one))) value }
{
    match value {
        None => None,
        Some(one) => Some(Int::from(one != 0)),
    }
}

fn chosen(test: Option<Int>, first: Option<Int>, second: Option<Int>) -> Option<Int>
    ensures { result ≡ option_and_then (chosen first second) test }
{
    let Some(test) = test else {
        return None;
    };
    if test == 0 { second } else { first }
}

//! What rules of statements ask of operands.

ghost use Rattle.std.specs.Prelude.{◌≡◌, option_map};
ghost use Rattle.std.specs.List.{list_any};
ghost use Rattle.std.specs.Option.{option_and_then};
ghost use Rattle.std.specs.Ordering.{int_eq};
ghost use Rattle.cx_core.specs.Conversions.{scalar_of_basic};
ghost use Rattle.cx_core.specs.Views.{view_type, view_types};
ghost use Rattle.cx_kinds.specs.Known.{types_in};
ghost use Rattle.cx_operands.specs.Views.{view_operand};
ghost use Rattle.cx_rules.specs.Rules.{case_value, converted_case, value_is};
ghost use Rattle.cx_stmt_breaks.specs.Asked.{has_scalar, has_integer, is_unconstant, is_misfit, is_no_case};

use cr_base::{Int, convert};
use cx_core::{Basic, Ty, Types, basic_of};
use cx_kinds::Known;
use cx_operands::{Operand, operand_constant, value_type};
use cx_pairs::{is_scalar, may_be_assigned};

// Whether its value is of scalar type.
#[tactic(auto, unfolding(crate::specs::Asked::has_scalar))]
pub(crate) fn has_scalar(known: Known, value: &Operand) -> bool
    ensures { result ≡ has_scalar (types_in known.entry) (view_operand value.now) }
{
    is_scalar(known, value_type(value))
}

// Whether its value is an integer.
#[tactic(auto, unfolding(crate::specs::Asked::has_integer))]
pub(crate) fn has_integer(types: &Types, value: &Operand) -> bool
    ensures { result ≡ has_integer (view_types types.now) (view_operand value.now) }
{
    value_type(value).is_integer(types)
}

#[tactic(auto, unfolding(crate::specs::Asked::is_unconstant))]
pub(crate) fn is_unconstant(types: &Types, value: &Operand) -> bool
    ensures { result ≡ is_unconstant (view_types types.now) (view_operand value.now) }
{
    operand_constant(types, value).is_none()
}

// Whether its value may not be assigned where the type stands.
#[tactic(auto, unfolding(crate::specs::Asked::is_misfit))]
pub(crate) fn is_misfit(types: &Types, result_ty: &Ty, value: &Operand) -> bool
    ensures { result ≡ is_misfit (view_types types.now) (view_type result_ty.now) (view_operand value.now) }
{
    !may_be_assigned(types, result_ty, value)
}

/// The value of a `case` label, converted to the type of its `switch`, or None where it is no integer constant expression (ISO
/// C99, 6.8.4.2p5).
pub fn case_value(types: &Types, switch_ty: &Ty, value: &Operand) -> Option<Int>
    ensures { result ≡ case_value (view_types types.now) (view_type switch_ty.now) (view_operand value.now) }
{
    converted_case(basic_of(switch_ty, types), operand_constant(types, value))
}

#[tactic(auto, using(crate::proofs::Scalars::basic_is_integer))]
fn converted_case(which: Option<Basic>, value: Option<Int>) -> Option<Int>
    ensures { result ≡ option_and_then (converted_case (option_map scalar_of_basic which)) value }
{
    let Some(value) = value else {
        return None;
    };
    let Some(which) = which else {
        return None;
    };
    Some(convert(which.scalar(), value))
}

// Whether a `case` label stands in no `switch`, or has the value of an earlier one.
#[tactic(auto, unfolding(crate::specs::Asked::is_no_case))]
pub(crate) fn is_no_case(
    types: &Types,
    switch_ty: Option<&Ty>,
    value: &Operand,
    before: &[Int],
) -> bool
    ensures { result ≡ is_no_case (view_types types.now) (option_map (λ t. view_type t.now) switch_ty.entry) (view_operand value.now) before.now }
{
    match switch_ty {
        None => true,
        Some(t) => is_repeated(case_value(types, t, value), before),
    }
}

fn is_repeated(value: Option<Int>, before: &[Int]) -> bool
    ensures { result ≡ value_is (λ one. list_any (int_eq one) before.now) value }
{
    match value {
        None => false,
        Some(one) => is_among(one, before),
    }
}

fn is_among(value: Int, before: &[Int]) -> bool
    ensures { result ≡ list_any (int_eq value) before.now }
{
    for other in before {
        if value == *other {
            return true;
        }
    }
    false
}

//! Operators with two operands over constants (ISO C99, 6.5.5 to 6.5.12).

ghost use Rattle.std.specs.Prelude.{◌≡◌, ◌||◌, Some, option_map};
ghost use Rattle.std.specs.Option.{option_and_then};
ghost use Rattle.cx_core.specs.Conversions.{scalar_of_basic};
ghost use Rattle.cx_numbers.specs.Numbers.{is_shift, represents};
ghost use Rattle.cx_rules.specs.Operands.{binary_number};

use cr_base::Int;
use cx_core::{Basic, Op2};
use cx_numbers::{binary_number, is_represented};

// What an operator gives of two numbers in a type that represents them, where that is defined.
pub(crate) fn joined(
    op: Op2,
    which: Option<Basic>,
    left: Option<Int>,
    right: Option<Int>,
) -> Option<Int>
    ensures { result ≡ option_and_then (λ first. binary_number op (option_map scalar_of_basic which) first right) left }
{
    let Some(left) = left else {
        return None;
    };
    let Some(which) = which else {
        return None;
    };
    let Some(right) = right else {
        return None;
    };
    joined_in(op, which, left, right)
}

#[tactic(auto, using(crate::proofs::Scalars::basic_is_integer))]
fn joined_in(op: Op2, which: Basic, left: Int, right: Int) -> Option<Int>
    ensures { result ≡ binary_number op (Some (scalar_of_basic which)) left (Some right) }
{
    if !is_represented(which.scalar(), left) {
        return None;
    }
    if !may_join(op, which, right) {
        return None;
    }
    match binary_number(op, which.scalar(), left, right) {
        Ok(number) => Some(number),
        Err(_) => None,
    }
}

#[tactic(auto, using(crate::proofs::Scalars::basic_is_integer))]
fn may_join(op: Op2, which: Basic, right: Int) -> bool
    ensures { result ≡ (is_shift op || represents (scalar_of_basic which) right) }
{
    is_shift(op) || is_represented(which.scalar(), right)
}

fn is_shift(op: Op2) -> bool
    ensures { result ≡ is_shift op }
{
    matches!(op, Op2::ShiftLeft | Op2::ShiftRight)
}

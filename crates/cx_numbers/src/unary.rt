ghost use Rattle.std.specs.Prelude.{◌≡◌, true, pos, neg_ℤ, ◌-ℤ◌};
ghost use Rattle.cr_base.specs.Scalar.{IsInteger, wrapped};
ghost use Rattle.cx_numbers.specs.Calls.{IsNumber};
ghost use Rattle.cx_numbers.specs.Numbers.{represents, number_of_unary};

use crate::ranges::in_type;
use crate::why::Why;
use cr_base::{Int, Scalar, URule, wrap};
use cx_core::Op1;

/// What an arithmetic operator with one operand gives in an integer type that represents the operand (ISO
/// C99, 6.5.3.3). A signed result that isn't representable breaks U2; `_Bool` is `Stuck`, since operands are
/// promoted.
pub fn unary_number(op: Op1, kind: Scalar, value: Int) -> Result<Int, Why>
    requires integer { IsInteger kind }
    requires represented { represents kind value ≡ true }
    ensures { IsNumber result (number_of_unary op kind value) }
{
    match op {
        Op1::Plus => Ok(value),
        Op1::Minus => in_type(URule::U2, kind, negated(kind, value)),
        Op1::Complement => Ok(wrapped(kind, complement(kind, value))),
        Op1::Not => Ok(Int::from(value == 0)),
    }
}

// A number reduced into the range of the type; `_Bool` leaves it as it is.
pub(crate) fn wrapped(kind: Scalar, value: Int) -> Int
    requires { IsInteger kind }
    ensures { result ≡ wrapped kind value }
{
    match kind {
        Scalar::Whole { .. } => wrap(kind, value),
        _ => value,
    }
}

fn negated(kind: Scalar, value: Int) -> Int
    requires integer { IsInteger kind }
    requires represented { represents kind value ≡ true }
    ensures { result ≡ neg_ℤ value }
{
    -value
}

fn complement(kind: Scalar, value: Int) -> Int
    requires integer { IsInteger kind }
    requires represented { represents kind value ≡ true }
    ensures { result ≡ neg_ℤ value -ℤ pos 1 }
{
    -value - 1
}

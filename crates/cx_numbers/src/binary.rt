ghost use Rattle.std.specs.Prelude.{◌≡◌, ◌≢◌, int_div, int_rem, ◌||◌, true, pos, ◌+ℤ◌, ◌-ℤ◌, ◌*ℤ◌, ◌^◌, IsTrue, bit_and, bit_or, bit_xor};
ghost use Rattle.cr_base.specs.Scalar.{is_width, IsInteger, wrapped, residue, modulus};
ghost use Rattle.cx_numbers.specs.Calls.{IsNumber};
ghost use Rattle.cx_numbers.specs.Numbers.{represents, in_type, quotient, remainder_by, combined, number_of_binary, number_of_truth, is_shift};

use crate::ranges::{in_type, represented};
use crate::shifts::{left_shift, right_shift};
use crate::why::Why;
use crate::words::{both_bits, either_bits, multiplied, other_bits};
use cr_base::{Int, Scalar, URule};
use cx_core::Op2;

/// What an operator with two operands gives in an integer type that represents the left one, and the right
/// one unless the operator is a shift (ISO C99, 6.5.5 to 6.5.12). A signed result that isn't representable
/// breaks U2, a division by 0 or one whose quotient isn't representable U3, and a shift U4 by a count that is
/// negative or not below the width, of a negative number to the left, or with a signed result that isn't
/// representable. `_Bool` is `Stuck`, since operands are promoted.
pub fn binary_number(op: Op2, kind: Scalar, left: Int, right: Int) -> Result<Int, Why>
    requires integer { IsInteger kind }
    requires left { represents kind left ≡ true }
    requires right { IsTrue (is_shift op || represents kind right) }
    ensures { IsNumber result (number_of_binary op kind left right) }
{
    match op {
        Op2::Multiply => multiplied(kind, left, right),
        Op2::Divide => quotient(kind, left, right),
        Op2::Remainder => remainder(kind, left, right),
        Op2::Add => in_type(URule::U2, kind, sum(kind, left, right)),
        Op2::Subtract => in_type(URule::U2, kind, difference(kind, left, right)),
        Op2::ShiftLeft => left_shift(kind, left, right),
        Op2::ShiftRight => right_shift(kind, left, right),
        Op2::Less => Ok(truth(left < right)),
        Op2::Greater => Ok(truth(left > right)),
        Op2::LessOrEqual => Ok(truth(left <= right)),
        Op2::GreaterOrEqual => Ok(truth(left >= right)),
        Op2::Equal => Ok(truth(left == right)),
        Op2::NotEqual => Ok(truth(left != right)),
        Op2::BitAnd => Ok(both_bits(kind, left, right)),
        Op2::BitXor => Ok(other_bits(kind, left, right)),
        Op2::BitOr => Ok(either_bits(kind, left, right)),
    }
}

fn truth(holds: bool) -> Int
    ensures { result ≡ number_of_truth holds }
{
    Int::from(holds)
}

fn sum(kind: Scalar, left: Int, right: Int) -> Int
    requires integer { IsInteger kind }
    requires left { represents kind left ≡ true }
    requires right { represents kind right ≡ true }
    ensures { result ≡ left +ℤ right }
{
    left + right
}

fn difference(kind: Scalar, left: Int, right: Int) -> Int
    requires integer { IsInteger kind }
    requires left { represents kind left ≡ true }
    requires right { represents kind right ≡ true }
    ensures { result ≡ left -ℤ right }
{
    left - right
}

fn quotient(kind: Scalar, left: Int, right: Int) -> Result<Int, Why>
    requires integer { IsInteger kind }
    requires left { represents kind left ≡ true }
    requires right { represents kind right ≡ true }
    ensures { IsNumber result (quotient kind left right) }
{
    if right == 0 {
        return Err(Why::Breaks(URule::U3));
    }
    represented(URule::U3, kind, divided(kind, left, right))
}

fn remainder(kind: Scalar, left: Int, right: Int) -> Result<Int, Why>
    requires integer { IsInteger kind }
    requires left { represents kind left ≡ true }
    requires right { represents kind right ≡ true }
    ensures { IsNumber result (remainder_by left right (quotient kind left right)) }
{
    if right == 0 {
        return Err(Why::Breaks(URule::U3));
    }
    match quotient(kind, left, right) {
        Ok(_) => Ok(rest(kind, left, right)),
        Err(why) => Err(why),
    }
}

fn divided(kind: Scalar, left: Int, right: Int) -> Int
    requires integer { IsInteger kind }
    requires left { represents kind left ≡ true }
    requires right { right ≢ pos 0 }
    ensures { result ≡ int_div left right }
{
    left / right
}

fn rest(kind: Scalar, left: Int, right: Int) -> Int
    requires integer { IsInteger kind }
    requires left { represents kind left ≡ true }
    requires right { right ≢ pos 0 }
    ensures { result ≡ int_rem left right }
{
    left % right
}

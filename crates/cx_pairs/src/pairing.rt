//! In which way a binary operator takes two operands (ISO C99, 6.5.5 to 6.5.14).

ghost use Rattle.std.specs.Prelude.{◌≡◌, ◌&&◌};
ghost use Rattle.cx_core.specs.Views.{view_types};
ghost use Rattle.cx_kinds.specs.Known.{IsKnown, types_in};
ghost use Rattle.cx_operands.specs.Views.{view_operand, view_value_type};
ghost use Rattle.cx_rules.specs.Operands.{value_of};
ghost use Rattle.cx_rules.specs.Pairs.{pairing, both_integers, numbers_pair, shift_pair, sum_pair, difference_pair, differ, order_pair, ordered, equality_pair, pointers_pair};
ghost use Rattle.cx_rules.specs.Types.{is_element_pointer, is_integer};

use crate::values::{as_complete, is_element_pointer, is_object_pointer, point_alike, void_beside};
use cx_core::{Op2, Types};
use cx_kinds::Known;
use cx_operands::{Operand, ValueTy, is_null_operand, value_type};
use cx_rules::Pairing;

/// In which way a binary operator takes two operands, or that it doesn't take them (ISO C99, 6.5.5 to 6.5.12).
#[tactic(auto, unfolding(cx_rules::specs::Pairs::pairing))]
pub fn pairing_of(known: Known, op: Op2, left: &Operand, right: &Operand) -> Pairing
    requires { IsKnown known }
    ensures { result ≡ pairing (types_in known.entry) op (value_of (view_operand left.now)) (value_of (view_operand right.now)) }
{
    let first = value_type(left);
    let second = value_type(right);
    match op {
        Op2::Multiply | Op2::Divide | Op2::Remainder | Op2::BitAnd | Op2::BitXor | Op2::BitOr => {
            numbers_pair(known.types, first, second)
        }
        Op2::ShiftLeft | Op2::ShiftRight => shift_pair(known.types, first, second),
        Op2::Add => sum_pair(known, first, second),
        Op2::Subtract => difference_pair(known, first, second),
        Op2::Less | Op2::Greater | Op2::LessOrEqual | Op2::GreaterOrEqual => {
            order_pair(known, first, second)
        }
        Op2::Equal | Op2::NotEqual => equality_pair(
            known.types,
            first,
            is_null_operand(known.types, left),
            second,
            is_null_operand(known.types, right),
        ),
    }
}

// Whether both types are integer types.
pub(crate) fn both_integers(types: &Types, left: ValueTy<'_>, right: ValueTy<'_>) -> bool
    ensures { result ≡ both_integers (view_types types.now) (view_value_type left.entry) (view_value_type right.entry) }
{
    left.is_integer(types) && right.is_integer(types)
}

fn numbers_pair(types: &Types, left: ValueTy<'_>, right: ValueTy<'_>) -> Pairing
    ensures { result ≡ numbers_pair (view_types types.now) (view_value_type left.entry) (view_value_type right.entry) }
{
    if both_integers(types, left, right) {
        Pairing::Arithmetic
    } else {
        Pairing::Nothing
    }
}

fn shift_pair(types: &Types, left: ValueTy<'_>, right: ValueTy<'_>) -> Pairing
    ensures { result ≡ shift_pair (view_types types.now) (view_value_type left.entry) (view_value_type right.entry) }
{
    if both_integers(types, left, right) {
        Pairing::Shift
    } else {
        Pairing::Nothing
    }
}

fn sum_pair(known: Known, left: ValueTy<'_>, right: ValueTy<'_>) -> Pairing
    requires { IsKnown known }
    ensures { result ≡ sum_pair (types_in known.entry) (view_value_type left.entry) (view_value_type right.entry) }
{
    if both_integers(known.types, left, right) {
        Pairing::Arithmetic
    } else if moves(known, left, right) {
        Pairing::PointerInteger
    } else if is_moved_by(known, left, right) {
        Pairing::IntegerPointer
    } else {
        Pairing::Nothing
    }
}

// Whether an integer on the right moves a pointer to elements of an array.
fn moves(known: Known, left: ValueTy<'_>, right: ValueTy<'_>) -> bool
    requires { IsKnown known }
    ensures { result ≡ (is_element_pointer (types_in known.entry) (view_value_type left.entry) && is_integer (types_in known.entry) (view_value_type right.entry)) }
{
    is_element_pointer(known, left) && right.is_integer(known.types)
}

// Whether an integer on the left does.
fn is_moved_by(known: Known, left: ValueTy<'_>, right: ValueTy<'_>) -> bool
    requires { IsKnown known }
    ensures { result ≡ (is_integer (types_in known.entry) (view_value_type left.entry) && is_element_pointer (types_in known.entry) (view_value_type right.entry)) }
{
    left.is_integer(known.types) && is_element_pointer(known, right)
}

fn difference_pair(known: Known, left: ValueTy<'_>, right: ValueTy<'_>) -> Pairing
    requires { IsKnown known }
    ensures { result ≡ difference_pair (types_in known.entry) (view_value_type left.entry) (view_value_type right.entry) }
{
    if both_integers(known.types, left, right) {
        Pairing::Arithmetic
    } else if moves(known, left, right) {
        Pairing::PointerInteger
    } else if differ(known, left, right) {
        Pairing::Pointers
    } else {
        Pairing::Nothing
    }
}

fn differ(known: Known, left: ValueTy<'_>, right: ValueTy<'_>) -> bool
    requires { IsKnown known }
    ensures { result ≡ differ (types_in known.entry) (view_value_type left.entry) (view_value_type right.entry) }
{
    if !is_element_pointer(known, left) {
        return false;
    }
    is_element_pointer(known, right) && point_alike(known.types, left, right)
}

fn order_pair(known: Known, left: ValueTy<'_>, right: ValueTy<'_>) -> Pairing
    requires { IsKnown known }
    ensures { result ≡ order_pair (types_in known.entry) (view_value_type left.entry) (view_value_type right.entry) }
{
    if both_integers(known.types, left, right) {
        Pairing::Arithmetic
    } else if ordered(known, left, right) {
        Pairing::Pointers
    } else {
        Pairing::Nothing
    }
}

fn ordered(known: Known, left: ValueTy<'_>, right: ValueTy<'_>) -> bool
    requires { IsKnown known }
    ensures { result ≡ ordered (types_in known.entry) (view_value_type left.entry) (view_value_type right.entry) }
{
    if !is_object_pointer(left) {
        return false;
    }
    point_alike(known.types, left, right) && as_complete(known, left, right)
}

fn equality_pair(
    types: &Types,
    left: ValueTy<'_>,
    left_is_null: bool,
    right: ValueTy<'_>,
    right_is_null: bool,
) -> Pairing
    ensures { result
        ≡ equality_pair (view_types types.now) (view_value_type left.entry) left_is_null (view_value_type right.entry) right_is_null }
{
    if both_integers(types, left, right) {
        Pairing::Arithmetic
    } else if left.is_pointer() && right_is_null {
        Pairing::RightConverted
    } else if right.is_pointer() && left_is_null {
        Pairing::LeftConverted
    } else {
        pointers_pair(types, left, right)
    }
}

fn pointers_pair(types: &Types, left: ValueTy<'_>, right: ValueTy<'_>) -> Pairing
    ensures { result ≡ pointers_pair (view_types types.now) (view_value_type left.entry) (view_value_type right.entry) }
{
    if point_alike(types, left, right) {
        Pairing::Pointers
    } else if void_beside(left, right) {
        Pairing::RightConverted
    } else if void_beside(right, left) {
        Pairing::LeftConverted
    } else {
        Pairing::Nothing
    }
}

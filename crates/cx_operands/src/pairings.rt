//! In which way a binary operator takes two values (ISO C99, 6.5.5 to 6.5.14).

ghost use Rattle.std.specs.Prelude.{◌≡◌, ◌&&◌, if◌then◌else◌, Some};
ghost use Rattle.cx_core.specs.Views.{view_expr, view_type, view_types};
ghost use Rattle.cx_kinds.specs.Known.{IsKnown, types_in};
ghost use Rattle.std.specs.Bool.{beq};
ghost use Rattle.cx_rules.specs.Types.{is_element_pointer, is_integer, has_size, target_of, both_targets};
ghost use Rattle.cx_rules.specs.Pairs.{pairing, both_integers, numbers_pair, shift_pair, sum_pair, difference_pair, differ, order_pair, ordered, as_complete, equality_pair, pointers_pair, void_beside};

use crate::nulls::is_null_constant;
use cx_core::{CoreExpr, Op2, Ty};
use cx_kinds::{
    Known, has_size, is_element_pointer, is_integer, is_object_pointer, is_pointer,
    is_void_pointer, point_alike, target_of,
};
use cx_rules::Pairing;

/// In which way a binary operator takes two values, or that it doesn't take them (ISO C99, 6.5.5 to 6.5.12).
#[tactic(auto, using(crate::proofs::Values::type_of_view), unfolding(cx_rules::specs::Pairs::pairing))]
pub fn pairing(known: Known, op: Op2, left: &CoreExpr, right: &CoreExpr) -> Pairing
    requires { IsKnown known }
    ensures { result ≡ pairing (types_in known.entry) op (view_expr left.now) (view_expr right.now) }
{
    match op {
        Op2::Multiply | Op2::Divide | Op2::Remainder | Op2::BitAnd | Op2::BitXor | Op2::BitOr => {
            numbers_pair(known, &left.ty, &right.ty)
        }
        Op2::ShiftLeft | Op2::ShiftRight => shift_pair(known, &left.ty, &right.ty),
        Op2::Add => sum_pair(known, &left.ty, &right.ty),
        Op2::Subtract => difference_pair(known, &left.ty, &right.ty),
        Op2::Less | Op2::Greater | Op2::LessOrEqual | Op2::GreaterOrEqual => order_pair(
            known, &left.ty, &right.ty,
        ),
        Op2::Equal | Op2::NotEqual => {
            let left_is_null = is_null_constant(known.types, left);
            let right_is_null = is_null_constant(known.types, right);
            equality_pair(known, &left.ty, left_is_null, &right.ty, right_is_null)
        }
    }
}

// Whether both types are integer types.
pub(crate) fn both_integers(known: Known, left: &Ty, right: &Ty) -> bool
    requires { IsKnown known }
    ensures { result ≡ both_integers (types_in known.entry) (view_type left.now) (view_type right.now) }
{
    is_integer(known, left) && is_integer(known, right)
}

fn numbers_pair(known: Known, left: &Ty, right: &Ty) -> Pairing
    requires { IsKnown known }
    ensures { result ≡ numbers_pair (types_in known.entry) (view_type left.now) (view_type right.now) }
{
    if both_integers(known, left, right) {
        Pairing::Arithmetic
    } else {
        Pairing::Nothing
    }
}

fn shift_pair(known: Known, left: &Ty, right: &Ty) -> Pairing
    requires { IsKnown known }
    ensures { result ≡ shift_pair (types_in known.entry) (view_type left.now) (view_type right.now) }
{
    if both_integers(known, left, right) {
        Pairing::Shift
    } else {
        Pairing::Nothing
    }
}

fn sum_pair(known: Known, left: &Ty, right: &Ty) -> Pairing
    requires { IsKnown known }
    ensures { result ≡ sum_pair (types_in known.entry) (view_type left.now) (view_type right.now) }
{
    if both_integers(known, left, right) {
        Pairing::Arithmetic
    } else if moves(known, left, right) {
        Pairing::PointerInteger
    } else if moves(known, right, left) {
        Pairing::IntegerPointer
    } else {
        Pairing::Nothing
    }
}

// Whether an integer moves a pointer to elements of an array.
fn moves(known: Known, pointer: &Ty, number: &Ty) -> bool
    requires { IsKnown known }
    ensures moved { result ≡ (is_element_pointer (types_in known.entry) (view_type pointer.now) && is_integer (types_in known.entry) (view_type number.now)) }
    ensures swapped { result ≡ (is_integer (types_in known.entry) (view_type number.now) && is_element_pointer (types_in known.entry) (view_type pointer.now)) }
{
    is_element_pointer(known, pointer) && is_integer(known, number)
}

fn difference_pair(known: Known, left: &Ty, right: &Ty) -> Pairing
    requires { IsKnown known }
    ensures { result ≡ difference_pair (types_in known.entry) (view_type left.now) (view_type right.now) }
{
    if both_integers(known, left, right) {
        Pairing::Arithmetic
    } else if moves(known, left, right) {
        Pairing::PointerInteger
    } else if differ(known, left, right) {
        Pairing::Pointers
    } else {
        Pairing::Nothing
    }
}

fn differ(known: Known, left: &Ty, right: &Ty) -> bool
    requires { IsKnown known }
    ensures { result ≡ differ (types_in known.entry) (view_type left.now) (view_type right.now) }
{
    if !is_element_pointer(known, left) {
        return false;
    }
    is_element_pointer(known, right) && point_alike(known.types, left, right)
}

fn order_pair(known: Known, left: &Ty, right: &Ty) -> Pairing
    requires { IsKnown known }
    ensures { result ≡ order_pair (types_in known.entry) (view_type left.now) (view_type right.now) }
{
    if both_integers(known, left, right) {
        Pairing::Arithmetic
    } else if ordered(known, left, right) {
        Pairing::Pointers
    } else {
        Pairing::Nothing
    }
}

// Whether both point to compatible object types, or both to compatible incomplete types.
fn ordered(known: Known, left: &Ty, right: &Ty) -> bool
    requires { IsKnown known }
    ensures { result ≡ ordered (types_in known.entry) (view_type left.now) (view_type right.now) }
{
    if !is_object_pointer(left) {
        return false;
    }
    point_alike(known.types, left, right) && as_complete(known, left, right)
}

fn as_complete(known: Known, left: &Ty, right: &Ty) -> bool
    requires { IsKnown known }
    ensures { result ≡ as_complete (types_in known.entry) (view_type left.now) (view_type right.now) }
{
    match target_of(left) {
        None => false,
        Some(one) => is_as_complete(known, one, right),
    }
}

fn is_as_complete(known: Known, one: &Ty, right: &Ty) -> bool
    requires { IsKnown known }
    ensures { result ≡ both_targets (λ first second. beq (has_size (types_in known.entry) first) (has_size (types_in known.entry) second)) (Some (view_type one.now)) (target_of (view_type right.now)) }
{
    match target_of(right) {
        None => false,
        Some(other) => has_size(known, one) == has_size(known, other),
    }
}

fn equality_pair(
    known: Known,
    left: &Ty,
    left_is_null: bool,
    right: &Ty,
    right_is_null: bool,
) -> Pairing
    requires { IsKnown known }
    ensures { result
        ≡ equality_pair (types_in known.entry) (view_type left.now) left_is_null (view_type right.now) right_is_null }
{
    if both_integers(known, left, right) {
        Pairing::Arithmetic
    } else if is_pointer(left) && right_is_null {
        Pairing::RightConverted
    } else if is_pointer(right) && left_is_null {
        Pairing::LeftConverted
    } else {
        pointers_pair(known, left, right)
    }
}

fn pointers_pair(known: Known, left: &Ty, right: &Ty) -> Pairing
    requires { IsKnown known }
    ensures { result ≡ pointers_pair (types_in known.entry) (view_type left.now) (view_type right.now) }
{
    if point_alike(known.types, left, right) {
        Pairing::Pointers
    } else if void_beside(left, right) {
        Pairing::RightConverted
    } else if void_beside(right, left) {
        Pairing::LeftConverted
    } else {
        Pairing::Nothing
    }
}

/// Whether one type points to `void`, and the other to an object type or an incomplete type (ISO C99, 6.5.9p2).
pub fn void_beside(one: &Ty, other: &Ty) -> bool
    ensures { result ≡ void_beside (view_type one.now) (view_type other.now) }
{
    is_void_pointer(one) && is_object_pointer(other)
}

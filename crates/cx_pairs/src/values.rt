//! What the types of values are.

ghost use Rattle.std.specs.Prelude.{◌≡◌, Some};
ghost use Rattle.std.specs.Bool.{beq};
ghost use Rattle.cx_core.specs.Views.{view_type, view_types};
ghost use Rattle.cx_kinds.specs.Known.{IsKnown, types_in};
ghost use Rattle.cx_operands.specs.Views.{view_value_type};
ghost use Rattle.cx_rules.specs.Pairs.{as_complete, void_beside};
ghost use Rattle.cx_rules.specs.Types.{alike, both_targets, has_size, is_element_pointer, is_function_pointer, is_object_pointer, is_scalar, is_void_pointer, point_alike, target_of};

use cx_core::{Ty, Types};
use cx_kinds::{Known, alike, has_size, is_complete, is_function, is_void};
use cx_operands::ValueTy;

/// Whether it is a scalar type (ISO C99, 6.2.5p21).
pub fn is_scalar(known: Known, v: ValueTy<'_>) -> bool
    ensures { result ≡ is_scalar (types_in known.entry) (view_value_type v.entry) }
{
    match v {
        ValueTy::Plain(t) | ValueTy::Unqualified(t) => cx_kinds::is_scalar(known, t),
        ValueTy::PointerTo(_) => true,
        ValueTy::Void => false,
    }
}

/// Whether it is a pointer to a complete object type (ISO C99, 6.5.6p2).
pub fn is_element_pointer(known: Known, v: ValueTy<'_>) -> bool
    requires { IsKnown known }
    ensures { result ≡ is_element_pointer (types_in known.entry) (view_value_type v.entry) }
{
    match v.target() {
        None => false,
        Some(to) => is_complete(known, to),
    }
}

/// Whether it is a pointer to a function (ISO C99, 6.2.5p20).
pub fn is_function_pointer(v: ValueTy<'_>) -> bool
    ensures { result ≡ is_function_pointer (view_value_type v.entry) }
{
    match v.target() {
        None => false,
        Some(to) => is_function(to),
    }
}

/// Whether it is a pointer to an object type or an incomplete type (ISO C99, 6.2.5p20).
pub fn is_object_pointer(v: ValueTy<'_>) -> bool
    ensures { result ≡ is_object_pointer (view_value_type v.entry) }
{
    match v.target() {
        None => false,
        Some(to) => !is_function(to),
    }
}

fn is_void_pointer(v: ValueTy<'_>) -> bool
    ensures { result ≡ is_void_pointer (view_value_type v.entry) }
{
    match v.target() {
        None => false,
        Some(to) => is_void(to),
    }
}

// Whether one type points to `void`, and the other to an object type or an incomplete type (6.5.9p2).
pub(crate) fn void_beside(one: ValueTy<'_>, other: ValueTy<'_>) -> bool
    ensures { result ≡ void_beside (view_value_type one.entry) (view_value_type other.entry) }
{
    is_void_pointer(one) && is_object_pointer(other)
}

// Whether two types are pointers to qualified or unqualified versions of compatible types (6.5.6p3).
pub(crate) fn point_alike(types: &Types, first: ValueTy<'_>, second: ValueTy<'_>) -> bool
    ensures { result ≡ point_alike (view_types types.now) (view_value_type first.entry) (view_value_type second.entry) }
{
    match first.target() {
        None => false,
        Some(one) => is_like(types, one, second),
    }
}

fn is_like(types: &Types, one: &Ty, second: ValueTy<'_>) -> bool
    ensures { result ≡ both_targets (alike (view_types types.now)) (Some (view_type one.now)) (target_of (view_value_type second.entry)) }
{
    match second.target() {
        None => false,
        Some(other) => alike(types, one, other),
    }
}

// Whether what two pointers point to has a size in both cases, or in neither (6.5.8p2).
pub(crate) fn as_complete(known: Known, left: ValueTy<'_>, right: ValueTy<'_>) -> bool
    requires { IsKnown known }
    ensures { result ≡ as_complete (types_in known.entry) (view_value_type left.entry) (view_value_type right.entry) }
{
    match left.target() {
        None => false,
        Some(one) => is_as_complete(known, one, right),
    }
}

fn is_as_complete(known: Known, one: &Ty, right: ValueTy<'_>) -> bool
    requires { IsKnown known }
    ensures { result ≡ both_targets (λ first second. beq (has_size (types_in known.entry) first) (has_size (types_in known.entry) second)) (Some (view_type one.now)) (target_of (view_value_type right.entry)) }
{
    match right.target() {
        None => false,
        Some(other) => has_size(known, one) == has_size(known, other),
    }
}

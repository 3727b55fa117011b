//! Kinds of types, and their sizes.

ghost use Rattle.std.specs.Prelude.{◌≡◌};
ghost use Rattle.cx_core.specs.Views.{view_type};
ghost use Rattle.cx_kinds.specs.Known.{IsKnown, types_in};
ghost use Rattle.cx_rules.specs.Types.{is_integer, is_scalar, is_pointer, has_size, is_complete, size_of, is_incomplete, is_element_pointer, is_function_pointer, is_object_pointer, is_void_pointer};

use crate::forms::{is_function, is_void, target_of};
use crate::known::Known;
use cx_core::{Ty, basic_of, scalar_of};

/// Whether it is an integer type (ISO C99, 6.2.5p17).
pub fn is_integer(known: Known, t: &Ty) -> bool
    ensures { result ≡ is_integer (types_in known.entry) (view_type t.now) }
{
    basic_of(t, known.types).is_some()
}

/// Whether it is a scalar type (ISO C99, 6.2.5p21).
pub fn is_scalar(known: Known, t: &Ty) -> bool
    ensures { result ≡ is_scalar (types_in known.entry) (view_type t.now) }
{
    scalar_of(t, known.types).is_some()
}

/// Whether it is a pointer type (ISO C99, 6.2.5p20).
pub fn is_pointer(t: &Ty) -> bool
    ensures { result ≡ is_pointer (view_type t.now) }
{
    target_of(t).is_some()
}

/// Whether objects of the type have a size, however large that is (ISO C99, 6.2.5p1).
#[tactic(auto, using(crate::proofs::Extents::same_extent))]
pub fn has_size(known: Known, t: &Ty) -> bool
    requires { IsKnown known }
    ensures { result ≡ has_size (types_in known.entry) (view_type t.now) }
{
    known.layouts.is_complete(t)
}

/// The size of a type in bytes, or None where it is incomplete, a function, or too large (ISO C99, 6.5.3.4p2).
#[tactic(auto, using(crate::proofs::Extents::same_complete))]
pub fn size_of(known: Known, t: &Ty) -> Option<u64>
    requires { IsKnown known }
    ensures { result ≡ size_of (types_in known.entry) (view_type t.now) }
{
    known.layouts.size(t)
}

/// Whether it is an object type whose objects aren't too large (ISO C99, 6.2.5p1).
#[tactic(auto, using(crate::proofs::Extents::same_complete))]
pub fn is_complete(known: Known, t: &Ty) -> bool
    requires { IsKnown known }
    ensures { result ≡ is_complete (types_in known.entry) (view_type t.now) }
{
    known.layouts.size(t).is_some()
}

/// Whether it is an incomplete type, `void` among them (ISO C99, 6.2.5p1).
pub fn is_incomplete(known: Known, t: &Ty) -> bool
    requires { IsKnown known }
    ensures { result ≡ is_incomplete (types_in known.entry) (view_type t.now) }
{
    !is_function(t) && !has_size(known, t)
}

/// Whether it is a pointer to a complete object type (ISO C99, 6.5.6p2).
pub fn is_element_pointer(known: Known, t: &Ty) -> bool
    requires { IsKnown known }
    ensures { result ≡ is_element_pointer (types_in known.entry) (view_type t.now) }
{
    match target_of(t) {
        None => false,
        Some(to) => is_complete(known, to),
    }
}

/// Whether it is a pointer to a function (ISO C99, 6.2.5p20).
pub fn is_function_pointer(t: &Ty) -> bool
    ensures { result ≡ is_function_pointer (view_type t.now) }
{
    match target_of(t) {
        None => false,
        Some(to) => is_function(to),
    }
}

/// Whether it is a pointer to an object type or an incomplete type (ISO C99, 6.2.5p20).
pub fn is_object_pointer(t: &Ty) -> bool
    ensures { result ≡ is_object_pointer (view_type t.now) }
{
    match target_of(t) {
        None => false,
        Some(to) => !is_function(to),
    }
}

/// Whether it is a pointer to `void` (ISO C99, 6.3.2.3p1).
pub fn is_void_pointer(t: &Ty) -> bool
    ensures { result ≡ is_void_pointer (view_type t.now) }
{
    match target_of(t) {
        None => false,
        Some(to) => is_void(to),
    }
}

//! Types that are too large, a choice of the profile: objects have at most 16,777,216 bytes.

ghost use Rattle.std.specs.Prelude.{◌≡◌};
ghost use Rattle.cx_core.specs.Layouts.{whole_extent, layouts_of};
ghost use Rattle.cx_core.specs.Trees.{form_of_type};
ghost use Rattle.cx_core.specs.Views.{view_type};
ghost use Rattle.cx_kinds.specs.Known.{IsKnown, types_in};
ghost use Rattle.cx_rules.specs.Types.{exceeds, too_large, derived_too_large, is_too_large};

use crate::kinds::{has_size, is_complete};
use crate::known::Known;
use cx_core::{Ty, TyForm};

/// Whether a type has more bytes than an object of the profile may have, or one from which it is derived has
/// (ISO C99, 6.2.5p20).
#[cycle(large)]
pub fn is_too_large(known: Known, t: &Ty) -> bool
    requires { IsKnown known }
    ensures { result ≡ is_too_large (types_in known.entry) (view_type t.now) }
{
    exceeds(known, t) || derived_too_large(known, t)
}

#[cycle(large)]
fn derived_too_large(known: Known, t: &Ty) -> bool
    requires { IsKnown known }
    ensures { result ≡ derived_too_large (layouts_of (types_in known.entry)) (form_of_type (view_type t.now)) }
{
    match &t.form {
        TyForm::Pointer(to) => is_too_large(known, to.get()),
        TyForm::Array(element, _) => is_too_large(known, element.get()),
        TyForm::Function(function) => is_too_large(known, &function.get().result_ty),
        _ => false,
    }
}

// Whether the type by itself has too many bytes.
#[tactic(auto, using(crate::proofs::Qualifying::exceeds_by))]
fn exceeds(known: Known, t: &Ty) -> bool
    requires { IsKnown known }
    ensures { result ≡ exceeds (whole_extent (layouts_of (types_in known.entry)) (view_type t.now)) }
{
    has_size(known, t) && !is_complete(known, t)
}

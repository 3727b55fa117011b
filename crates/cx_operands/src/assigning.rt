//! Which values may be assigned to an object of a type (ISO C99, 6.5.16.1p1).

ghost use Rattle.std.specs.Prelude.{◌≡◌, ◌&&◌, ◌||◌, is_some, option_map};
ghost use Rattle.cx_core.specs.Compatible.{in_pairs, forms_agree};
ghost use Rattle.cx_core.specs.Trees.{form_of_type};
ghost use Rattle.cx_core.specs.Views.{view_expr, view_type, view_types};
ghost use Rattle.cx_kinds.specs.Known.{IsKnown, types_in};
ghost use Rattle.cx_rules.specs.Pairs.{both_integers, is_assignable, types_match, records_match, pointers_match, void_beside, is_truth_form};
ghost use Rattle.cx_rules.specs.Types.{is_integer, is_pointer, point_alike, keeps_qualifiers, compatible};

use crate::nulls::is_null_constant;
use crate::pairings::{both_integers, void_beside};
use cx_core::{Basic, CoreExpr, Ty, TyForm};
use cx_kinds::{Known, alike, is_integer, is_pointer, keeps_qualifiers, point_alike, record_of};

/// Whether a value may be assigned to an object of a type (ISO C99, 6.5.16.1p1).
#[tactic(auto, using(crate::proofs::Values::type_of_view), unfolding(cx_rules::specs::Pairs::is_assignable))]
pub fn is_assignable(known: Known, target: &Ty, value: &CoreExpr) -> bool
    requires { IsKnown known }
    ensures { result ≡ is_assignable (types_in known.entry) (view_type target.now) (view_expr value.now) }
{
    types_match(
        known,
        target,
        &value.ty,
        is_null_constant(known.types, value),
    )
}

fn types_match(known: Known, target: &Ty, value: &Ty, is_null: bool) -> bool
    requires { IsKnown known }
    ensures { result ≡ types_match (types_in known.entry) (view_type target.now) (view_type value.now) is_null }
{
    if both_integers(known, target, value) {
        return true;
    }
    if records_match(known, target, value) {
        return true;
    }
    pointers_match(known, target, value)
        || becomes_pointer(target, is_null)
        || becomes_truth(target, value)
}

fn records_match(known: Known, target: &Ty, value: &Ty) -> bool
    requires { IsKnown known }
    ensures { result ≡ records_match (types_in known.entry) (view_type target.now) (view_type value.now) }
{
    record_of(target).is_some() && alike(known.types, target, value)
}

// Pointers to compatible types, or one of them to `void`, where no qualifier is lost.
fn pointers_match(known: Known, target: &Ty, value: &Ty) -> bool
    requires { IsKnown known }
    ensures { result ≡ pointers_match (types_in known.entry) (view_type target.now) (view_type value.now) }
{
    if !keeps_qualifiers(target, value) {
        return false;
    }
    point_alike(known.types, target, value)
        || void_beside(target, value)
        || void_beside(value, target)
}

fn becomes_pointer(target: &Ty, is_null: bool) -> bool
    ensures { result ≡ (is_pointer (view_type target.now) && is_null) }
{
    is_pointer(target) && is_null
}

fn becomes_truth(target: &Ty, value: &Ty) -> bool
    ensures { result ≡ (is_truth_form (form_of_type (view_type target.now)) && is_pointer (view_type value.now)) }
{
    is_truth(target) && is_pointer(value)
}

fn is_truth(t: &Ty) -> bool
    ensures { result ≡ is_truth_form (form_of_type (view_type t.now)) }
{
    matches!(t.form, TyForm::Basic(Basic::Truth))
}

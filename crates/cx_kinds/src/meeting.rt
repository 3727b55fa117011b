//! Compatible types of one unit, where two records are compatible only if they are the same (ISO C99, 6.2.7p1).

ghost use Rattle.std.specs.Prelude.{◌≡◌, ◌||◌, [], map, false, Some};
ghost use Rattle.cx_core.specs.Compatible.{agree, forms_agree, params_agree, lists_agree, in_pairs};
ghost use Rattle.cx_core.specs.Trees.{CTy, form_of_type, is_const_type};
ghost use Rattle.cx_core.specs.Views.{view_type, view_types, view_params, view_function_type, types_of};
ghost use Rattle.cx_rules.specs.Types.{compatible, alike, point_alike, target_of, both_targets, keeps_qualifiers, keeps_const};

use crate::forms::target_of;
use cx_core::{
    FunctionTy, Params, Ty, TyForm, Types, are_kept_by_promotions, enums_agree, lengths_agree,
    meet_in_basic,
};

/// Whether two types of one unit are compatible (ISO C99, 6.2.7).
#[cycle(agree)]
pub fn compatible(types: &Types, first: &Ty, second: &Ty) -> bool
    ensures { result ≡ compatible (view_types types.now) (view_type first.now) (view_type second.now) }
{
    first.is_const == second.is_const && alike(types, first, second)
}

/// Whether the unqualified versions of two types of one unit are compatible (ISO C99, 6.2.7).
#[cycle(agree)]
pub fn alike(types: &Types, first: &Ty, second: &Ty) -> bool
    ensures { result ≡ forms_agree (view_types types.now) (in_pairs []) (form_of_type (view_type first.now)) (form_of_type (view_type second.now)) }
{
    match (&first.form, &second.form) {
        (TyForm::Void, TyForm::Void) => true,
        (TyForm::Enum(one), TyForm::Enum(other)) => enums_agree(types, *one, *other),
        (TyForm::Pointer(one), TyForm::Pointer(other)) => compatible(types, one.get(), other.get()),
        (TyForm::Array(one, length), TyForm::Array(other, other_length)) => {
            lengths_agree(*length, *other_length) && compatible(types, one.get(), other.get())
        }
        (TyForm::Record(one), TyForm::Record(other)) => *one == *other,
        (TyForm::Function(one), TyForm::Function(other)) => functions_agree(
            types,
            one.get(),
            other.get(),
        ),
        // Two integer types of which one is basic at least, or types of two kinds.
        _ => meet_in_basic(types, first, second),
    }
}

#[cycle(agree)]
fn functions_agree(types: &Types, first: &FunctionTy, second: &FunctionTy) -> bool
    ensures { result ≡ forms_agree (view_types types.now) (in_pairs []) (view_function_type first.now) (view_function_type second.now) }
{
    compatible(types, &first.result_ty, &second.result_ty)
        && params_agree(
            types,
            &first.params,
            first.is_variadic,
            &second.params,
            second.is_variadic,
        )
}

#[cycle(agree)]
fn params_agree(
    types: &Types,
    first: &Params,
    first_more: bool,
    second: &Params,
    second_more: bool,
) -> bool
    ensures { result ≡ params_agree (view_types types.now) (in_pairs []) (view_params first.now) first_more (view_params second.now) second_more }
{
    match (first, second) {
        (Params::Unlisted, Params::Unlisted) => true,
        (Params::Unlisted, Params::Listed(params)) => !second_more
            && are_kept_by_promotions(params.as_slice()),
        (Params::Listed(params), Params::Unlisted) => !first_more
            && are_kept_by_promotions(params.as_slice()),
        (Params::Listed(one), Params::Listed(other)) => {
            first_more == second_more && lists_agree(types, one.as_slice(), other.as_slice())
        }
    }
}

#[cycle(agree)]
fn lists_agree(types: &Types, first: &[Ty], second: &[Ty]) -> bool
    ensures { result ≡ lists_agree (view_types types.now) (in_pairs []) (types_of (map view_type first.now)) (types_of (map view_type second.now)) }
{
    for index in 0..first.len() {
        let one = &first[index];
        let Some(other) = second.get(index) else {
            return false;
        };
        if !alike(types, one, other) {
            return false;
        }
    }
    first.len() == second.len()
}

/// Whether two types are pointers to qualified or unqualified versions of compatible types (ISO C99, 6.5.6p3).
pub fn point_alike(types: &Types, first: &Ty, second: &Ty) -> bool
    ensures { result ≡ point_alike (view_types types.now) (view_type first.now) (view_type second.now) }
{
    match target_of(first) {
        None => false,
        Some(one) => is_like(types, one, second),
    }
}

fn is_like(types: &Types, one: &Ty, second: &Ty) -> bool
    ensures { result ≡ both_targets (alike (view_types types.now)) (Some (view_type one.now)) (target_of (view_type second.now)) }
{
    match target_of(second) {
        None => false,
        Some(other) => alike(types, one, other),
    }
}

/// Whether what the first pointer points to has all qualifiers of what the second points to (ISO C99, 6.5.16.1p1).
pub fn keeps_qualifiers(first: &Ty, second: &Ty) -> bool
    ensures { result ≡ keeps_qualifiers (view_type first.now) (view_type second.now) }
{
    match target_of(first) {
        None => false,
        Some(one) => keeps_const(one.is_const, second),
    }
}

fn keeps_const(is_const: bool, second: &Ty) -> bool
    ensures { (one : CTy) → is_const_type one ≡ is_const → result ≡ both_targets keeps_const (Some one) (target_of (view_type second.now)) }
{
    match target_of(second) {
        None => false,
        Some(other) => is_const || !other.is_const,
    }
}

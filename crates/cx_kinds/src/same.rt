//! Types that are the same.

ghost use Rattle.std.specs.Prelude.{◌≡◌, map};
ghost use Rattle.cx_core.specs.Views.{view_type, view_params, view_function_type, types_of};
ghost use Rattle.cx_rules.specs.Types.{same_type, same_form, same_params, same_types, same_length};
ghost use Rattle.cx_core.specs.Trees.{form_of_type};

use cx_core::{FunctionTy, Params, Ty, TyForm, same_basic};

/// Whether two types are the same, with their qualifiers.
#[cycle(same)]
pub fn same_type(first: &Ty, second: &Ty) -> bool
    ensures { result ≡ same_type (view_type first.now) (view_type second.now) }
{
    first.is_const == second.is_const && same_form(first, second)
}

#[cycle(same)]
fn same_form(first: &Ty, second: &Ty) -> bool
    ensures { result ≡ same_form (form_of_type (view_type first.now)) (form_of_type (view_type second.now)) }
{
    match (&first.form, &second.form) {
        (TyForm::Void, TyForm::Void) => true,
        (TyForm::Basic(one), TyForm::Basic(other)) => same_basic(*one, *other),
        (TyForm::Enum(one), TyForm::Enum(other)) => *one == *other,
        (TyForm::Pointer(one), TyForm::Pointer(other)) => same_type(one.get(), other.get()),
        (TyForm::Array(one, length), TyForm::Array(other, other_length)) => {
            same_length(*length, *other_length) && same_type(one.get(), other.get())
        }
        (TyForm::Record(one), TyForm::Record(other)) => *one == *other,
        (TyForm::Function(one), TyForm::Function(other)) => same_function(one.get(), other.get()),
        _ => false,
    }
}

#[cycle(same)]
fn same_function(first: &FunctionTy, second: &FunctionTy) -> bool
    ensures { result ≡ same_form (view_function_type first.now) (view_function_type second.now) }
{
    first.is_variadic == second.is_variadic
        && same_type(&first.result_ty, &second.result_ty)
        && same_params(&first.params, &second.params)
}

#[cycle(same)]
fn same_params(first: &Params, second: &Params) -> bool
    ensures { result ≡ same_params (view_params first.now) (view_params second.now) }
{
    match (first, second) {
        (Params::Unlisted, Params::Unlisted) => true,
        (Params::Listed(one), Params::Listed(other)) => same_types(
            one.as_slice(),
            other.as_slice(),
        ),
        _ => false,
    }
}

#[cycle(same)]
fn same_types(first: &[Ty], second: &[Ty]) -> bool
    ensures { result ≡ same_types (types_of (map view_type first.now)) (types_of (map view_type second.now)) }
{
    for index in 0..first.len() {
        let one = &first[index];
        let Some(other) = second.get(index) else {
            return false;
        };
        if !same_type(one, other) {
            return false;
        }
    }
    first.len() == second.len()
}

fn same_length(first: Option<u64>, second: Option<u64>) -> bool
    ensures { result ≡ same_length first second }
{
    match (first, second) {
        (None, None) => true,
        (Some(one), Some(other)) => one == other,
        _ => false,
    }
}

//! Opaque functions: what they do isn't known.

ghost use Rattle.std.specs.Prelude.{◌≡◌, true, map};
ghost use Rattle.std.specs.List.{list_all};
ghost use Rattle.cx_core.specs.Externals.{params_in};
ghost use Rattle.cx_core.specs.declared.ty.Basic.TheVariants.{Char};
ghost use Rattle.cx_core.specs.Trees.{form_of_type, unqualified, ty, basic};
ghost use Rattle.cx_core.specs.Views.{view_type, view_types, view_params, view_function_type};
ghost use Rattle.cx_externals.specs.Opaque.{is_opaque_result, is_opaque_param};
ghost use Rattle.cx_externals.specs.Functions.{is_opaque, is_opaque_trailing};
ghost use Rattle.cx_rules.specs.Types.{is_integer, is_character_form, same_type};

use crate::basics::is_basic;
use cx_core::{Basic, FunctionTy, Params, Ty, TyForm, Types, basic_of};

fn is_integer(types: &Types, t: &Ty) -> bool
    ensures { result ≡ is_integer (view_types types.now) (view_type t.now) }
{
    basic_of(t, types).is_some()
}

// Whether a pointer to the type is `const char *`.
fn is_const_char(t: &Ty) -> bool
    ensures { result ≡ same_type (view_type t.now) (ty (basic Char) true) }
{
    t.is_const && is_basic(t, Basic::Char)
}

// Whether a character type, `const` or not (ISO C99, 6.2.5p15).
fn is_character(t: &Ty) -> bool
    ensures { result ≡ is_character_form (form_of_type (view_type t.now)) }
{
    matches!(
        t.form,
        TyForm::Basic(Basic::Char | Basic::SignedChar | Basic::UnsignedChar)
    )
}

fn is_opaque_result(types: &Types, t: &Ty) -> bool
    ensures { result ≡ is_opaque_result (view_types types.now) (view_type t.now) }
{
    matches!(t.form, TyForm::Void) || is_integer(types, t)
}

fn is_opaque_param(types: &Types, t: &Ty) -> bool
    ensures { result ≡ is_opaque_param (view_types types.now) (view_type t.now) }
{
    match &t.form {
        TyForm::Pointer(to) => is_const_char(to.get()),
        _ => is_integer(types, t),
    }
}

fn are_opaque_params(types: &Types, params: &[Ty]) -> bool
    ensures { result ≡ list_all (is_opaque_param (view_types types.now)) (map unqualified (map view_type params.now)) }
{
    for param in params {
        if !is_opaque_param(types, param) {
            return false;
        }
    }
    true
}

fn takes_opaque(types: &Types, params: &Params) -> bool
    ensures { result ≡ list_all (is_opaque_param (view_types types.now)) (params_in (view_params params.now)) }
{
    match params {
        Params::Unlisted => true,
        Params::Listed(listed) => are_opaque_params(types, listed.as_slice()),
    }
}

/// Whether an opaque function may have the type: its result is an integer or none, its parameters are integers and `const char *`.
pub(crate) fn is_opaque(types: &Types, function: &FunctionTy) -> bool
    ensures { result ≡ is_opaque (view_types types.now) (view_function_type function.now) }
{
    is_opaque_result(types, &function.result_ty) && takes_opaque(types, &function.params)
}

/// Whether an argument behind those that parameters take may be given to an opaque function: an integer, or a pointer to a
/// character type, with the type that it has after the default argument promotions (ISO C99, 6.5.2.2p6).
pub fn is_opaque_trailing(types: &Types, t: &Ty) -> bool
    ensures { result ≡ is_opaque_trailing (view_types types.now) (view_type t.now) }
{
    match &t.form {
        TyForm::Pointer(to) => is_character(to.get()),
        _ => is_integer(types, t),
    }
}

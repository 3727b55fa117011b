//! The type of `main`.

ghost use Rattle.std.specs.Prelude.{◌≡◌};
ghost use Rattle.cx_core.specs.Trees.{form_of_type};
ghost use Rattle.cx_core.specs.Views.{view_type, view_params};
ghost use Rattle.cx_externals.specs.Functions.{is_main_form, takes_nothing};

use crate::basics::is_basic;
use cx_core::{Basic, Params, Ty, TyForm};

fn takes_nothing(params: &Params) -> bool
    ensures { result ≡ takes_nothing (view_params params.now) }
{
    match params {
        Params::Unlisted => true,
        Params::Listed(types) => types.as_slice().is_empty(),
    }
}

/// Whether `main` may have the type: a function that returns `int` and takes nothing (ISO C99, 5.1.2.2.1p1). One with
/// parameters isn't of the profile.
pub fn is_main_type(t: &Ty) -> bool
    ensures { result ≡ is_main_form (form_of_type (view_type t.now)) }
{
    match &t.form {
        TyForm::Function(function) => {
            let function = function.get();
            is_basic(&function.result_ty, Basic::Int) && takes_nothing(&function.params)
        }
        _ => false,
    }
}

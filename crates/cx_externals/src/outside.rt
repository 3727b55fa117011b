//! The types of functions that no unit defines.

ghost use Rattle.std.specs.Prelude.{◌≡◌};
ghost use Rattle.cx_core.specs.Externals.{known_as};
ghost use Rattle.cx_core.specs.Trees.{form_of_type};
ghost use Rattle.cx_core.specs.Views.{view_type, view_types, view_function_type};
ghost use Rattle.cx_externals.specs.Functions.{is_external_type, has_type_of};

use crate::library::{has_signature, library_named};
use crate::opaque::is_opaque;
use cx_core::{FunctionTy, Ty, TyForm, Types};

fn has_type(types: &Types, name: &[u8], function: &FunctionTy) -> bool
    ensures { result ≡ has_type_of (view_types types.now) (view_function_type function.now) (known_as name.now) }
{
    match library_named(name) {
        Some(known) => has_signature(known, function),
        None => is_opaque(types, function),
    }
}

/// Whether a function that no unit defines may have the type under its name: that of the function of the library with the name,
/// where its meaning is known, and otherwise one of integers and `const char *` that gives an integer or nothing.
#[tactic(auto, unfolding(crate::specs::Functions::is_external_type))]
pub fn is_external_type(types: &Types, name: &[u8], t: &Ty) -> bool
    ensures { result ≡ is_external_type (view_types types.now) name.now (form_of_type (view_type t.now)) }
{
    match &t.form {
        TyForm::Function(function) => has_type(types, name, function.get()),
        _ => false,
    }
}

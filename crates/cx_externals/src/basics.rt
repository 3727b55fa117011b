//! Types that are one of the basic types.

ghost use Rattle.std.specs.Prelude.{◌≡◌};
ghost use Rattle.cx_core.specs.Trees.{form_of_type, basic};
ghost use Rattle.cx_core.specs.Views.{view_type};
ghost use Rattle.cx_rules.specs.Types.{same_form};

use cx_core::{Basic, Ty, TyForm, same_basic};

/// Whether the unqualified version of a type is a basic type (ISO C99, 6.2.5).
pub(crate) fn is_basic(t: &Ty, which: Basic) -> bool
    ensures { result ≡ same_form (form_of_type (view_type t.now)) (basic which) }
{
    match &t.form {
        TyForm::Basic(own) => same_basic(*own, which),
        _ => false,
    }
}

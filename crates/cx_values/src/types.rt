//! Copies of types with other qualifiers (ISO C99, 6.7.3).

ghost use Rattle.std.specs.Prelude.{◌≡◌, true, IfOk};
ghost use Rattle.cx_core.specs.Trees.{unqualified};
ghost use Rattle.cx_core.specs.Views.{view_type};
ghost use Rattle.cx_operands.specs.Views.{place_value_type};

use cr_base::{Boxed, Memory};
use cx_core::{Ty, TyForm};
use cx_forms::pointer_to;
use std::alloc::Global;

/// The unqualified version of a type (ISO C99, 6.2.5p25). Refused only for want of memory.
pub fn unqualified_copy(alloc: Global, t: &Ty) -> Result<Boxed<Ty>, Memory>
    ensures { IfOk result (λ made. view_type made ≡ unqualified (view_type t.now)) }
{
    let copied = t.copy(alloc)?;
    let form = copied.into_inner().form;
    Boxed::new(
        alloc,
        Ty {
            form,
            is_const: false,
        },
    )
}

// The type of the value of an lvalue of a type: of an array the type of the address of its first element.
pub(crate) fn place_value_type(alloc: Global, t: &Ty) -> Result<Boxed<Ty>, Memory>
    ensures { IfOk result (λ made. view_type made ≡ place_value_type (view_type t.now)) }
{
    match &t.form {
        TyForm::Array(element, _) => pointer_to(alloc, element.get()),
        _ => unqualified_copy(alloc, t),
    }
}

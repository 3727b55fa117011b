//! Types made of types that were made.

ghost use Rattle.std.specs.Prelude.{◌≡◌, IfOk};
ghost use Rattle.cx_core.specs.Trees.{CTy, ty, pointer, array, function, form_of_type};
ghost use Rattle.cx_core.specs.Views.{view_type, view_params};

use cr_base::{Boxed, Memory};
use cx_core::{FunctionTy, Params, Ty, TyForm};
use std::alloc::Global;

// A type with its qualifier replaced.
pub(crate) fn requalified(alloc: Global, t: &Ty, is_const: bool) -> Result<Boxed<Ty>, Memory>
    ensures { IfOk result (λ made. view_type made ≡ ty (form_of_type (view_type t.now)) is_const) }
{
    let copied = t.copy(alloc)?;
    let form = copied.into_inner().form;
    Boxed::new(alloc, Ty { form, is_const })
}

pub(crate) fn array_of(
    alloc: Global,
    element: Boxed<Ty>,
    length: Option<u64>,
    is_const: bool,
) -> Result<Boxed<Ty>, Memory>
    ensures { IfOk result (λ made. view_type made ≡ ty (array (view_type element) length) is_const) }
{
    Boxed::new(
        alloc,
        Ty {
            form: TyForm::Array(element, length),
            is_const,
        },
    )
}

pub(crate) fn function_of(
    alloc: Global,
    result_ty: Boxed<Ty>,
    params: Params,
    is_variadic: bool,
    is_const: bool,
) -> Result<Boxed<Ty>, Memory>
    ensures { IfOk result (λ made. view_type made ≡ ty (function (view_type result_ty) (view_params params) is_variadic) is_const) }
{
    let held = Boxed::new(
        alloc,
        FunctionTy {
            result_ty: result_ty.into_inner(),
            params,
            is_variadic,
        },
    )?;
    Boxed::new(
        alloc,
        Ty {
            form: TyForm::Function(held),
            is_const,
        },
    )
}

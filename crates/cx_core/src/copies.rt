ghost use Rattle.std.specs.Prelude.{◌≡◌, false, map, IfOk};
ghost use Rattle.cx_core.specs.Trees.{ty, pointer, array, function};
ghost use Rattle.cx_core.specs.Views.{view_type, view_params};

use crate::ty::{FunctionTy, Params, Ty, TyForm};
use cr_base::{Boxed, Items, Memory};
use std::alloc::Global;

impl Ty {
    /// The pointer type to a type (ISO C99, 6.7.5.1). Refused only for want of memory.
    pub fn pointer(alloc: Global, to: Boxed<Ty>, is_const: bool) -> Result<Boxed<Ty>, Memory>
        ensures { IfOk result (λ made. view_type made ≡ ty (pointer (view_type to)) is_const) }
    {
        boxed(alloc, TyForm::Pointer(to), is_const)
    }

    /// The array type of so many elements, or None where their number isn't known (ISO C99, 6.7.5.2).
    /// Refused only for want of memory.
    pub fn array(
        alloc: Global,
        element: Boxed<Ty>,
        length: Option<u64>,
    ) -> Result<Boxed<Ty>, Memory>
        ensures { IfOk result (λ made. view_type made ≡ ty (array (view_type element) length) false) }
    {
        boxed(alloc, TyForm::Array(element, length), false)
    }

    /// The function type with this result, these parameters, and further arguments or not (ISO C99,
    /// 6.7.5.3). Refused only for want of memory.
    pub fn function(
        alloc: Global,
        result_ty: Boxed<Ty>,
        params: Params,
        is_variadic: bool,
    ) -> Result<Boxed<Ty>, Memory>
        ensures { IfOk result (λ made. view_type made ≡
            ty (function (view_type result_ty) (view_params params) is_variadic) false) }
    {
        function_of(alloc, result_ty, params, is_variadic, false)
    }

    /// An equal type. Refused only for want of memory.
    #[cycle(copy)]
    pub fn copy(&self, alloc: Global) -> Result<Boxed<Ty>, Memory>
        ensures { IfOk result (λ made. view_type made ≡ view_type self.now) }
    {
        let is_const = self.is_const;
        match &self.form {
            TyForm::Void => boxed(alloc, TyForm::Void, is_const),
            TyForm::Basic(which) => boxed(alloc, TyForm::Basic(*which), is_const),
            TyForm::Enum(number) => boxed(alloc, TyForm::Enum(*number), is_const),
            TyForm::Record(number) => boxed(alloc, TyForm::Record(*number), is_const),
            TyForm::Pointer(to) => copied_pointer(alloc, to.get(), to.get().copy(alloc), is_const),
            TyForm::Array(element, length) => copied_array(
                alloc,
                element.get(),
                element.get().copy(alloc),
                *length,
                is_const,
            ),
            TyForm::Function(held) => {
                let function = held.get();
                let params = function.params.copy(alloc)?;
                copied_function(
                    alloc,
                    &function.result_ty,
                    function.result_ty.copy(alloc),
                    params,
                    function.is_variadic,
                    is_const,
                )
            }
        }
    }
}

fn function_of(
    alloc: Global,
    result_ty: Boxed<Ty>,
    params: Params,
    is_variadic: bool,
    is_const: bool,
) -> Result<Boxed<Ty>, Memory>
    ensures { IfOk result (λ made. view_type made ≡
        ty (function (view_type result_ty) (view_params params) is_variadic) is_const) }
{
    let function = Boxed::new(
        alloc,
        FunctionTy {
            result_ty: result_ty.into_inner(),
            params,
            is_variadic,
        },
    )?;
    boxed(alloc, TyForm::Function(function), is_const)
}

// The pointer type to a type that was copied.
fn copied_pointer(
    alloc: Global,
    _of: &Ty,
    copied: Result<Boxed<Ty>, Memory>,
    is_const: bool,
) -> Result<Boxed<Ty>, Memory>
    requires { IfOk copied (λ to. view_type to ≡ view_type _of.now) }
    ensures { IfOk result (λ made. view_type made ≡ ty (pointer (view_type _of.now)) is_const) }
{
    Ty::pointer(alloc, copied?, is_const)
}

// The array type with an element type that was copied.
fn copied_array(
    alloc: Global,
    _of: &Ty,
    copied: Result<Boxed<Ty>, Memory>,
    length: Option<u64>,
    is_const: bool,
) -> Result<Boxed<Ty>, Memory>
    requires { IfOk copied (λ element. view_type element ≡ view_type _of.now) }
    ensures { IfOk result (λ made. view_type made ≡ ty (array (view_type _of.now) length) is_const) }
{
    boxed(alloc, TyForm::Array(copied?, length), is_const)
}

// The function type with a result that was copied.
fn copied_function(
    alloc: Global,
    _of: &Ty,
    copied: Result<Boxed<Ty>, Memory>,
    params: Params,
    is_variadic: bool,
    is_const: bool,
) -> Result<Boxed<Ty>, Memory>
    requires { IfOk copied (λ result_ty. view_type result_ty ≡ view_type _of.now) }
    ensures { IfOk result (λ made. view_type made ≡
        ty (function (view_type _of.now) (view_params params) is_variadic) is_const) }
{
    function_of(alloc, copied?, params, is_variadic, is_const)
}

// A type of this form.
fn boxed(alloc: Global, form: TyForm, is_const: bool) -> Result<Boxed<Ty>, Memory>
    ensures { IfOk result (λ made. view_type made ≡ view_type (record { form = form; is_const = is_const })) }
{
    Boxed::new(alloc, Ty { form, is_const })
}

impl Params {
    /// Equal parameters. Refused only for want of memory.
    #[cycle(copy)]
    pub fn copy(&self, alloc: Global) -> Result<Params, Memory>
        ensures { IfOk result (λ made. view_params made ≡ view_params self.now) }
    {
        match self {
            Params::Unlisted => Ok(Params::Unlisted),
            Params::Listed(types) => Ok(Params::Listed(copy_types(alloc, types.as_slice())?)),
        }
    }
}

/// Equal types, in their order. Refused only for want of memory.
#[cycle(copy)]
pub fn copy_types(alloc: Global, types: &[Ty]) -> Result<Items<Ty>, Memory>
    ensures { IfOk result (λ made. map view_type made ≡ map view_type types.now) }
{
    let mut made = Items::new(alloc);
    for one in types {
        made.push(one.copy(alloc)?.into_inner())?;
    }
    Ok(made)
}

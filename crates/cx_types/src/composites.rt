//! Composite types (ISO C99, 6.2.7p3).

ghost use Rattle.std.specs.Prelude.{◌≡◌, map, IfOk};
ghost use Rattle.cx_core.specs.Trees.{CTy, ty, pointer, array};
ghost use Rattle.cx_core.specs.Views.{view_type, view_params, view_function_type, types_of};
ghost use Rattle.cx_rules.specs.Meanings.{unqualified_composite};
ghost use Rattle.cx_rules.specs.Types.{composite, composite_form, composite_params, composite_types, known_length};

use crate::parts::{array_of, function_of, requalified};
use cr_base::{Boxed, Items, Memory};
use cx_core::{FunctionTy, Params, Ty, TyForm};
use std::alloc::Global;

/// The composite type of two compatible types, with the qualifiers of the first (ISO C99, 6.2.7p3). Refused only for want of
/// memory.
#[cycle(composite)]
pub fn composite(alloc: Global, first: &Ty, second: &Ty) -> Result<Boxed<Ty>, Memory>
    ensures { IfOk result (λ made. view_type made ≡ composite (view_type first.now) (view_type second.now)) }
{
    match (&first.form, &second.form) {
        (TyForm::Basic(_), TyForm::Enum(_)) => requalified(alloc, second, first.is_const),
        (TyForm::Pointer(one), TyForm::Pointer(other)) => {
            let made = composite(alloc, one.get(), other.get())?;
            Ty::pointer(alloc, made, first.is_const)
        }
        (TyForm::Array(one, length), TyForm::Array(other, other_length)) => {
            let made = composite(alloc, one.get(), other.get())?;
            let known = known_length(*length, *other_length);
            array_of(alloc, made, known, first.is_const)
        }
        (TyForm::Function(one), TyForm::Function(other)) => {
            composite_function(alloc, one.get(), other.get(), first.is_const)
        }
        _ => first.copy(alloc),
    }
}

#[cycle(composite)]
fn composite_function(
    alloc: Global,
    first: &FunctionTy,
    second: &FunctionTy,
    is_const: bool,
) -> Result<Boxed<Ty>, Memory>
    ensures { IfOk result (λ made. view_type made ≡ ty (composite_form (view_function_type first.now) (view_function_type second.now)) is_const) }
{
    let result_ty = composite(alloc, &first.result_ty, &second.result_ty)?;
    let params = composite_params(alloc, &first.params, &second.params)?;
    let is_variadic = first.is_variadic || second.is_variadic;
    function_of(alloc, result_ty, params, is_variadic, is_const)
}

#[cycle(composite)]
fn composite_params(alloc: Global, first: &Params, second: &Params) -> Result<Params, Memory>
    ensures { IfOk result (λ made. view_params made ≡ composite_params (view_params first.now) (view_params second.now)) }
{
    match (first, second) {
        (Params::Unlisted, Params::Unlisted) => Ok(Params::Unlisted),
        (Params::Unlisted, Params::Listed(_)) => second.copy(alloc),
        (Params::Listed(_), Params::Unlisted) => first.copy(alloc),
        (Params::Listed(one), Params::Listed(other)) => {
            let made = composite_types(alloc, one.as_slice(), other.as_slice())?;
            Ok(Params::Listed(made))
        }
    }
}

#[cycle(composite)]
fn composite_types(alloc: Global, first: &[Ty], second: &[Ty]) -> Result<Items<Ty>, Memory>
    ensures { IfOk result (λ made. types_of (map view_type made) ≡ composite_types (types_of (map view_type first.now)) (types_of (map view_type second.now))) }
{
    let mut made = Items::new(alloc);
    for index in 0..first.len() {
        let one = &first[index];
        match second.get(index) {
            Some(other) => made.push(composite(alloc, one, other)?.into_inner())?,
            None => made.push(one.copy(alloc)?.into_inner())?,
        }
    }
    Ok(made)
}

fn known_length(first: Option<u64>, second: Option<u64>) -> Option<u64>
    ensures { result ≡ known_length first second }
{
    match first {
        None => second,
        Some(length) => Some(length),
    }
}

/// The composite type of the unqualified versions of two types (ISO C99, 6.5.15p6). Refused only for want of memory.
pub fn unqualified_composite(alloc: Global, first: &Ty, second: &Ty) -> Result<Boxed<Ty>, Memory>
    ensures { IfOk result (λ made. view_type made ≡ unqualified_composite (view_type first.now) (view_type second.now)) }
{
    let one = requalified(alloc, first, false)?;
    let other = requalified(alloc, second, false)?;
    composite(alloc, one.get(), other.get())
}

//! What calls take and give back (the Rust Reference, "Call expressions").

ghost use Rattle.std.specs.Prelude.{◌≡◌, false, map, option_map};
ghost use Rattle.std.specs.Option.{option_copied};
ghost use Rattle.rs_scene.specs.Calls.{are_alike, params_alike, pointed_view, results_alike};
ghost use Rattle.rs_scene.specs.Flows.{flow_view};
ghost use Rattle.rs_mean.specs.Calls.{accepts};
ghost use Rattle.rs_mean.specs.Lookups.{signature_of, own_signature};
ghost use Rattle.rs_mean.specs.Run as run;
ghost use Rattle.rs_mean.specs.Scalars.{alike};
ghost use Rattle.rs_text.specs.Tree.{option_ty, some_ty, tys};
ghost use Rattle.rs_tree.specs.Views.{function_view, local_view, ty_view};
ghost use Rattle.rs_layout.specs.Found.{callee_view};
ghost use Rattle.rs_value.specs.Views.{typed_view, value_ty_view};

use crate::flow::Flow;
use crate::values::Pointed;
use rs_layout::HeldCallee;
use rs_tree::{Function, Local, RTy};
use rs_value::{TypedValue, alike, result_ty, value_ty};

// Whether arguments are those of these parameters, and as many others as are asked for.
fn accepts_types(params: &[RTy], variadic: bool, list: &[TypedValue<'_>]) -> bool
    ensures { result ≡ accepts (map ty_view params.now) variadic (map typed_view list.now) }
{
    let Some((param, params)) = params.split_first() else {
        return variadic || list.is_empty();
    };
    let Some((first, others)) = list.split_first() else {
        return false;
    };
    alike(param, first.ty) && accepts_types(params, variadic, others)
}

fn accepts_locals(params: &[Local], list: &[TypedValue<'_>]) -> bool
    ensures { result ≡ accepts (map (λ param. param.ty) (map local_view params.now)) false (map typed_view list.now) }
{
    let Some((param, params)) = params.split_first() else {
        return list.is_empty();
    };
    let Some((first, others)) = list.split_first() else {
        return false;
    };
    alike(param.ty.get(), first.ty) && accepts_locals(params, others)
}

/// Whether a function may be called with these arguments.
pub fn accepts(callee: HeldCallee<'_>, list: &[TypedValue<'_>]) -> bool
    ensures { result ≡ accepts (signature_of (callee_view callee.entry)).params (signature_of (callee_view callee.entry)).variadic (map typed_view list.now) }
{
    match callee {
        HeldCallee::Outer(fun) => accepts_types(fun.params.as_slice(), fun.variadic, list),
        HeldCallee::Own(fun) => accepts_locals(fun.params.as_slice(), list),
    }
}

// Whether parameters have types that pass as those of a pointer.
fn params_alike(params: &[Local], types: &[RTy]) -> bool
    ensures { result ≡ params_alike (map (λ param. param.ty) (map local_view params.now)) (tys (map ty_view types.now)) }
{
    let Some((param, params)) = params.split_first() else {
        return types.is_empty();
    };
    let Some((first, others)) = types.split_first() else {
        return false;
    };
    alike(param.ty.get(), value_ty(first)) && params_alike(params, others)
}

fn results_alike(given: Option<&RTy>, other: Option<&RTy>) -> bool
    ensures { result ≡ results_alike (option_map ty_view (option_copied given.entry)) (option_ty (option_map ty_view (option_copied other.entry))) }
{
    match given {
        None => match other {
            None => true,
            Some(_) => false,
        },
        Some(one) => match other {
            None => false,
            Some(other) => alike(one, value_ty(other)),
        },
    }
}

fn are_alike(params: &[Local], types: &[RTy], given: Option<&RTy>, other: Option<&RTy>) -> bool
    ensures { result ≡ are_alike (map (λ param. param.ty) (map local_view params.now)) (tys (map ty_view types.now))
        (option_map ty_view (option_copied given.entry)) (option_ty (option_map ty_view (option_copied other.entry))) }
{
    if params_alike(params, types) {
        return results_alike(given, other);
    }
    false
}

/// Whether a function may be called by a pointer.
pub fn called_as(pointed: Pointed<'_>, fun: &Function) -> bool
    ensures { result ≡ run.called_as (pointed_view pointed.entry).params (pointed_view pointed.entry).result (own_signature (function_view fun.now)) }
{
    are_alike(
        fun.params.as_slice(),
        pointed.params,
        result_ty(&fun.result),
        pointed.given,
    )
}

fn retyped_as<'t>(ty: &'t RTy, value: Option<TypedValue<'t>>) -> Option<TypedValue<'t>>
    ensures { option_map typed_view result ≡ run.retyped (some_ty (ty_view ty.now)) (option_map typed_view value.entry) }
{
    match value {
        Some(value) => Some(TypedValue {
            ty: value_ty(ty),
            value: value.value,
        }),
        None => None,
    }
}

/// What a call by a pointer gives back, as a value of the pointer's type.
pub fn retyped<'t>(pointed: Pointed<'t>, value: Option<TypedValue<'t>>) -> Option<TypedValue<'t>>
    ensures { option_map typed_view result ≡ run.retyped (pointed_view pointed.entry).result (option_map typed_view value.entry) }
{
    match pointed.given {
        Some(ty) => retyped_as(ty, value),
        None => None,
    }
}

fn given_as<'t>(ty: Option<&'t RTy>, flow: Flow<'t>) -> Option<TypedValue<'t>>
    ensures { option_map typed_view result ≡ run.given_by (option_map ty_view (option_copied ty.entry)) (flow_view flow.entry) }
{
    let Some(ty) = ty else {
        return None;
    };
    match flow {
        Flow::Returned(Some(value)) => Some(TypedValue {
            ty: value_ty(ty),
            value: value.value,
        }),
        Flow::Returned(None) => None,
        Flow::Normal => None,
        Flow::Breaks(_) => None,
        Flow::Continues(_) => None,
    }
}

/// What a call gives back, as a value of the function's result type.
pub fn given_by<'t>(fun: &'t Function, flow: Flow<'t>) -> Option<TypedValue<'t>>
    ensures { option_map typed_view result ≡ run.given_by (function_view fun.now).result (flow_view flow.entry) }
{
    given_as(result_ty(&fun.result), flow)
}

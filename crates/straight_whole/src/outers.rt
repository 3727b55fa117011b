ghost use Rattle.std.specs.Prelude.{◌≡◌, map, IfOk, option_map};
ghost use Rattle.std.specs.List.{filter};
ghost use Rattle.straight_core.specs.Trees.{form_of_type, listed};
ghost use Rattle.straight_core.specs.Views.{params_of, types_of, view_outer, view_stmt, view_type};
ghost use Rattle.straight_lift.specs.Agrees.{param_types, result_type};
ghost use Rattle.straight_rust_tree.specs.View.{outer_view, ty_view};
ghost use Rattle.straight_whole.specs.Calls.{calls_in_stmt};
ghost use Rattle.straight_whole.specs.CrateOf.{outer_of};

use crate::called::calls_in_stmt;
use cr_base::{Items, Memory};
use std::alloc::Global;
use straight_core::{CoreStmt, Ty, TyForm};
use straight_rust_tree::RTy;

// An `i32` for each type of a parameter list.
fn listed_types(alloc: Global, list: &[Ty]) -> Result<Items<RTy>, Memory>
    ensures { IfOk result (λ made. map ty_view made ≡ param_types (listed (types_of (map view_type list.now)))) }
{
    let mut made = Items::new(alloc);
    for _ty in list {
        made.push(RTy::I32)?;
    }
    Ok(made)
}

// The types of the parameters of a function type (ISO C99, 6.7.5.3).
fn parameter_types(alloc: Global, params: &Option<Items<Ty>>) -> Result<Items<RTy>, Memory>
    ensures { IfOk result (λ made. map ty_view made ≡ param_types (params_of (option_map (map view_type) params.now))) }
{
    match params {
        None => Ok(Items::new(alloc)),
        Some(list) => listed_types(alloc, list.as_slice()),
    }
}

// The type of the result of a function that gives this type.
fn gives(ty: &Ty) -> Option<RTy>
    ensures { option_map ty_view result ≡ result_type (form_of_type (view_type ty.now)) }
{
    match &ty.form {
        TyForm::Int => Some(RTy::I32),
        TyForm::Void => None,
        TyForm::Function(_, _, _) => None,
    }
}

// An external function as a crate declares it, by its type. Refused only for want of memory.
pub(crate) fn declared(
    alloc: Global,
    outer: &straight_core::Outer,
) -> Result<straight_rust_tree::Outer, Memory>
    ensures { IfOk result (λ made. outer_view made ≡ outer_of (view_outer outer.now)) }
{
    let name = outer.name.copy()?;
    match &outer.ty.form {
        TyForm::Function(result_ty, params, variadic) => Ok(straight_rust_tree::Outer {
            link_name: None,
            name,
            params: parameter_types(alloc, params)?,
            variadic: *variadic,
            result: gives(result_ty.get()),
        }),
        _ => Ok(straight_rust_tree::Outer {
            link_name: None,
            name,
            params: Items::new(alloc),
            variadic: false,
            result: None,
        }),
    }
}

// The external functions that a body calls, in their order. Refused only for want of memory.
pub(crate) fn called_outers(
    alloc: Global,
    externals: &[straight_core::Outer],
    body: &CoreStmt,
) -> Result<Items<straight_rust_tree::Outer>, Memory>
    ensures { IfOk result (λ made. map outer_view made ≡
        map outer_of (filter (λ one. calls_in_stmt one.function (view_stmt body.now)) (map view_outer externals.now))) }
{
    let mut made = Items::new(alloc);
    for one in externals {
        if calls_in_stmt(one.function, body) {
            made.push(declared(alloc, one)?)?;
        }
    }
    Ok(made)
}

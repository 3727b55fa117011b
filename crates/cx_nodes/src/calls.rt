//! Calls (ISO C99, 6.5.2.2).

ghost use Rattle.std.specs.Prelude.{◌≡◌, map, option_map, slice_get, IfOk};
ghost use Rattle.cx_core.specs.Trees.{expr};
ghost use Rattle.cx_core.specs.Views.{view_expr, view_type, view_types, view_params, exprs_of, types_of};
ghost use Rattle.cx_nodes.specs.Calls.{arg_for, values_for, called_number};
ghost use Rattle.cx_operands.specs.Views.{view_operand};
ghost use Rattle.cx_rules.specs.Meanings.{args_for, args_of, call_form, call_meaning, trailing_value};

use crate::constants::no_meaning;
use cr_base::{Boxed, Items, Memory, Place};
use cx_core::{CoreExpr, Form, Params, Ty, Types};
use cx_forms::{call_by_node, call_node};
use cx_operands::{Operand, value_type};
use cx_operators::{a_value, fitted_value, promoted_value};
use cx_pairs::callee_of;
use cx_values::{unqualified_copy, value_of};
use std::alloc::Global;

/// What a call means of a function, which is called by its name or isn't, with arguments from the left (ISO C99, 6.5.2.2).
/// Refused only for want of memory.
#[tactic(auto, using(crate::proofs::Callees::by_callee, crate::proofs::Callees::function_view))]
pub fn call_meaning(
    alloc: Global,
    types: &Types,
    at: Place,
    by_name: bool,
    callee: Operand,
    args: Items<Operand>,
) -> Result<Operand, Memory>
    ensures { IfOk result (λ made. view_operand made
        ≡ call_meaning at (view_types types.now) by_name (view_operand callee) (map view_operand args)) }
{
    let Some(function) = callee_of(&callee) else {
        return no_meaning(alloc, at);
    };
    let values = args_of(alloc, types, &function.params, args)?;
    let ty = unqualified_copy(alloc, &function.result_ty)?;
    let value = value_of(alloc, callee)?;
    let core = call_of(alloc, ty, at, by_name, value, values)?;
    Ok(a_value(core))
}

#[tactic(auto, using(crate::proofs::Callees::by_number))]
fn call_of(
    alloc: Global,
    ty: Boxed<Ty>,
    at: Place,
    by_name: bool,
    callee: Boxed<CoreExpr>,
    args: Items<CoreExpr>,
) -> Result<Boxed<CoreExpr>, Memory>
    ensures { IfOk result (λ made. view_expr made ≡ expr (view_type ty) at (call_form by_name (view_expr callee) (exprs_of (map view_expr args)))) }
{
    match called_number(by_name, callee.get()) {
        Some(number) => call_node(alloc, ty, at, number, args),
        None => call_by_node(alloc, ty, at, callee, args),
    }
}

// The number of the function that is called by its name.
fn called_number(by_name: bool, callee: &CoreExpr) -> Option<u32>
    ensures { result ≡ called_number by_name (view_expr callee.now) }
{
    if !by_name {
        return None;
    }
    match &callee.form {
        Form::Code(number) => Some(*number),
        _ => None,
    }
}

// The values of arguments, as parameters take them.
fn args_of(
    alloc: Global,
    types: &Types,
    params: &Params,
    args: Items<Operand>,
) -> Result<Items<CoreExpr>, Memory>
    ensures { IfOk result (λ made. exprs_of (map view_expr made) ≡ args_of (view_types types.now) (view_params params.now) (map view_operand args)) }
{
    match params {
        Params::Unlisted => args_for(alloc, types, &[], args),
        Params::Listed(list) => args_for(alloc, types, list.as_slice(), args),
    }
}

#[tactic(auto, using(crate::proofs::Arguments::args_by_list))]
fn args_for(
    alloc: Global,
    types: &Types,
    params: &[Ty],
    args: Items<Operand>,
) -> Result<Items<CoreExpr>, Memory>
    ensures { IfOk result (λ made. exprs_of (map view_expr made) ≡ args_for (view_types types.now) (types_of (map view_type params.now)) (map view_operand args)) }
{
    let values = values_for(alloc, types, params, args)?;
    Ok(values)
}

fn values_for(
    alloc: Global,
    types: &Types,
    params: &[Ty],
    args: Items<Operand>,
) -> Result<Items<CoreExpr>, Memory>
    ensures { IfOk result (λ made. map view_expr made ≡ values_for (view_types types.now) (map view_type params.now) (map view_operand args)) }
{
    let mut made = Items::new(alloc);
    for arg in args.into_vec() {
        let value = arg_for(alloc, types, param_at(params, made.len()), arg)?;
        made.push(value.into_inner())?;
    }
    Ok(made)
}

fn param_at(params: &[Ty], index: usize) -> Option<&Ty>
    ensures { option_map (λ t. view_type t.now) result ≡ slice_get (map view_type params.now) index }
{
    params.get(index)
}

// The value of an argument, as a parameter takes it where there is one.
fn arg_for(
    alloc: Global,
    types: &Types,
    param: Option<&Ty>,
    arg: Operand,
) -> Result<Boxed<CoreExpr>, Memory>
    ensures { IfOk result (λ made. view_expr made ≡ arg_for (view_types types.now) (option_map (λ t. view_type t.now) param.entry) (view_operand arg)) }
{
    match param {
        Some(t) => fitted_value(alloc, types, t, arg),
        None => trailing_value(alloc, types, arg),
    }
}

// An argument behind those that parameters take, with the default promotions (6.5.2.2p6).
fn trailing_value(alloc: Global, types: &Types, arg: Operand) -> Result<Boxed<CoreExpr>, Memory>
    ensures { IfOk result (λ made. view_expr made ≡ trailing_value (view_types types.now) (view_operand arg)) }
{
    if value_type(&arg).is_integer(types) {
        promoted_value(alloc, types, arg)
    } else {
        value_of(alloc, arg)
    }
}

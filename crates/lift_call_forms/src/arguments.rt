//! Arguments (ISO C99, 6.5.2.2p4 to p7). Each maker is refused only for want of memory.

ghost use Rattle.std.specs.Prelude.{◌≡◌, ◌∷◌, map, IfOk, option_map};
ghost use Rattle.std.specs.List.{slice_get};
ghost use Rattle.cx_core.specs.Views.{view_expr, view_type};
ghost use Rattle.lift_call_forms.specs.Passed.{passed_as, passed_from};
ghost use Rattle.lift_call_forms.specs.Views.{argument_view};
ghost use Rattle.lift_exprs.specs.Calls as spec;
ghost use Rattle.lift_exprs.specs.Names as names_spec;
ghost use Rattle.lift_exprs.specs.Written as written;
ghost use Rattle.lift_forms_code.specs.Views.{given_view};
ghost use Rattle.lift_stores.specs.Names.{lift_names};
ghost use Rattle.rs_items.specs.Known.{view_names};
ghost use Rattle.rs_text.specs.Tree as tree;
ghost use Rattle.rs_text.specs.Tree.{tys, option_ty};
ghost use Rattle.rs_tree.specs.Views.{ty_view, expr_view};

use cr_base::{Boxed, Items, Memory};
use cx_core::CoreExpr;
use lift_forms_code::{RGiven, as_type, value_of};
use lift_held::is_record;
use lift_stores::{Written, address_of_given, type_in};
use rs_items::NameMap;
use rs_makers::copy_ty;
use rs_tree::{RExpr, RTy};
use std::alloc::Global;

/// An argument, and its Rust type.
#[derive(Drop)]
pub struct Argument {
    pub ty: Boxed<RTy>,
    pub passed: Boxed<RExpr>,
}

/// Arguments, and what is written in front of them.
#[derive(Drop)]
pub struct Arguments {
    pub written: Written,
    pub list: Items<Argument>,
}

// A structure or union is passed by its address.
fn record_argument(
    alloc: Global,
    names: &NameMap,
    e: &CoreExpr,
    given: RGiven,
) -> Result<Argument, Memory>
    ensures { IfOk result (λ made. argument_view made ≡ record {
      ty = tree.Pointer (names_spec.type_in (lift_names (view_names names.now)) (view_type e.now.ty));
      passed = written.address_of_given (given_view given);
    }) }
{
    let target = type_in(alloc, names, &e.ty)?;
    let ty = Boxed::new(alloc, RTy::Pointer(target))?;
    let passed = address_of_given(alloc, given)?;
    Ok(Argument { ty, passed })
}

/// What is given, as an argument: a value, or the address of a structure or union.
pub fn argument_of(
    alloc: Global,
    names: &NameMap,
    e: &CoreExpr,
    given: RGiven,
) -> Result<Argument, Memory>
    ensures { IfOk result (λ made. argument_view made ≡ spec.argument_of (lift_names (view_names names.now)) (view_expr e.now) (given_view given)) }
{
    if is_record(&e.ty) {
        return record_argument(alloc, names, e, given);
    }
    let ty = type_in(alloc, names, &e.ty)?;
    let passed = value_of(alloc, given)?;
    Ok(Argument { ty, passed })
}

// An argument, in the type of its parameter where there is one.
fn passed_as(alloc: Global, param: Option<&RTy>, one: Argument) -> Result<Boxed<RExpr>, Memory>
    ensures { IfOk result (λ made. expr_view made ≡ passed_as (option_map (λ ty. ty_view ty.now) param.entry) (argument_view one)) }
{
    let Argument { ty, passed } = one;
    match param {
        Some(param) => as_type(alloc, ty.get(), param, passed),
        None => Ok(passed),
    }
}

// The parameter at an index, if there is one.
fn param_at(params: &[RTy], index: usize) -> Option<&RTy>
    ensures { option_map (λ ty. ty_view ty.now) result ≡ slice_get (map ty_view params.now) index }
{
    params.get(index)
}

// Arguments, each in the type of the parameter at its index.
fn passed_in(alloc: Global, params: &[RTy], args: Items<Argument>) -> Result<Items<RExpr>, Memory>
    ensures { IfOk result (λ made. map expr_view made ≡ passed_from (map ty_view params.now) 0 (map argument_view args)) }
{
    let mut made = Items::new(alloc);
    for one in args.into_vec() {
        let passed = passed_as(alloc, param_at(params, made.len()), one)?;
        made.push(passed.into_inner())?;
    }
    Ok(made)
}

/// Each argument in the type of its parameter; those that follow are passed as they are.
#[tactic(auto, using(crate::proofs::Passing::as_list))]
pub fn as_params(
    alloc: Global,
    params: &[RTy],
    args: Items<Argument>,
) -> Result<Items<RExpr>, Memory>
    ensures { IfOk result (λ made. map expr_view made ≡ spec.as_params (tys (map ty_view params.now)) (map argument_view args)) }
{
    passed_in(alloc, params, args)
}

/// Arguments as they are.
pub fn as_they_are(alloc: Global, args: Items<Argument>) -> Result<Items<RExpr>, Memory>
    ensures { IfOk result (λ made. map expr_view made ≡ spec.as_they_are (map argument_view args)) }
{
    let mut made = Items::new(alloc);
    for one in args.into_vec() {
        made.push(one.passed.into_inner())?;
    }
    Ok(made)
}

// The types of arguments.
fn types_of(alloc: Global, args: &[Argument]) -> Result<Items<RTy>, Memory>
    ensures { IfOk result (λ made. map ty_view made ≡ map (λ (one : spec.Argument). one.ty) (map argument_view args.now)) }
{
    let mut made = Items::new(alloc);
    for one in args {
        made.push(copy_ty(alloc, one.ty.get())?.into_inner())?;
    }
    Ok(made)
}

/// The type of a pointer to a function that takes just these arguments.
pub fn code_taking(
    alloc: Global,
    args: &[Argument],
    given: Option<Boxed<RTy>>,
) -> Result<Boxed<RTy>, Memory>
    ensures { IfOk result (λ made. ty_view made ≡ spec.code_taking (map argument_view args.now) (option_ty (option_map ty_view given))) }
{
    let params = types_of(alloc, args)?;
    Boxed::new(alloc, RTy::Code(params, given))
}

/// As many arguments as parameters.
pub fn are_enough(params: &[RTy], args: &[Argument]) -> bool
    ensures { result ≡ spec.are_enough (tys (map ty_view params.now)) (map argument_view args.now) }
{
    params.len() == args.len()
}

/// An argument in front of others.
pub fn in_front(
    alloc: Global,
    first: Argument,
    others: Items<Argument>,
) -> Result<Items<Argument>, Memory>
    ensures { IfOk result (λ made. map argument_view made ≡ argument_view first ∷ map argument_view others) }
{
    let mut all = Items::new(alloc);
    all.push(first)?;
    all.append(others)?;
    Ok(all)
}

//! Calls of functions with arguments (ISO C99, 6.5.2.2). Each maker is refused only for want of memory.

ghost use Rattle.std.specs.Prelude.{◌≡◌, map, IfOk, Some, option_map};
ghost use Rattle.lift_call_forms.specs.Views.{argument_view, callee_view};
ghost use Rattle.lift_exprs.specs.Calls as spec;
ghost use Rattle.lift_stores.specs.Names.{lift_names};
ghost use Rattle.rs_items.specs.Known.{view_names};
ghost use Rattle.rs_text.specs.Tree.{option_ty};
ghost use Rattle.rs_tree.specs.Views.{ty_view, expr_view};

use crate::arguments::{Argument, are_enough, as_params, as_they_are, code_taking, in_front};
use crate::callees::{Callee, bare_function_at, params_of, pointer_to, result_of};
use cr_base::{Boxed, Int, Items, Memory, Name};
use rs_items::NameMap;
use rs_makers::{call, call_by, literal, transmute};
use rs_text::IntegerTy;
use rs_tree::{RExpr, RTy};
use std::alloc::Global;

// By its path, each argument in the type of its parameter.
fn call_of(alloc: Global, to: Callee, args: Items<Argument>) -> Result<Boxed<RExpr>, Memory>
    ensures { IfOk result (λ made. expr_view made ≡ spec.call_of (callee_view to) (map argument_view args)) }
{
    let Callee { path, ty, .. } = to;
    let args = as_params(alloc, params_of(ty.get()), args)?;
    call(alloc, path, args)
}

// By a pointer to a function that takes just these arguments.
fn call_as(
    alloc: Global,
    ty: Boxed<RTy>,
    pointer: Boxed<RExpr>,
    args: Items<Argument>,
) -> Result<Boxed<RExpr>, Memory>
    ensures { IfOk result (λ made. expr_view made ≡ spec.call_as (ty_view ty) (expr_view pointer) (map argument_view args)) }
{
    let given = result_of(alloc, ty.get())?;
    let taking = code_taking(alloc, args.as_slice(), given)?;
    let to = transmute(alloc, ty, taking, pointer)?;
    let args = as_they_are(alloc, args)?;
    call_by(alloc, to, args)
}

// A function of the program.
fn call_of_own(alloc: Global, to: Callee, args: Items<Argument>) -> Result<Boxed<RExpr>, Memory>
    ensures { IfOk result (λ made. expr_view made ≡ spec.call_of_own (callee_view to) (map argument_view args)) }
{
    if are_enough(params_of(to.ty.get()), args.as_slice()) {
        return call_of(alloc, to, args);
    }
    let pointer = pointer_to(alloc, &to)?;
    call_as(alloc, to.ty, pointer, args)
}

// Called without arguments, though its item lists some.
fn is_bare(to: &Callee, args: &[Argument]) -> bool
    ensures { result ≡ spec.is_bare (callee_view to.now) (map argument_view args.now) }
{
    args.is_empty() && !are_enough(params_of(to.ty.get()), args)
}

// The item of an external function that is called with these arguments.
fn outer_called(
    alloc: Global,
    names: &NameMap,
    number: u32,
    to: Callee,
    args: &[Argument],
) -> Result<Callee, Memory>
    ensures { IfOk result (λ made. callee_view made ≡
        spec.outer_called (callee_view to) ((lift_names (view_names names.now)).bare_functions number) (map argument_view args.now)) }
{
    match bare_function_at(alloc, names, number)? {
        Some(bare) if is_bare(&to, args) => Ok(bare),
        _ => Ok(to),
    }
}

// `malloc`, in a program with a bit-field member.
fn is_malloc(names: &NameMap, symbol: &Name) -> bool
    ensures { result ≡ spec.is_malloc (lift_names (view_names names.now)) symbol.now }
{
    names.bits() && symbol.bytes() == b"malloc".as_slice()
}

// One item, for `calloc`.
fn one_item(alloc: Global) -> Result<Argument, Memory>
    ensures { IfOk result (λ made. argument_view made ≡ spec.one_item) }
{
    let ty = Boxed::new(alloc, RTy::Integer(IntegerTy::U64))?;
    let passed = literal(alloc, Int::from(1), IntegerTy::U64)?;
    Ok(Argument { ty, passed })
}

// The arguments with which an external function is called.
fn outer_arguments(
    alloc: Global,
    names: &NameMap,
    symbol: &Name,
    args: Items<Argument>,
) -> Result<Items<Argument>, Memory>
    ensures { IfOk result (λ made. map argument_view made ≡
        spec.outer_arguments (lift_names (view_names names.now)) symbol.now (map argument_view args)) }
{
    if is_malloc(names, symbol) {
        return in_front(alloc, one_item(alloc)?, args);
    }
    Ok(args)
}

// An external function.
fn outer_call(
    alloc: Global,
    names: &NameMap,
    number: u32,
    to: Callee,
    symbol: &Name,
    args: Items<Argument>,
) -> Result<Boxed<RExpr>, Memory>
    ensures { IfOk result (λ made. expr_view made ≡ spec.called_by_symbol (lift_names (view_names names.now)) number (callee_view to) (Some symbol.now) (map argument_view args)) }
{
    let to = outer_called(alloc, names, number, to, args.as_slice())?;
    let args = outer_arguments(alloc, names, symbol, args)?;
    call_of(alloc, to, args)
}

/// A function of the program by its own type, an external one by its symbol.
pub fn called_by_symbol(
    alloc: Global,
    names: &NameMap,
    number: u32,
    to: Callee,
    args: Items<Argument>,
) -> Result<Boxed<RExpr>, Memory>
    ensures { IfOk result (λ made. expr_view made ≡
        spec.called_by_symbol (lift_names (view_names names.now)) number (callee_view to) to.symbol (map argument_view args)) }
{
    let Callee { path, ty, symbol } = to;
    match symbol {
        Some(symbol) => outer_call(
            alloc,
            names,
            number,
            Callee {
                path,
                ty,
                symbol: None,
            },
            &symbol,
            args,
        ),
        None => call_of_own(
            alloc,
            Callee {
                path,
                ty,
                symbol: None,
            },
            args,
        ),
    }
}

/// What a pointer of a type points to.
pub fn call_through(
    alloc: Global,
    ty: Boxed<RTy>,
    pointer: Boxed<RExpr>,
    args: Items<Argument>,
) -> Result<Boxed<RExpr>, Memory>
    ensures { IfOk result (λ made. expr_view made ≡ spec.call_through (ty_view ty) (expr_view pointer) (map argument_view args)) }
{
    if are_enough(params_of(ty.get()), args.as_slice()) {
        let args = as_params(alloc, params_of(ty.get()), args)?;
        return call_by(alloc, pointer, args);
    }
    call_as(alloc, ty, pointer, args)
}

//! The functions of a written crate that calls name. Each maker is refused only for want of memory.

ghost use Rattle.std.specs.Prelude.{◌≡◌, map, IfOk, Some, None, option_map};
ghost use Rattle.lift_call_forms.specs.Views.{callee_view};
ghost use Rattle.lift_exprs.specs.Names as spec;
ghost use Rattle.lift_exprs.specs.Names.{function_or};
ghost use Rattle.lift_exprs.specs.Calls.{pointer_to};
ghost use Rattle.lift_stores.specs.Names as names_spec;
ghost use Rattle.lift_stores.specs.Names.{lift_names, kept_function};
ghost use Rattle.rs_items.specs.Known.{view_known, view_names};
ghost use Rattle.rs_text.specs.Tree.{tys, option_ty};
ghost use Rattle.rs_tree.specs.Views.{ty_view, expr_view};

use cr_base::{Boxed, Memory, Name};
use rs_items::{Known, NameMap, Named};
use rs_makers::{copy_given, copy_path, copy_ty, copy_tys, some_function};
use rs_tree::{RExpr, RPath, RTy};
use std::alloc::Global;

/// A function, as an item of the crate.
#[derive(Drop)]
pub struct Callee {
    pub path: RPath,
    /// The type of a pointer to it.
    pub ty: Boxed<RTy>,
    /// Its name in C, where no unit defines it.
    pub symbol: Option<Name>,
}

/// The parameters of a type of functions.
pub fn params_of(ty: &RTy) -> &[RTy]
    ensures { tys (map ty_view result.now) ≡ spec.params_of (ty_view ty.now) }
{
    match ty {
        RTy::Code(params, _) => params.as_slice(),
        _ => &[],
    }
}

/// The type of the result, if a type of functions has one.
pub fn result_of(alloc: Global, ty: &RTy) -> Result<Option<Boxed<RTy>>, Memory>
    ensures { IfOk result (λ made. option_ty (option_map ty_view made) ≡ spec.result_of (ty_view ty.now)) }
{
    match ty {
        RTy::Code(_, given) => copy_given(alloc, given),
        _ => Ok(None),
    }
}

// A name, or one that says nothing.
fn name_or_none(alloc: Global, name: &Option<Name>) -> Result<Name, Memory>
    ensures { IfOk result (λ made. made ≡ names_spec.name_or_none name.now) }
{
    match name {
        Some(name) => name.copy(),
        None => Ok(Name::of(Vec::new(alloc))),
    }
}

// An equal symbol, if there is one.
fn copy_symbol(symbol: &Option<Name>) -> Result<Option<Name>, Memory>
    ensures { IfOk result (λ made. made ≡ symbol.now) }
{
    match symbol {
        Some(name) => Ok(Some(name.copy()?)),
        None => Ok(None),
    }
}

// A function that is kept.
fn callee_of(alloc: Global, one: &Known) -> Result<Callee, Memory>
    ensures { IfOk result (λ made. callee_view made ≡ kept_function (view_known one.now)) }
{
    let home = name_or_none(alloc, &one.module)?;
    let name = one.name.copy()?;
    let ty = copy_ty(alloc, &one.ty)?;
    let symbol = copy_symbol(&one.symbol)?;
    Ok(Callee {
        path: RPath { home, name },
        ty,
        symbol,
    })
}

// A function that isn't kept: no expression names one.
fn nobody(alloc: Global) -> Result<Callee, Memory>
    ensures { IfOk result (λ made. callee_view made ≡ function_or None) }
{
    Ok(Callee {
        path: RPath {
            home: Name::of(Vec::new(alloc)),
            name: Name::of(Vec::new(alloc)),
        },
        ty: Boxed::new(alloc, RTy::Void)?,
        symbol: None,
    })
}

/// The function of a number.
pub fn function_at(alloc: Global, names: &NameMap, number: u32) -> Result<Callee, Memory>
    ensures { IfOk result (λ made. callee_view made ≡ function_or ((lift_names (view_names names.now)).functions number)) }
{
    match names.known(Named::Function(number)) {
        Some(one) => callee_of(alloc, one),
        None => nobody(alloc),
    }
}

/// The second item of an external function, without parameters, if it has one.
pub fn bare_function_at(
    alloc: Global,
    names: &NameMap,
    number: u32,
) -> Result<Option<Callee>, Memory>
    ensures { IfOk result (λ made. option_map callee_view made ≡ (lift_names (view_names names.now)).bare_functions number) }
{
    match names.known(Named::BareFunction(number)) {
        Some(one) => Ok(Some(callee_of(alloc, one)?)),
        None => Ok(None),
    }
}

/// A pointer to a function.
pub fn pointer_to(alloc: Global, to: &Callee) -> Result<Boxed<RExpr>, Memory>
    ensures { IfOk result (λ made. expr_view made ≡ pointer_to (callee_view to.now)) }
{
    let path = copy_path(&to.path)?;
    let params = copy_tys(alloc, params_of(to.ty.get()))?;
    let given = result_of(alloc, to.ty.get())?;
    some_function(alloc, path, params, given)
}

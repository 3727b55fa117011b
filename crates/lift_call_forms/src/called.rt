//! What is written for a call (ISO C99, 6.5.2.2). Each maker is refused only for want of memory.

ghost use Rattle.std.specs.Prelude.{◌≡◌, map, IfOk, option_map};
ghost use Rattle.cx_core.specs.Views.{view_type};
ghost use Rattle.lift_call_forms.specs.Texts.{called_for_record, called_for_value, called_alone, called_with, result_argument_at};
ghost use Rattle.lift_call_forms.specs.Views.{argument_view, called_view};
ghost use Rattle.lift_exprs.specs.Calls as spec;
ghost use Rattle.lift_stores.specs.Names.{lift_names};
ghost use Rattle.lift_stores.specs.Views.{text_view};
ghost use Rattle.rs_items.specs.Known.{view_names};
ghost use Rattle.rs_text.specs.Tree as tree;
ghost use Rattle.rs_text.specs.Tree.{option_ty};
ghost use Rattle.rs_tree.specs.Views.{ty_view, expr_view, stmt_view};

use crate::arguments::{Argument, Arguments, in_front};
use crate::callees::{function_at, result_of};
use crate::calls::{call_through, called_by_symbol};
use cr_base::{Boxed, Items, Memory};
use cx_core::Ty;
use lift_forms_code::{RGiven, as_type};
use lift_held::{is_record, is_void};
use lift_stores::{Written, one_stmt, temporary_place, then_does, then_gives, then_takes, type_in};
use rs_items::NameMap;
use rs_makers::address;
use rs_tree::{RExpr, RStmt, RTy};
use std::alloc::Global;

/// What is called.
#[derive(Drop)]
pub enum Called {
    /// A function, by its number.
    ByName(u32),
    /// What a pointer points to, with the type of the pointer.
    ByPointer(Boxed<RTy>, Boxed<RExpr>),
}

// The call.
fn call(
    alloc: Global,
    names: &NameMap,
    called: Called,
    args: Items<Argument>,
) -> Result<Boxed<RExpr>, Memory>
    ensures { IfOk result (λ made. expr_view made ≡
        (called_view (lift_names (view_names names.now)) called).call (map argument_view args)) }
{
    match called {
        Called::ByName(number) => {
            let to = function_at(alloc, names, number)?;
            called_by_symbol(alloc, names, number, to, args)
        }
        Called::ByPointer(ty, pointer) => call_through(alloc, ty, pointer, args),
    }
}

// The call, as a statement.
fn call_stmt(
    alloc: Global,
    names: &NameMap,
    called: Called,
    args: Items<Argument>,
) -> Result<Boxed<RStmt>, Memory>
    ensures { IfOk result (λ made. stmt_view made ≡
        tree.Eval ((called_view (lift_names (view_names names.now)) called).call (map argument_view args))) }
{
    let e = call(alloc, names, called, args)?;
    Boxed::new(alloc, RStmt::Eval(e))
}

// The type that a call gives.
fn result_type(alloc: Global, names: &NameMap, called: &Called) -> Result<Boxed<RTy>, Memory>
    ensures { IfOk result (λ made. ty_view made ≡
        spec.result_type (called_view (lift_names (view_names names.now)) called.now).result) }
{
    let given = match called {
        Called::ByName(number) => {
            let to = function_at(alloc, names, *number)?;
            result_of(alloc, to.ty.get())?
        }
        Called::ByPointer(ty, _) => result_of(alloc, ty.get())?,
    };
    match given {
        Some(ty) => Ok(ty),
        None => Boxed::new(alloc, RTy::Void),
    }
}

// A pointer to the place of the result, as an argument.
fn result_argument(alloc: Global, names: &NameMap, ty: &Ty, number: u32) -> Result<Argument, Memory>
    ensures { IfOk result (λ made. argument_view made ≡ result_argument_at (lift_names (view_names names.now)) (view_type ty.now) number) }
{
    let target = type_in(alloc, names, ty)?;
    let ty = Boxed::new(alloc, RTy::Pointer(target))?;
    let place = temporary_place(alloc, names, number)?;
    let passed = address(alloc, place)?;
    Ok(Argument { ty, passed })
}

// What is written where it gives a structure or union.
fn called_for_record(
    alloc: Global,
    names: &NameMap,
    ty: &Ty,
    called: Called,
    args: Arguments,
) -> Result<Written, Memory>
    ensures { IfOk result (λ made. text_view made ≡
        called_for_record (lift_names (view_names names.now)) (view_type ty.now) (called_view (lift_names (view_names names.now)) called) (map argument_view args.list) (text_view args.written)) }
{
    let Arguments { written, list } = args;
    let number = written.next;
    let first = result_argument(alloc, names, ty, number)?;
    let list = in_front(alloc, first, list)?;
    let done = call_stmt(alloc, names, called, list)?;
    let place = temporary_place(alloc, names, number)?;
    let given = address(alloc, place)?;
    then_takes(written, one_stmt(alloc, done)?, RGiven::Value(given))
}

// What is written where it gives a value that is used.
fn called_for_value(
    alloc: Global,
    names: &NameMap,
    ty: &Ty,
    called: Called,
    args: Arguments,
) -> Result<Written, Memory>
    ensures { IfOk result (λ made. text_view made ≡
        called_for_value (lift_names (view_names names.now)) (view_type ty.now) (called_view (lift_names (view_names names.now)) called) (map argument_view args.list) (text_view args.written)) }
{
    let Arguments { written, list } = args;
    let from = result_type(alloc, names, &called)?;
    let to = type_in(alloc, names, ty)?;
    let e = call(alloc, names, called, list)?;
    let given = as_type(alloc, from.get(), to.get(), e)?;
    Ok(then_gives(written, RGiven::Value(given)))
}

// What is written where it gives none, or it isn't used.
fn called_alone(
    alloc: Global,
    names: &NameMap,
    called: Called,
    args: Arguments,
) -> Result<Written, Memory>
    ensures { IfOk result (λ made. text_view made ≡
        called_alone (called_view (lift_names (view_names names.now)) called) (map argument_view args.list) (text_view args.written)) }
{
    let Arguments { written, list } = args;
    let done = call_stmt(alloc, names, called, list)?;
    then_does(written, one_stmt(alloc, done)?, RGiven::Nothing)
}

/// What is written for a call that gives a type, whose value is used or not, behind what is written for its arguments.
pub fn called_with(
    alloc: Global,
    names: &NameMap,
    used: bool,
    ty: &Ty,
    called: Called,
    args: Arguments,
) -> Result<Written, Memory>
    ensures { IfOk result (λ made. text_view made ≡
        called_with (lift_names (view_names names.now)) used (view_type ty.now) (called_view (lift_names (view_names names.now)) called) (map argument_view args.list) (text_view args.written)) }
{
    if is_record(ty) {
        called_for_record(alloc, names, ty, called, args)
    } else if used && !is_void(ty) {
        called_for_value(alloc, names, ty, called, args)
    } else {
        called_alone(alloc, names, called, args)
    }
}

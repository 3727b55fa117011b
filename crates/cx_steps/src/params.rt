//! Parameters of a called function that begin (ISO C99, 6.5.2.2p4 and 6.9.1p9).

ghost use Rattle.std.specs.Prelude.{◌≡◌, [], IfOk, IsTrue, map, reverse};
ghost use Rattle.cx_access.specs.Views.{view_setting};
ghost use Rattle.cx_core.specs.Views.{view_function, view_type};
ghost use Rattle.cx_machine.specs.Machines.{IsAt, view_machine};
ghost use Rattle.cx_machine.specs.Steps.{StoreAdvances};
ghost use Rattle.cx_mean.specs.Paths.{site_at};
ghost use Rattle.cx_mean.specs.State.{after_param, bottom_of, param_begins, place_of_body, take_step, taking};
ghost use Rattle.cx_moves.specs.Sites.{view_site};
ghost use Rattle.cx_steps.specs.Given.{Argues, Stores, TakesOthers, argument_at};
ghost use Rattle.cx_work.specs.Views.{view_finished};

use cr_base::Memory;
use cx_access::{Setting, Trouble, stored};
use cx_core::{Fun, Ty};
use cx_machine::{Machine, Stop, is_main, takes_params};
use cx_moves::{Scope, Site};
use cx_outside::{Lack, begin};
use cx_statements::shape_of;
use cx_work::{Finished, Marks, OperandTy, Slot};
use mem_bytes::{Ptr, Store, Value};
use std::alloc::Global;

// Whether no statement of a function is open.
fn is_at_entry(site: &Site<'_>, fun: &Fun) -> bool
    ensures { IsTrue result → view_site site.now ≡ site_at [] (bottom_of (view_function fun.now) site.now.params) }
{
    if !site.levels.is_empty() {
        return false;
    }
    is_main(fun) == site.is_main
}

// The next parameter begins, or the body is reached. No statement is open where a parameter begins.
fn goes_on_taking<'a>(
    machine: &mut Machine<'a>,
    fun: &'a Fun,
    others: &'a [u32],
) -> Result<(), Memory>
    ensures { IfOk result (λ _. IsAt machine.old machine.new (taking (view_function fun.now) others.now (reverse (map view_finished machine.old.args)) machine.old.site.params)) }
{
    if !is_at_entry(&machine.site, fun) {
        return Err(Memory);
    }
    takes_params(machine, fun, others);
    Ok(())
}

// An argument is stored in its parameter.
fn store_argument<S: Store>(
    alloc: Global,
    store: &mut S,
    setting: &Setting<'_>,
    ty: &Ty,
    at: Ptr,
    value: Finished,
) -> Result<(), Trouble>
    ensures stored { Stores result (S.memory store.new) (argument_at (view_setting setting.now) (S.memory store.old) (view_type ty.now) at (view_finished value)) }
    ensures limit { S.limit store.new ≡ S.limit store.old }
{
    let objects = Scope {
        levels: &[],
        params: &[],
        statics: &[],
    };
    let place = Finished::Designates(Value::Object(at));
    let mut marks = Marks::new(alloc);
    match stored(
        store,
        &objects,
        setting,
        OperandTy::Unqualified(ty),
        &place,
        value,
        &mut marks,
    ) {
        Ok(_) => Ok(()),
        Err(trouble) => Err(trouble),
    }
}

// A parameter has begun.
fn has_begun<'a>(
    machine: &mut Machine<'a>,
    number: u32,
    at: Ptr,
    fun: &'a Fun,
    others: &'a [u32],
) -> Result<(), Memory>
    ensures { IfOk result (λ _. TakesOthers machine.old machine.new (view_function fun.now) number others.now at) }
{
    let slot = Slot {
        object: number,
        block: at.block,
    };
    match machine.site.params.push(slot) {
        Ok(()) => goes_on_taking(machine, fun, others),
        Err(memory) => Err(memory),
    }
}

// A parameter whose life has begun gets its argument.
fn takes_argument<'a, S: Store>(
    alloc: Global,
    machine: &mut Machine<'a>,
    store: &mut S,
    setting: &Setting<'a>,
    fun: &'a Fun,
    others: &'a [u32],
    ty: &'a Ty,
    number: u32,
    at: Ptr,
    value: Finished,
) -> Result<(), Stop<'a>>
    ensures steps { Argues result (argument_at (view_setting setting.now) (S.memory store.old) (view_type ty.now) at (view_finished value)) machine.old machine.new (view_function fun.now) number others.now at (S.memory store.new) }
    ensures limit { S.limit store.new ≡ S.limit store.old }
{
    match store_argument(alloc, store, setting, ty, at, value) {
        Ok(()) => {}
        Err(Trouble::Undefined(rule)) => return Err(Stop::Undefined(rule, fun.body.place)),
        Err(Trouble::Memory) => return Err(Stop::Lacks(Lack::Memory)),
    }
    match has_begun(machine, number, at, fun, others) {
        Ok(()) => Ok(()),
        Err(_) => Err(Stop::Lacks(Lack::Memory)),
    }
}

// The life of a parameter begins.
fn begins_param<'a, S: Store>(
    alloc: Global,
    machine: &mut Machine<'a>,
    store: &mut S,
    setting: &Setting<'a>,
    fun: &'a Fun,
    number: u32,
    others: &'a [u32],
    value: Finished,
) -> Result<(), Stop<'a>>
    ensures steps { StoreAdvances (λ world. after_param (view_machine machine.old world) (view_function fun.now) number others.now (reverse (map view_finished machine.old.args)) machine.old.site.params
        (param_begins (view_setting setting.now) (place_of_body (view_function fun.now).body) number (view_finished value) world)) result (view_machine machine.new)
        (S.memory store.old) (S.memory store.new) (S.limit store.old) (S.limit store.new) }
    ensures limit { S.limit store.new ≡ S.limit store.old }
{
    let Some(shape) = shape_of(setting, number) else {
        return Err(Stop::Lacks(Lack::Memory));
    };
    let at = match begin(store, false, shape.laid.size, shape.laid.align) {
        Ok(at) => at,
        Err(lack) => return Err(Stop::Lacks(lack)),
    };
    takes_argument(
        alloc, machine, store, setting, fun, others, shape.ty, number, at, value,
    )
}

/// The life of the next parameter of a called function begins, with its argument in it.
///
/// # Errors
///
/// `Undefined` where the argument can't be stored, and `Lacks` where the store is full, and for want of memory.
pub(crate) fn takes<'a, S: Store>(
    alloc: Global,
    machine: &mut Machine<'a>,
    store: &mut S,
    setting: &Setting<'a>,
    fun: &'a Fun,
    params: &'a [u32],
) -> Result<(), Stop<'a>>
    ensures steps { StoreAdvances (λ world. take_step (view_setting setting.now) (view_machine machine.old world) (view_function fun.now) params.now (reverse (map view_finished machine.old.args)) machine.old.site.params) result (view_machine machine.new)
        (S.memory store.old) (S.memory store.new) (S.limit store.old) (S.limit store.new) }
    ensures limit { S.limit store.new ≡ S.limit store.old }
{
    let Some((number, others)) = params.split_first() else {
        return Err(Stop::Lacks(Lack::Memory));
    };
    match machine.args.pop() {
        Some(value) => begins_param(alloc, machine, store, setting, fun, *number, others, value),
        None => Err(Stop::Lacks(Lack::Memory)),
    }
}

//! Static objects begin (ISO C99, 6.2.4p3).

ghost use Rattle.std.specs.Prelude.{◌≡◌, ◌++◌, ◌∷◌, [], IfOk, map};
ghost use Rattle.cx_access.specs.Views.{view_setting};
ghost use Rattle.cx_core.specs.Views.{view_object};
ghost use Rattle.cx_machine.specs.Machines.{IsAt, view_machine};
ghost use Rattle.cx_machine.specs.Statics.{IsFirst, static_step};
ghost use Rattle.cx_machine.specs.Steps.{StoreAdvances};
ghost use Rattle.cx_mean.specs.State.{beginning_statics, statics_in};

use crate::machine::{Control, Machine, go};
use crate::stop::Stop;
use cr_base::Memory;
use cx_access::{Setting, extent_of};
use cx_core::CoreObject;
use cx_moves::static_puts;
use cx_outside::{Lack, begin};
use cx_work::{OperandTy, Slot};
use mem_bytes::Store;
use std::alloc::Global;

/// The first static object of a list that is defined, and the list behind it.
#[derive(Clone, Copy)]
struct First<'a> {
    one: &'a CoreObject,
    others: &'a [CoreObject],
}

fn first_defined<'a>(objects: &'a [CoreObject]) -> Option<First<'a>>
    ensures { IsFirst result (statics_in (map view_object objects.now)) }
{
    let mut left = objects;
    while let Some((one, others)) = left.split_first() {
        if one.puts.is_some() {
            return Some(First { one, others });
        }
        left = others;
    }
    None
}

/// The next static object begins, or the first value is stored.
///
/// # Errors
///
/// `Memory` for want of memory.
pub fn goes_to_statics<'a>(
    alloc: Global,
    machine: &mut Machine<'a>,
    others: &'a [CoreObject],
    all: &'a [CoreObject],
) -> Result<(), Memory>
    ensures { IfOk result (λ _. IsAt machine.old machine.new (beginning_statics (statics_in (map view_object others.now)) (statics_in (map view_object all.now)))) }
{
    match first_defined(others) {
        Some(first) => {
            machine.control = Control::Begins(first.one, first.others);
            Ok(())
        }
        None => go(alloc, machine, static_puts(all)),
    }
}

fn holds(machine: &mut Machine<'_>, slot: Slot) -> Result<(), Memory>
    ensures { IfOk result (λ _. machine.new ≡ record machine.old { statics = machine.old.statics ++ slot ∷ [] }) }
{
    machine.statics.push(slot)
}

/// The life of a static object begins, all of its bytes 0.
///
/// # Errors
///
/// `Lacks` where the store is full, and for want of memory.
pub fn begins_static<'a, S: Store>(
    alloc: Global,
    machine: &mut Machine<'a>,
    store: &mut S,
    setting: &Setting<'a>,
    one: &'a CoreObject,
    others: &'a [CoreObject],
) -> Result<(), Stop<'a>>
    ensures steps { StoreAdvances (λ world. static_step (view_setting setting.now) (view_machine machine.old world) (view_object one.now) (statics_in (map view_object others.now)) world) result (view_machine machine.new)
        (S.memory store.old) (S.memory store.new) (S.limit store.old) (S.limit store.new) }
    ensures limit { S.limit store.new ≡ S.limit store.old }
{
    let Some(laid) = extent_of(setting, OperandTy::Of(&one.ty)) else {
        return Err(Stop::Lacks(Lack::Memory));
    };
    let at = match begin(store, true, laid.size, laid.align) {
        Ok(at) => at,
        Err(lack) => return Err(Stop::Lacks(lack)),
    };
    if let Err(_) = holds(
        machine,
        Slot {
            object: one.object,
            block: at.block,
        },
    ) {
        return Err(Stop::Lacks(Lack::Memory));
    }
    match goes_to_statics(alloc, machine, others, setting.program.objects.as_slice()) {
        Ok(()) => Ok(()),
        Err(_) => Err(Stop::Lacks(Lack::Memory)),
    }
}

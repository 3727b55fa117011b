//! Calls of functions that a unit defines (ISO C99, 6.5.2.2 and 6.9.1).

ghost use Rattle.std.specs.Prelude.{◌≡◌, [], IfOk, map, reverse};
ghost use Rattle.cx_core.specs.Linked.{is_main};
ghost use Rattle.cx_core.specs.Views.{view_function};
ghost use Rattle.cx_machine.specs.Entries.{IsAtEntry, Waits};
ghost use Rattle.cr_world.specs.World.{World};
ghost use Rattle.cx_machine.specs.Answers.{held_work};
ghost use Rattle.cx_machine.specs.Machines.{IsAt, view_machine};
ghost use Rattle.cx_mean.specs.Paths.{site_at};
ghost use Rattle.cx_moves.specs.Sites.{view_purpose, view_site};
ghost use Rattle.cx_mean.specs.State.{bottom_of, called_own, taking, values_of_args};
ghost use Rattle.cx_work.specs.Views.{view_finished, view_operand};

use crate::machine::{Caller, Control, Machine};
use cr_base::{Items, Memory};
use cx_core::{Fun, Linkage};
use cx_moves::{Move, Purpose, Site};
use cx_work::{Finished, Operand};
use std::alloc::Global;
use std::mem::replace;

/// Whether a function is `main` (5.1.2.2.1).
pub fn is_main(fun: &Fun) -> bool
    ensures { result ≡ is_main (view_function fun.now) }
{
    if fun.name.bytes() != "main".as_bytes() {
        return false;
    }
    fun.linkage == Linkage::External
}

/// The parameters of a called function begin, and then its body is reached.
pub fn takes_params<'a>(machine: &mut Machine<'a>, fun: &'a Fun, params: &'a [u32])
    requires { IsAtEntry machine.old (view_function fun.now) }
    ensures { IsAt machine.old machine.new (taking (view_function fun.now) params.now (reverse (map view_finished machine.old.args)) machine.old.site.params) }
{
    match params.split_first() {
        Some(_) => {
            machine.control = Control::Takes(fun, params);
        }
        None => {
            machine.control = Control::Moves(Move::Reaches(&fun.body));
        }
    }
}

/// The values of arguments, the last one first.
///
/// # Errors
///
/// `Memory` for want of memory.
pub fn values_of(alloc: Global, args: Items<Operand<'_>>) -> Result<Items<Finished>, Memory>
    ensures { IfOk result (λ values. reverse (map view_finished values) ≡ values_of_args (map view_operand args.entry)) }
{
    let mut args = args;
    let mut values = Items::new(alloc);
    while let Some(one) = args.pop() {
        let Operand { value, .. } = one;
        values.push(value)?;
    }
    Ok(values)
}

/// What stands in a function that was called: no statement is open, and no parameter has begun.
pub fn site_of<'a>(alloc: Global, fun: &Fun) -> Site<'a>
    ensures site { view_site result ≡ site_at [] (bottom_of (view_function fun.now) []) }
    ensures params { result.params ≡ [] }
{
    Site {
        levels: Items::new(alloc),
        way: Items::new(alloc),
        params: Items::new(alloc),
        is_main: is_main(fun),
    }
}

// The function that calls waits.
fn waits<'a>(machine: &mut Machine<'a>, purpose: Purpose<'a>, site: Site<'a>) -> Result<(), Memory>
    ensures { IfOk result (λ _. Waits machine.old machine.new purpose.entry site.entry) }
{
    let site = replace(&mut machine.site, site);
    let work = match machine.work.take() {
        Some(work) => work,
        None => return Err(Memory),
    };
    machine.callers.push(Caller {
        work,
        purpose,
        site,
    })
}

/// A function is called that a unit defines; what called it waits.
///
/// # Errors
///
/// `Memory` for want of memory.
pub fn calls_defined<'a>(
    alloc: Global,
    machine: &mut Machine<'a>,
    purpose: Purpose<'a>,
    fun: &'a Fun,
    args: Items<Operand<'a>>,
) -> Result<(), Memory>
    ensures { IfOk result (λ _. (world : World) → called_own (view_machine machine.old world) (held_work machine.old.work) (view_purpose (view_site machine.old.site) purpose.entry) (view_function fun.now) (map view_operand args.entry) ≡ view_machine machine.new world) }
{
    let values = values_of(alloc, args)?;
    waits(machine, purpose, site_of(alloc, fun))?;
    machine.args = values;
    takes_params(machine, fun, fun.params.as_slice());
    Ok(())
}

//! What follows a full expression (ISO C99, 6.8), and the return of a function (6.8.6.4).

ghost use Rattle.std.specs.Prelude.{◌≡◌, Some, IfOk, map};
ghost use Rattle.cx_core.specs.Views.{puts_of, view_put, view_stmt};
ghost use Rattle.cx_mean.specs.Moves as meaning;
ghost use Rattle.cx_moves.specs.Sites.{view_behind, view_purpose, view_site};
ghost use Rattle.cx_work.specs.Views.{view_finished};
ghost use Rattle.cx_machine.specs.Machines.{GoesTo, TakesUp, is_over, next_at, work_next};

use crate::machine::{Caller, Control, Machine, go};
use cr_base::Memory;
use cx_moves::{Purpose, Putting, Site, innermost, kill_objects, next_of, putting, turning_on};
use cx_work::{Child, Finished, Work, is_finished, resume};
use mem_bytes::Store;
use std::alloc::Global;

/// What follows in the body is next.
///
/// # Errors
///
/// `Memory` for want of memory.
pub fn goes_on_behind<S: Store>(
    alloc: Global,
    machine: &mut Machine<'_>,
    store: &mut S,
) -> Result<(), Memory>
    ensures next { IfOk result (λ _. GoesTo machine.old machine.new (next_at (meaning.next_of (view_site machine.old.site) (S.memory store.old))) (S.memory store.new)) }
    ensures limit { S.limit store.new ≡ S.limit store.old }
{
    match next_of(&mut machine.site, store) {
        Ok(one) => go(alloc, machine, one),
        Err(memory) => Err(memory),
    }
}

/// The loop of the innermost open statement goes on.
///
/// # Errors
///
/// `Memory` for want of memory.
pub fn goes_on_turning<S: Store>(
    alloc: Global,
    machine: &mut Machine<'_>,
    store: &mut S,
) -> Result<(), Memory>
    ensures next { IfOk result (λ _. GoesTo machine.old machine.new (next_at (meaning.turning_on (view_site machine.old.site) (S.memory store.old))) (S.memory store.new)) }
    ensures limit { S.limit store.new ≡ S.limit store.old }
{
    match turning_on(&mut machine.site, store) {
        Ok(one) => go(alloc, machine, one),
        Err(memory) => Err(memory),
    }
}

/// The next put of an object is evaluated, or what is behind its puts follows.
///
/// # Errors
///
/// `Memory` for want of memory.
pub fn goes_on_putting<'a, S: Store>(
    alloc: Global,
    machine: &mut Machine<'a>,
    store: &mut S,
    one: Putting<'a>,
) -> Result<(), Memory>
    ensures next { IfOk result (λ _. GoesTo machine.old machine.new (next_at (meaning.putting one.entry.object (puts_of (map view_put one.entry.others.now)) (view_behind (view_site machine.old.site) one.entry.behind) (S.memory store.old))) (S.memory store.new)) }
    ensures limit { S.limit store.new ≡ S.limit store.old }
{
    match putting(one.object, one.others, one.behind, &mut machine.site, store) {
        Ok(one) => go(alloc, machine, one),
        Err(memory) => Err(memory),
    }
}

/// The objects of a function that returns die.
pub fn end_site<S: Store>(site: &mut Site<'_>, store: &mut S)
    ensures blocks { S.memory store.new ≡ meaning.without_objects (meaning.slots_of_site (view_site site.old)) (S.memory store.old) }
    ensures limit { S.limit store.new ≡ S.limit store.old }
{
    while let Some(level) = innermost(site) {
        kill_objects(store, level.slots.as_slice());
    }
    kill_objects(store, site.params.as_slice());
}

fn is_over(work: &Option<Child<Work<'_>>>) -> Option<bool>
    ensures { result ≡ is_over work.now }
{
    match work {
        Some(work) => Some(is_finished(work.get())),
        None => None,
    }
}

// A full expression goes on that is finished or isn't.
fn goes_on_by<'a, S: Store>(
    alloc: Global,
    machine: &mut Machine<'a>,
    store: &mut S,
    purpose: Purpose<'a>,
    over: bool,
) -> Result<(), Memory>
    requires { Some over ≡ is_over machine.old.work }
    ensures next { IfOk result (λ _. GoesTo machine.old machine.new (work_next machine.old.work (view_purpose (view_site machine.old.site) purpose.entry) (S.memory store.old)) (S.memory store.new)) }
    ensures limit { S.limit store.new ≡ S.limit store.old }
{
    if !over {
        machine.control = Control::Values(purpose);
        return Ok(());
    }
    match purpose {
        Purpose::Drops => goes_on_behind(alloc, machine, store),
        Purpose::Turns => goes_on_turning(alloc, machine, store),
        Purpose::Puts(one) => {
            machine.control = Control::Values(Purpose::Puts(one));
            Ok(())
        }
        Purpose::Gives(place) => {
            machine.control = Control::Values(Purpose::Gives(place));
            Ok(())
        }
        Purpose::Chooses(place) => {
            machine.control = Control::Values(Purpose::Chooses(place));
            Ok(())
        }
    }
}

/// The full expression that is held goes on. Where its last step was taken and its value is dropped, what follows is
/// next at once.
///
/// # Errors
///
/// `Memory` for want of memory.
pub fn goes_on<'a, S: Store>(
    alloc: Global,
    machine: &mut Machine<'a>,
    store: &mut S,
    purpose: Purpose<'a>,
) -> Result<(), Memory>
    ensures next { IfOk result (λ _. GoesTo machine.old machine.new (work_next machine.old.work (view_purpose (view_site machine.old.site) purpose.entry) (S.memory store.old)) (S.memory store.new)) }
    ensures limit { S.limit store.new ≡ S.limit store.old }
{
    match is_over(&machine.work) {
        Some(over) => goes_on_by(alloc, machine, store, purpose, over),
        None => Err(Memory),
    }
}

// The function that called goes on with what it was given; its full expression is the one that is held.
pub(crate) fn takes_up<'a>(
    alloc: Global,
    machine: &mut Machine<'a>,
    caller: Caller<'a>,
    value: Finished,
) -> Result<Purpose<'a>, Memory>
    ensures { IfOk result (λ purpose. TakesUp machine.old machine.new caller.entry (view_finished value) purpose) }
{
    let Caller {
        mut work,
        purpose,
        site,
    } = caller;
    resume(alloc, work.get_mut(), value)?;
    machine.site = site;
    machine.work = Some(work);
    Ok(purpose)
}

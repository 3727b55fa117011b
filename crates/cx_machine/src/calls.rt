//! Calls from a full expression (ISO C99, 6.5.2.2).

ghost use Rattle.std.specs.Prelude.{◌≡◌, IfOk};
ghost use Rattle.cx_access.specs.Views.{view_setting};
ghost use Rattle.cx_core.specs.Views.{view_outer};
ghost use Rattle.cx_machine.specs.Answers.{Fills, GoesOnWith, answered_with, stop_of};
ghost use Rattle.cx_machine.specs.Machines.{view_machine};
ghost use Rattle.cx_machine.specs.Steps.{Advances};
ghost use Rattle.cx_mean.specs.Calls.{external_call};
ghost use Rattle.cx_moves.specs.Sites.{view_purpose, view_site};
ghost use Rattle.cx_outside.specs.States.{around};
ghost use Rattle.cx_work.specs.Views.{view_called, view_finished};

use crate::machine::Machine;
use crate::steps::goes_on;
use crate::stop::Stop;
use cr_base::Memory;
use cx_access::Setting;
use cx_core::Outer;
use cx_moves::Purpose;
use cx_outside::{Halt, Kept, Lack, Returned, external_call};
use cx_work::{Called, Child, Finished, Work, resume};
use ext_calls::Host;
use mem_bytes::Store;
use std::alloc::Global;

fn fills<'a>(
    alloc: Global,
    work: &mut Option<Child<Work<'a>>>,
    value: Finished,
) -> Result<(), Memory>
    ensures { IfOk result (λ _. Fills work.old work.new (view_finished value)) }
{
    match work {
        Some(work) => resume(alloc, work.get_mut(), value),
        None => Err(Memory),
    }
}

// The value of a call takes its place, and the full expression goes on.
fn goes_on_with<'a, S: Store>(
    alloc: Global,
    machine: &mut Machine<'a>,
    store: &mut S,
    purpose: Purpose<'a>,
    value: Finished,
) -> Result<(), Memory>
    ensures next { IfOk result (λ _. GoesOnWith machine.old machine.new purpose.entry (view_finished value) (S.memory store.old) (S.memory store.new)) }
    ensures limit { S.limit store.new ≡ S.limit store.old }
{
    match fills(alloc, &mut machine.work, value) {
        Ok(()) => goes_on(alloc, machine, store, purpose),
        Err(memory) => Err(memory),
    }
}

fn stop_of<'a>(halt: Halt<'a>) -> Stop<'a>
    ensures { result ≡ stop_of halt.entry }
{
    match halt {
        Halt::Undefined(rule, place) => Stop::Undefined(rule, place),
        Halt::Lacks(lack) => Stop::Lacks(lack),
    }
}

/// A function is called that no unit defines.
///
/// # Errors
///
/// Why the run goes no further.
pub fn calls_external<'a, S: Store, H: Host>(
    kept: &mut Kept,
    machine: &mut Machine<'a>,
    store: &mut S,
    host: &mut H,
    setting: &Setting<'a>,
    purpose: Purpose<'a>,
    called: &Called<'a>,
    outer: &'a Outer,
) -> Result<(), Stop<'a>>
    ensures { Advances (λ world. answered_with (view_machine machine.old world) machine.old.work (view_purpose (view_site machine.old.site) purpose.entry) (external_call (view_setting setting.now) (view_called called.now) (view_outer outer.now) world))
        result (view_machine machine.new)
        (around kept.old (S.memory store.old) (S.limit store.old) (H.state host.old)) (around kept.new (S.memory store.new) (S.limit store.new) (H.state host.new)) }
{
    match external_call(kept, store, host, setting, called, outer) {
        Ok(Returned::Gives(value)) => match goes_on_with(
            kept.alloc(),
            machine,
            store,
            purpose,
            value,
        ) {
            Ok(()) => Ok(()),
            Err(_) => Err(Stop::Lacks(Lack::Memory)),
        },
        Ok(Returned::Ends(status)) => Err(Stop::Ended(status)),
        Err(halt) => Err(stop_of(halt)),
    }
}

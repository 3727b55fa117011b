//! Full expressions that take steps (ISO C99, 5.1.2.3 and 6.5).

ghost use Rattle.std.specs.Prelude.{◌≡◌, ◌<◌, [], IfSome};
ghost use Rattle.cx_access.specs.Views.{view_setting};
ghost use Rattle.cx_machine.specs.Answers.{held_work};
ghost use Rattle.cx_machine.specs.Machines.{view_machine};
ghost use Rattle.cx_machine.specs.Steps.{Advances, StoreAdvances};
ghost use Rattle.cx_mean.specs.State.{calling, expression_step, going_on};
ghost use Rattle.cx_mean.specs.Steps.{picked};
ghost use Rattle.cx_mean.specs.Work.{ready};
ghost use Rattle.cx_moves.specs.Sites.{view_purpose, view_site};
ghost use Rattle.cx_outside.specs.States.{around};
ghost use Rattle.cx_steps.specs.Choices.{stands_in_body};
ghost use Rattle.cx_steps.specs.Picks.{Follows, IsGone, IsHeld, IsStepped, evaluating_in};
ghost use Rattle.cx_steps.specs.Several.{AdvancesBy};
ghost use Rattle.cx_work.specs.Views.{view_called, view_work};

use crate::uses::{is_in_body, scope_of};
use cr_base::Memory;
use cx_access::Setting;
use cx_eval::{Last, Next, take_step_in, take_steps_in};
use cx_machine::{Machine, Stop, calls_defined, calls_external, goes_on};
use cx_moves::Purpose;
use cx_outside::{Kept, Lack};
use cx_work::{Called, Callee, Work, counted};
use ext_calls::Host;
use mem_bytes::Store;
use std::alloc::Global;

/// The ready node that is taken, and the numbers of the order that are left.
#[derive(Clone, Copy)]
struct Pick<'a> {
    pick: u64,
    order: &'a [u32],
}

// Which ready node goes next: where two or more are ready, the one with the next number of the order modulo their count.
fn picked<'a>(order: &'a [u32], work: &Work<'_>) -> Option<Pick<'a>>
    ensures { IfSome result (λ one. picked order.now (ready (view_work work.now)) ≡ record { pick = one.pick; order = one.order.now }) }
{
    let Some((next, others)) = order.split_first() else {
        return Some(Pick { pick: 0, order });
    };
    let Some(count) = counted(work) else {
        return None;
    };
    if count < 2 {
        return Some(Pick { pick: 0, order });
    }
    Some(Pick {
        pick: u64::from(*next) % count,
        order: others,
    })
}

// Whether a full expression stands in a body.
fn stands_in_body(purpose: Purpose<'_>) -> bool
    ensures { result ≡ stands_in_body purpose.entry }
{
    match purpose {
        Purpose::Puts(one) => is_in_body(one.behind),
        Purpose::Drops => true,
        Purpose::Turns => true,
        Purpose::Gives(_) => true,
        Purpose::Chooses(_) => true,
    }
}

// The full expression that is held takes a step.
fn steps<'a, S: Store>(
    alloc: Global,
    machine: &mut Machine<'a>,
    store: &mut S,
    setting: &Setting<'a>,
    purpose: Purpose<'a>,
) -> Result<Next<'a>, Memory>
    ensures step { IsStepped result (view_setting setting.now) machine.old machine.new purpose.entry (S.memory store.old) (S.memory store.new) }
    ensures limit { S.limit store.new ≡ S.limit store.old }
{
    let Some(mut work) = machine.work.take() else {
        return Err(Memory);
    };
    let Some(one) = picked(machine.order, work.get()) else {
        return Err(Memory);
    };
    machine.order = one.order;
    let objects = scope_of(machine, stands_in_body(purpose));
    let next = take_step_in(alloc, work.get_mut(), one.pick, &objects, setting, store);
    machine.work = Some(work);
    next
}

// The full expression that is held takes steps at its leftmost ready nodes, `most` at most.
fn steps_on<'a, S: Store>(
    alloc: Global,
    machine: &mut Machine<'a>,
    store: &mut S,
    setting: &Setting<'a>,
    purpose: Purpose<'a>,
    most: u64,
) -> Result<Last<'a>, Memory>
    ensures steps { IsGone result (view_setting setting.now) machine.old machine.new purpose.entry (S.memory store.old) (S.memory store.new) most }
    ensures limit { S.limit store.new ≡ S.limit store.old }
{
    let Some(mut work) = machine.work.take() else {
        return Err(Memory);
    };
    let objects = scope_of(machine, stands_in_body(purpose));
    let last = take_steps_in(alloc, work.get_mut(), most, &objects, setting, store);
    machine.work = Some(work);
    last
}

// A function is called from the full expression that is held.
fn calls<'a, S: Store, H: Host>(
    kept: &mut Kept,
    machine: &mut Machine<'a>,
    store: &mut S,
    host: &mut H,
    setting: &Setting<'a>,
    purpose: Purpose<'a>,
    called: Called<'a>,
) -> Result<(), Stop<'a>>
    ensures steps { Advances (λ world. calling (view_setting setting.now) (view_machine machine.old world) (held_work machine.old.work) (view_purpose (view_site machine.old.site) purpose.entry) (view_called called.entry) (view_called called.entry).callee)
        result (view_machine machine.new)
        (around kept.old (S.memory store.old) (S.limit store.old) (H.state host.old)) (around kept.new (S.memory store.new) (S.limit store.new) (H.state host.new)) }
{
    match called.callee {
        Callee::External(outer) => {
            calls_external(kept, machine, store, host, setting, purpose, &called, outer)
        }
        Callee::Defined(fun) => {
            match calls_defined(kept.alloc(), machine, purpose, fun, called.args) {
                Ok(()) => Ok(()),
                Err(_) => Err(Stop::Lacks(Lack::Memory)),
            }
        }
    }
}

// The full expression that is held goes on behind its step.
fn goes_further<'a, S: Store>(
    alloc: Global,
    machine: &mut Machine<'a>,
    store: &mut S,
    purpose: Purpose<'a>,
) -> Result<(), Stop<'a>>
    requires { IsHeld machine.old.work }
    ensures steps { StoreAdvances (λ world. going_on (view_machine machine.old world) world (held_work machine.old.work) (view_purpose (view_site machine.old.site) purpose.entry)) result (view_machine machine.new)
        (S.memory store.old) (S.memory store.new) (S.limit store.old) (S.limit store.new) }
    ensures limit { S.limit store.new ≡ S.limit store.old }
{
    match goes_on(alloc, machine, store, purpose) {
        Ok(()) => Ok(()),
        Err(_) => Err(Stop::Lacks(Lack::Memory)),
    }
}

// What comes of the last step of the full expression that is held is next.
fn follows<'a, S: Store, H: Host>(
    kept: &mut Kept,
    machine: &mut Machine<'a>,
    store: &mut S,
    host: &mut H,
    setting: &Setting<'a>,
    purpose: Purpose<'a>,
    next: Next<'a>,
) -> Result<(), Stop<'a>>
    requires { IsHeld machine.old.work }
    ensures { Follows next.entry result (view_setting setting.now) machine.old purpose.entry (view_machine machine.new)
        (around kept.old (S.memory store.old) (S.limit store.old) (H.state host.old)) (around kept.new (S.memory store.new) (S.limit store.new) (H.state host.new)) }
{
    match next {
        Next::Stepped => goes_further(kept.alloc(), machine, store, purpose),
        Next::Calls(called) => calls(
            kept,
            machine,
            store,
            host,
            setting,
            purpose,
            called.into_inner(),
        ),
        Next::Undefined(rule, place) => Err(Stop::Undefined(rule, place)),
    }
}

/// The full expression that is held takes a step, and what comes of it is next.
///
/// # Errors
///
/// `Ended` where a call ends the program, `Undefined` where the step is, and `Lacks` where the outside gives no answer, the store is full, and for
/// want of memory.
pub(crate) fn evaluates<'a, S: Store, H: Host>(
    kept: &mut Kept,
    machine: &mut Machine<'a>,
    store: &mut S,
    host: &mut H,
    setting: &Setting<'a>,
    purpose: Purpose<'a>,
) -> Result<(), Stop<'a>>
    ensures steps { Advances (λ world. expression_step (view_setting setting.now) (view_machine machine.old world) (held_work machine.old.work) (view_purpose (view_site machine.old.site) purpose.entry)) result (view_machine machine.new)
        (around kept.old (S.memory store.old) (S.limit store.old) (H.state host.old)) (around kept.new (S.memory store.new) (S.limit store.new) (H.state host.new)) }
{
    match steps(kept.alloc(), machine, store, setting, purpose) {
        Ok(next) => follows(kept, machine, store, host, setting, purpose, next),
        Err(_) => Err(Stop::Lacks(Lack::Memory)),
    }
}

/// The full expression that is held takes steps without an order, `most` at most, and what comes of the last one is next. How many were taken before
/// that one is set down; where memory is wanting, that is 0, whatever was taken.
///
/// # Errors
///
/// As `evaluates`, behind the steps before the last one.
pub(crate) fn evaluates_on<'a, S: Store, H: Host>(
    kept: &mut Kept,
    machine: &mut Machine<'a>,
    store: &mut S,
    host: &mut H,
    setting: &Setting<'a>,
    purpose: Purpose<'a>,
    most: u64,
    before: &mut u64,
) -> Result<(), Stop<'a>>
    requires most { 0 < most }
    requires order { machine.old.order.now ≡ [] }
    ensures { AdvancesBy (view_setting setting.now) most before.new (λ world. evaluating_in (view_machine machine.old world) (held_work machine.old.work) (view_purpose (view_site machine.old.site) purpose.entry)) result (view_machine machine.new)
        (around kept.old (S.memory store.old) (S.limit store.old) (H.state host.old)) (around kept.new (S.memory store.new) (S.limit store.new) (H.state host.new)) }
{
    match steps_on(kept.alloc(), machine, store, setting, purpose, most) {
        Ok(last) => {
            *before = last.before;
            follows(kept, machine, store, host, setting, purpose, last.next)
        }
        Err(_) => {
            *before = 0;
            Err(Stop::Lacks(Lack::Memory))
        }
    }
}

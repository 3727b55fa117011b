//! The next step of a run, and several at once without an order (ISO C99, 5.1.2.3).

ghost use Rattle.std.specs.Prelude.{◌≡◌, ◌<◌, None, IfOk, IfSome};
ghost use Rattle.cx_access.specs.Views.{view_setting};
ghost use Rattle.cx_machine.specs.Machines.{is_over, values_in, view_machine};
ghost use Rattle.cx_machine.specs.Steps.{Advances, StoreAdvances};
ghost use Rattle.cx_mean.specs.State.{c_step, move_step, step_of};
ghost use Rattle.cx_moves.specs.Sites.{view_left, view_move, view_purpose, view_site};
ghost use Rattle.cx_steps.specs.Moved.{MovesOn};
ghost use Rattle.cx_steps.specs.Picks.{GivesValue, IsUnordered, IsValueOf};
ghost use Rattle.cx_steps.specs.Several.{AdvancesBy};
ghost use Rattle.cx_outside.specs.States.{around};
ghost use Rattle.cx_work.specs.Views.{view_finished, view_work};

use crate::bodies::{begins, reaches};
use crate::entry::calls_main;
use crate::evaluating::{evaluates, evaluates_on};
use crate::params::takes;
use crate::uses::uses;
use cr_base::{Int, Memory};
use cx_access::Setting;
use cx_machine::{Control, Machine, Stop, begins_static, go, returns};
use cx_moves::{Left, Move, Purpose};
use cx_outside::{Kept, Lack};
use cx_work::{Child, Finished, Work, finish, is_finished};
use ext_calls::Host;
use mem_bytes::{Store, Value};
use std::alloc::Global;

// What the end of a function gives.
fn left_value(left: Left) -> Finished
    ensures { view_finished result ≡ view_left left }
{
    match left {
        Left::Nothing => Finished::Missing,
        Left::Zero => Finished::Scalar(Value::Whole(Int::from(0u8))),
    }
}

// What takes no part in the outside, and may only want memory.
fn moves_inside<'a, S: Store>(
    alloc: Global,
    machine: &mut Machine<'a>,
    store: &mut S,
    setting: &Setting<'a>,
    one: Move<'a>,
) -> Result<(), Memory>
    ensures next { IfOk result (λ _. MovesOn (view_setting setting.now) (view_move machine.old.site one.entry) machine.old machine.new (S.memory store.old) (S.memory store.new)) }
    ensures limit { S.limit store.new ≡ S.limit store.old }
{
    match one {
        Move::Values(value, purpose) => go(alloc, machine, Move::Values(value, purpose)),
        Move::Reaches(stmt) => reaches(alloc, machine, store, setting, stmt),
        Move::CallsMain => calls_main(alloc, machine, setting),
        Move::Begins { .. } => Err(Memory),
        Move::Leaves(_) => Err(Memory),
        Move::Nowhere(_) => Err(Memory),
    }
}

// The same as a step.
fn moves_on<'a, S: Store>(
    alloc: Global,
    machine: &mut Machine<'a>,
    store: &mut S,
    setting: &Setting<'a>,
    one: Move<'a>,
) -> Result<(), Stop<'a>>
    ensures steps { StoreAdvances (λ world. move_step (view_setting setting.now) (view_machine machine.old world) (view_move machine.old.site one.entry)) result (view_machine machine.new)
        (S.memory store.old) (S.memory store.new) (S.limit store.old) (S.limit store.new) }
    ensures limit { S.limit store.new ≡ S.limit store.old }
{
    match moves_inside(alloc, machine, store, setting, one) {
        Ok(()) => Ok(()),
        Err(_) => Err(Stop::Lacks(Lack::Memory)),
    }
}

// What comes next in a body.
fn moves<'a, S: Store>(
    alloc: Global,
    machine: &mut Machine<'a>,
    store: &mut S,
    setting: &Setting<'a>,
    one: Move<'a>,
) -> Result<(), Stop<'a>>
    ensures steps { StoreAdvances (λ world. move_step (view_setting setting.now) (view_machine machine.old world) (view_move machine.old.site one.entry)) result (view_machine machine.new)
        (S.memory store.old) (S.memory store.new) (S.limit store.old) (S.limit store.new) }
    ensures limit { S.limit store.new ≡ S.limit store.old }
{
    match one {
        Move::Begins {
            object,
            others,
            goal,
        } => begins(alloc, machine, store, setting, object, others, goal),
        Move::Leaves(left) => returns(alloc, machine, store, left_value(left)),
        Move::Values(_, _) => moves_on(alloc, machine, store, setting, one),
        Move::Reaches(_) => moves_on(alloc, machine, store, setting, one),
        Move::CallsMain => moves_on(alloc, machine, store, setting, one),
        Move::Nowhere(_) => Err(Stop::Lacks(Lack::Memory)),
    }
}

fn is_over(work: &Option<Child<Work<'_>>>) -> Option<bool>
    ensures { result ≡ is_over work.now }
{
    match work {
        Some(work) => Some(is_finished(work.get())),
        None => None,
    }
}

// What a finished expression gives.
#[tactic(auto, using(crate::proofs::Going::value_is))]
fn value_of(work: Child<Work<'_>>) -> Option<Finished>
    ensures { IfSome result (λ value. IsValueOf (view_work work.entry) (view_finished value)) }
{
    if is_finished(work.get()) {
        return Some(finish(work.into_inner()));
    }
    None
}

// The value of the full expression that is held, which is finished.
fn take_value(machine: &mut Machine<'_>) -> Option<Finished>
    ensures value { IfSome result (λ value. GivesValue machine.old.work (view_finished value)) }
    ensures rest { machine.new ≡ record machine.old { work = None } }
{
    match machine.work.take() {
        Some(work) => value_of(work),
        None => None,
    }
}

// The full expression that is held is finished, and its value is used.
fn uses_value<'a, S: Store>(
    alloc: Global,
    machine: &mut Machine<'a>,
    store: &mut S,
    setting: &Setting<'a>,
    purpose: Purpose<'a>,
) -> Result<(), Stop<'a>>
    ensures steps { StoreAdvances (λ world. step_of (view_setting setting.now) (view_machine machine.old world) (values_in machine.old.work (view_purpose (view_site machine.old.site) purpose.entry))) result (view_machine machine.new)
        (S.memory store.old) (S.memory store.new) (S.limit store.old) (S.limit store.new) }
    ensures limit { S.limit store.new ≡ S.limit store.old }
{
    match take_value(machine) {
        Some(value) => uses(alloc, machine, store, setting, purpose, value),
        None => Err(Stop::Lacks(Lack::Memory)),
    }
}

// A full expression takes a step, or its value is used.
fn values<'a, S: Store, H: Host>(
    kept: &mut Kept,
    machine: &mut Machine<'a>,
    store: &mut S,
    host: &mut H,
    setting: &Setting<'a>,
    purpose: Purpose<'a>,
) -> Result<(), Stop<'a>>
    ensures { Advances (λ world. step_of (view_setting setting.now) (view_machine machine.old world) (values_in machine.old.work (view_purpose (view_site machine.old.site) purpose.entry))) result (view_machine machine.new)
        (around kept.old (S.memory store.old) (S.limit store.old) (H.state host.old)) (around kept.new (S.memory store.new) (S.limit store.new) (H.state host.new)) }
{
    match is_over(&machine.work) {
        Some(true) => uses_value(kept.alloc(), machine, store, setting, purpose),
        Some(false) => evaluates(kept, machine, store, host, setting, purpose),
        None => Err(Stop::Lacks(Lack::Memory)),
    }
}

/// The run takes its next step.
///
/// # Errors
///
/// Why it goes no further.
fn take<'a, S: Store, H: Host>(
    kept: &mut Kept,
    machine: &mut Machine<'a>,
    store: &mut S,
    host: &mut H,
    setting: &Setting<'a>,
) -> Result<(), Stop<'a>>
    ensures { Advances (λ world. c_step (view_setting setting.now) (view_machine machine.old world)) result (view_machine machine.new)
        (around kept.old (S.memory store.old) (S.limit store.old) (H.state host.old)) (around kept.new (S.memory store.new) (S.limit store.new) (H.state host.new)) }
{
    match machine.control {
        Control::Begins(one, others) => {
            begins_static(kept.alloc(), machine, store, setting, one, others)
        }
        Control::Moves(one) => moves(kept.alloc(), machine, store, setting, one),
        Control::Values(purpose) => values(kept, machine, store, host, setting, purpose),
        Control::Takes(fun, params) => { takes(kept.alloc(), machine, store, setting, fun, params) }
    }
}

// What the full expression is for that takes the next step, where no number of the order is left.
fn unordered<'a>(machine: &Machine<'a>) -> Option<Purpose<'a>>
    ensures { IfSome result (λ purpose. IsUnordered machine.now purpose) }
{
    if !machine.order.is_empty() {
        return None;
    }
    let Control::Values(purpose) = machine.control else {
        return None;
    };
    match is_over(&machine.work) {
        Some(true) => None,
        Some(false) => Some(purpose),
        None => None,
    }
}

/// The run takes its next step, and without an order perhaps some before it, which are steps of one full expression; all of them together
/// are `most` at most. How many were taken before the last one is set down; where memory is wanting, that is 0, whatever was taken.
///
/// # Errors
///
/// Why it goes no further behind those before the last one.
pub fn take_some<'a, S: Store, H: Host>(
    kept: &mut Kept,
    machine: &mut Machine<'a>,
    store: &mut S,
    host: &mut H,
    setting: &Setting<'a>,
    most: u64,
    before: &mut u64,
) -> Result<(), Stop<'a>>
    requires { 0 < most }
    ensures { AdvancesBy (view_setting setting.now) most before.new (view_machine machine.old) result (view_machine machine.new)
        (around kept.old (S.memory store.old) (S.limit store.old) (H.state host.old)) (around kept.new (S.memory store.new) (S.limit store.new) (H.state host.new)) }
{
    match unordered(machine) {
        Some(purpose) => evaluates_on(kept, machine, store, host, setting, purpose, most, before),
        None => {
            *before = 0;
            take(kept, machine, store, host, setting)
        }
    }
}

//! Runs of C programs (ISO C99, 5.1.2.3).

ghost use Rattle.std.specs.Prelude.{◌≡◌, ◌+◌, ◌<◌, ◌≤◌, ◌^◌, ◌++◌, [], IfOk, OnErr, option_map};
ghost use Rattle.cx_access.specs.Views.{view_setting};
ghost use Rattle.cx_core.specs.Layouts.{layouts_of};
ghost use Rattle.cx_core.specs.Views.{view_program, view_types};
ghost use Rattle.cx_exec.specs.Exec.{AsksHost, HasFailed, IsProgress, IsRun, IsShort, TookSteps, progress_within, world_within};
ghost use Rattle.cx_exec.specs.Far.{IsEnd, IsFar, IsSetting, IsStart};
ghost use Rattle.cx_machine.specs.Steps.{taken_of};
ghost use Rattle.cx_outside.specs.States.{AreGiven, AreTaken};

use crate::outcome::{COutcome, CRun};
use crate::stop::outcome_of;
use cr_base::{Items, Memory};
use cx_access::Setting;
use cx_core::Program;
use cx_layout::{LayoutFault, Layouts, types_are_grounded};
use cx_machine::{Control, Machine, Stop, goes_to_statics};
use cx_moves::{Move, Site};
use cx_outside::Kept;
use cx_steps::take_some;
use ext_calls::Host;
use mem_bytes::Store;
use std::alloc::Global;

/// How many steps a run took, and why it took no more, if it stopped.
#[derive(Clone, Copy)]
pub(crate) struct Far<'a> {
    taken: u64,
    stop: Option<Stop<'a>>,
}

// The layouts of the records of a program.
fn layouts_of(alloc: Global, program: &Program) -> Result<Layouts, Memory>
    ensures { IfOk result (λ layouts. layouts ≡ layouts_of (view_types program.now.types)) }
{
    types_are_grounded();
    match Layouts::build(alloc, &program.parts().types) {
        Ok(layouts) => Ok(layouts),
        Err(LayoutFault::Memory) => Err(Memory),
        Err(LayoutFault::TooLarge) => unreachable!(),
    }
}

// A run in which nothing is held.
fn nothing_held<'a>(alloc: Global, order: &'a [u32]) -> Machine<'a>
    ensures statics { result.statics ≡ [] }
    ensures callers { result.callers ≡ [] }
    ensures order { result.order.now ≡ order.now }
{
    Machine {
        control: Control::Moves(Move::CallsMain),
        site: Site {
            levels: Items::new(alloc),
            way: Items::new(alloc),
            params: Items::new(alloc),
            is_main: false,
        },
        work: None,
        args: Items::new(alloc),
        statics: Items::new(alloc),
        callers: Items::new(alloc),
        order,
    }
}

// A run before its first step: the first static object begins.
fn started<'a>(
    alloc: Global,
    setting: &Setting<'a>,
    order: &'a [u32],
) -> Result<Machine<'a>, Memory>
    ensures start { IfOk result (λ machine. IsStart (view_setting setting.now).program machine) }
    ensures order { IfOk result (λ machine. machine.order.now ≡ order.now) }
{
    let mut machine = nothing_held(alloc, order);
    let objects = setting.program.objects.as_slice();
    match goes_to_statics(alloc, &mut machine, objects, objects) {
        Ok(()) => Ok(machine),
        Err(memory) => Err(memory),
    }
}

// A run takes so many steps at most.
fn steps_on<'a, S: Store, H: Host>(
    kept: &mut Kept,
    machine: &mut Machine<'a>,
    store: &mut S,
    host: &mut H,
    setting: &Setting<'a>,
    steps: u64,
) -> Far<'a>
    requires setting { IsSetting (view_setting setting.now) }
    requires start { IsStart (view_setting setting.now).program machine.old }
    requires kept { kept.old ≡ record { trail = []; heap = [] } }
    requires empty { S.memory store.old ≡ [] }
    ensures { IsFar (record { program = (view_setting setting.now).program; order = machine.old.order.now; limit = S.limit store.old; trail = kept.new.trail }) steps
        (H.state host.old) (H.state host.new) result.taken result.stop }
{
    let mut taken = 0;
    while taken < steps {
        let mut before = 0;
        if let Err(stop) = take_some(
            kept,
            machine,
            store,
            host,
            setting,
            steps - taken,
            &mut before,
        ) {
            return Far {
                taken: taken + before,
                stop: Some(stop),
            };
        }
        taken += before + 1;
    }
    Far { taken, stop: None }
}

// The steps that a run took, with the one in which it stopped unless that lacks something.
fn steps_of(stop: Stop<'_>, taken: u64) -> u64
    requires { taken < 2 ^ 63 }
    ensures { result ≡ taken_of stop.entry taken }
{
    match stop {
        Stop::Ended(_) => taken + 1,
        Stop::Undefined(_, _) => taken + 1,
        Stop::Lacks(_) => taken,
    }
}

// What a run came to.
fn ended(alloc: Global, kept: Kept, far: Far<'_>) -> Result<CRun, Memory>
    requires { far.taken < 2 ^ 63 }
    ensures { IfOk result (λ run. IsEnd far.entry run kept.trail) }
{
    let trail = kept.into_trail();
    let Some(stop) = far.stop else {
        return Ok(CRun {
            outcome: COutcome::StepsUsed,
            trail,
            steps: far.taken,
        });
    };
    let outcome = outcome_of(alloc, stop)?;
    Ok(CRun {
        outcome,
        trail,
        steps: steps_of(stop, far.taken),
    })
}

// Runs a program in its setting.
fn run_in<S: Store, H: Host>(
    alloc: Global,
    setting: &Setting<'_>,
    order: &[u32],
    steps: u64,
    store: &mut S,
    host: &mut H,
) -> Result<CRun, Memory>
    requires setting { IsSetting (view_setting setting.now) }
    requires steps { steps ≤ 1000000000 }
    requires empty { S.memory store.old ≡ [] }
    ensures run { IfOk result (λ run. IsRun (record { program = (view_setting setting.now).program; order = order.now; limit = S.limit store.old; trail = run.trail }) steps
        (H.state host.old) (H.state host.new) run.outcome run.steps) }
    ensures short { OnErr result (IsShort (view_setting setting.now).program order.now (S.limit store.old) steps (H.state host.old) (H.state host.new)) }
{
    let mut machine = started(alloc, setting, order)?;
    let mut kept = Kept::new(alloc);
    let far = steps_on(&mut kept, &mut machine, store, host, setting, steps);
    ended(alloc, kept, far)
}

/// Runs a program over a store in which no block was made, with the answers of a host, for `steps` steps at most, at most
/// 1,000,000,000. Where two or more nodes of an expression are ready, the one with the next number of `order` modulo their count
/// takes its step, and the leftmost where no number is left. A step is the beginning of an object's life, a load, a store, an operator or a
/// conversion, a statement that is reached, a choice by a controlling expression, a call, or a return.
///
/// # Errors
///
/// `Memory` for want of memory.
pub fn run_c<S: Store, H: Host>(
    alloc: Global,
    program: &Program,
    order: &[u32],
    steps: u64,
    store: &mut S,
    host: &mut H,
) -> Result<CRun, Memory>
    requires steps { steps ≤ 1000000000 }
    requires empty { S.memory store.old ≡ [] }

    // The outcome is how far the meaning comes under the order and the trail within the steps.
    ensures outcome { IfOk result (λ run.
        IsProgress run.outcome (progress_within (record { program = view_program program.now; order = order.now; limit = S.limit store.old; trail = run.trail }) steps)) }

    // It takes all answers of the trail; those of an allocation are 0 exactly where the limit of the store
    // refuses the block, and 1 otherwise, since the meaning goes astray by any other.
    ensures trail { IfOk result (λ run.
        (world_within (record { program = view_program program.now; order = order.now; limit = S.limit store.old; trail = run.trail }) steps).answers ≡ []) }

    // The steps that it took.
    ensures taken { IfOk result (λ run.
        TookSteps (record { program = view_program program.now; order = order.now; limit = S.limit store.old; trail = run.trail }) steps run.outcome run.steps) }

    // The calls that it made, with the answers of the host.
    ensures told { IfOk result (λ run. (H.state host.new).made ≡ option_map
        (λ made. made ++ (world_within (record { program = view_program program.now; order = order.now; limit = S.limit store.old; trail = run.trail }) steps).made)
        (H.state host.old).made) }
    ensures given { IfOk result (λ run.
        AreGiven (world_within (record { program = view_program program.now; order = order.now; limit = S.limit store.old; trail = run.trail }) steps).made
        (H.state host.old).left (H.state host.new).left) }
    ensures takes { IfOk result (λ run.
        AreTaken (H.state host.old).takes (world_within (record { program = view_program program.now; order = order.now; limit = S.limit store.old; trail = run.trail }) steps).made) }

    // The call at which the host stopped it.
    ensures asks { IfOk result (λ run. AsksHost (H.state host.old) run.outcome
        (progress_within (record { program = view_program program.now; order = order.now; limit = S.limit store.old; trail = run.trail }) steps)) }
    ensures failed { IfOk result (λ run. HasFailed (H.state host.old) (H.state host.new) run.outcome) }

    // Where memory is wanting, the host was asked for what the run asks within some of the steps.
    ensures short { OnErr result (IsShort (view_program program.now) order.now (S.limit store.old) steps (H.state host.old) (H.state host.new)) }
{
    let layouts = layouts_of(alloc, program)?;
    let setting = Setting {
        program: program.parts(),
        layouts: &layouts,
    };
    run_in(alloc, &setting, order, steps, store, host)
}

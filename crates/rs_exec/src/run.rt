//! The run of a crate.

ghost use Rattle.std.specs.Prelude.{◌≡◌, ◌≤◌, ◌++◌, [], true, IfOk, OnErr, map, option_map};
ghost use Rattle.rs_exec.specs.Ends.{RunsTo};
ghost use Rattle.rs_exec.specs.Exec.{AsksHost, HasFailed, IsProgress, IsShort, TookSteps, progress_within, world_within};
ghost use Rattle.rs_machine.specs.States.{AreGiven, AreTaken};
ghost use Rattle.rs_mean.specs.Typing.{well_typed};
ghost use Rattle.rs_text.specs.Valid.{valid_crate};
ghost use Rattle.rs_scene.specs.Scenes.{IsScene};
ghost use Rattle.rs_tree.specs.Views.{crate_view, module_view};

use crate::outcome::{RRun, outcome_of, steps_told};
use crate::program::main_run;
use cr_base::Memory;
use ext_calls::Host;
use mem_bytes::Store;
use rs_machine::Machine;
use rs_scene::{Scene, functions_of, statics_of};
use rs_tree::Crate;
use std::alloc::Global;

/// How deep calls, blocks and expressions may be nested, all together.
const MOST_ROOM: u32 = 14_000;

// The run of the modules of a crate, of which one is the entry.
fn run_scene<'t, S: Store, H: Host>(
    alloc: Global,
    scene: Scene<'t, '_>,
    number: u32,
    steps: u64,
    store: &mut S,
    host: &mut H,
) -> Result<RRun, Memory>
    requires scene { IsScene scene }
    requires empty { S.memory store.old ≡ [] }
    ensures run { IfOk result (λ run. RunsTo (record { modules = map module_view scene.entry.modules.now; entry = number }) steps (S.limit store.old) (H.state host.old) (H.state host.new) run) }
    ensures short { OnErr result (IsShort (record { modules = map module_view scene.entry.modules.now; entry = number }) (S.limit store.old) steps (H.state host.old) (H.state host.new)) }
{
    let mut machine = Machine::new(alloc, steps);
    let halt = main_run(&mut machine, store, host, scene, MOST_ROOM, number);
    let left = machine.units();
    let outcome = match outcome_of(alloc, halt) {
        Ok(outcome) => outcome,
        Err(_) => return Err(Memory),
    };
    let told = steps_told(&outcome, steps - left);
    Ok(RRun {
        outcome,
        trail: machine.into_trail(),
        steps: told,
    })
}

/// Runs a crate that is valid and well typed over a store in which no block was made, with the answers of
/// a host, within a budget of `steps` units, at most 1,000,000,000. Each turn of a loop and each call of a
/// function of the crate or of an `extern` block takes one unit.
///
/// # Errors
///
/// `Memory` for want of memory; where 2^60 blocks were made and one more is needed; and where calls,
/// blocks and expressions are nested deeper than the stack holds. The store and the host hold what the
/// calls made so far left.
pub fn run_rust<S: Store, H: Host>(
    alloc: Global,
    whole: &Crate,
    steps: u64,
    store: &mut S,
    host: &mut H,
) -> Result<RRun, Memory>
    requires valid { valid_crate (crate_view whole.now) ≡ true }
    requires typed { well_typed (crate_view whole.now) ≡ true }
    requires steps { steps ≤ 1000000000 }
    requires empty { S.memory store.old ≡ [] }

    // The outcome is how far the meaning comes under the trail within the budget.
    ensures outcome { IfOk result (λ run.
        IsProgress run.outcome (progress_within (crate_view whole.now) (S.limit store.old) run.trail steps)) }

    // It takes all answers of the trail; those of an allocation are 0 exactly where the limit of the store
    // refuses the block, and 1 otherwise, since the meaning goes astray by any other.
    ensures trail { IfOk result (λ run.
        (world_within (crate_view whole.now) (S.limit store.old) run.trail steps).answers ≡ []) }

    // The units that it took, and where the host stopped it at a call, those before that call.
    ensures taken { IfOk result (λ run. TookSteps (crate_view whole.now) (S.limit store.old) steps run.trail run.outcome run.steps) }

    // The calls that it made, with the answers of the host.
    ensures told { IfOk result (λ run. (H.state host.new).made ≡ option_map
        (λ made. made ++ (world_within (crate_view whole.now) (S.limit store.old) run.trail steps).made)
        (H.state host.old).made) }
    ensures given { IfOk result (λ run.
        AreGiven (world_within (crate_view whole.now) (S.limit store.old) run.trail steps).made
        (H.state host.old).left (H.state host.new).left) }
    ensures takes { IfOk result (λ run.
        AreTaken (H.state host.old).takes (world_within (crate_view whole.now) (S.limit store.old) run.trail steps).made) }

    // The call at which the host stopped it.
    ensures asks { IfOk result (λ run. AsksHost (H.state host.old) run.outcome
        (progress_within (crate_view whole.now) (S.limit store.old) run.trail steps)) }
    ensures failed { IfOk result (λ run. HasFailed (H.state host.old) (H.state host.new) run.outcome) }

    // Where memory is wanting, the host was asked for what the run asks within some of the units.
    ensures short { OnErr result (IsShort (crate_view whole.now) (S.limit store.old) steps (H.state host.old) (H.state host.new)) }
{
    let modules = whole.modules.as_slice();
    let statics = match statics_of(alloc, modules) {
        Ok(statics) => statics,
        Err(_) => return Err(Memory),
    };
    let functions = match functions_of(alloc, modules) {
        Ok(functions) => functions,
        Err(_) => return Err(Memory),
    };
    let scene = Scene {
        modules,
        statics: statics.as_slice(),
        functions: functions.as_slice(),
        locals: &[],
    };
    run_scene(alloc, scene, whole.entry, steps, store, host)
}

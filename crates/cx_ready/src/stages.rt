//! The steps of `op=`, `++` and `--` behind their load (ISO C99, 6.5.2.4, 6.5.3.1, 6.5.16.2).

ghost use Rattle.std.specs.Prelude.{◌≡◌};
ghost use Rattle.cx_access.specs.Finds.{Finds};
ghost use Rattle.cx_access.specs.Views.{view_setting};
ghost use Rattle.cx_core.specs.Views.{view_expr};
ghost use Rattle.cx_mean.specs.Work.{was_computed, was_converted};
ghost use Rattle.cx_mean.specs.Nodes.{update_computed, update_converted, update_stored};
ghost use Rattle.cx_ready.specs.Nodes.{done_as, stage_by, stage_left};
ghost use Rattle.cx_ready.specs.Parts.{by_update, marks_in, stage_in, with_stage};
ghost use Rattle.cx_ready.specs.Steps.{Steps};
ghost use Rattle.cx_work.specs.Views.{view_finished, view_work};

use crate::halt::{Halt, Progress, halted};
use crate::nodes::put_done;
use crate::parts::{marks_before, put_stage, stage_of};
use cx_access::{Setting, Trouble};
use cx_core::CoreExpr;
use cx_node_steps::{Done, update_computed, update_converted, update_stored};
use cx_work::{Finished, Marks, Objects, Stage, Work};
use mem_bytes::{Store, Value};
use std::alloc::Global;

fn computed<S: Store>(store: &S, setting: &Setting<'_>, work: &Work<'_>) -> Result<Value, Trouble>
    ensures { Finds (λ one. one) result (by_update (update_computed (view_setting setting.now) (S.memory store.now)) (view_work work.now)) }
{
    match work {
        Work::Updates(_, update, _, _) => update_computed(store, setting, update.get()),
        _ => Err(Trouble::Memory),
    }
}

fn converted<S: Store>(
    store: &S,
    setting: &Setting<'_>,
    work: &Work<'_>,
    new: Value,
) -> Result<Value, Trouble>
    ensures { Finds (λ one. one) result (by_update (λ update. update_converted (view_setting setting.now) (S.memory store.now) update new) (view_work work.now)) }
{
    match work {
        Work::Updates(_, update, _, _) => update_converted(store, setting, update.get(), new),
        _ => Err(Trouble::Memory),
    }
}

fn stored<S: Store, O: Objects>(
    store: &mut S,
    objects: &O,
    setting: &Setting<'_>,
    work: &Work<'_>,
    new: Value,
    marks: &mut Marks,
) -> Result<Finished, Trouble>
    ensures stored { Finds (λ given. record { value = view_finished given; marks = marks.new; blocks = S.memory store.new }) result
        (by_update (λ update. update_stored (view_setting setting.now) (O.frame objects.now) (S.memory store.old) update marks.old new) (view_work work.now)) }
    ensures limit { S.limit store.new ≡ S.limit store.old }
{
    match work {
        Work::Updates(_, update, _, _) => {
            update_stored(store, objects, setting, update.get(), new, marks)
        }
        _ => Err(Trouble::Memory),
    }
}

// The computation.
#[tactic(auto, using(crate::proofs::Outcomes::stops, crate::proofs::Opened::place_of_view))]
fn compute_step<'a, S: Store>(
    store: &S,
    setting: &Setting<'a>,
    work: &mut Work<'a>,
    node: &'a CoreExpr,
) -> Result<Progress<'a>, Halt>
    ensures { Steps result (S.memory store.now) (S.memory store.now) (view_work work.new) (stage_left (view_expr node.now) (S.memory store.now)
        (λ new. with_stage (was_computed new) (view_work work.old)) (by_update (update_computed (view_setting setting.now) (S.memory store.now)) (view_work work.old))) }
{
    match computed(store, setting, work) {
        Ok(new) => {
            put_stage(work, Stage::WasComputed(new));
            Ok(Progress::Stepped)
        }
        Err(trouble) => Err(halted(trouble, node.place)),
    }
}

// The conversion to the type of the target.
#[tactic(auto, using(crate::proofs::Outcomes::stops, crate::proofs::Opened::place_of_view))]
fn convert_step<'a, S: Store>(
    store: &S,
    setting: &Setting<'a>,
    work: &mut Work<'a>,
    node: &'a CoreExpr,
    new: Value,
) -> Result<Progress<'a>, Halt>
    ensures { Steps result (S.memory store.now) (S.memory store.now) (view_work work.new) (stage_left (view_expr node.now) (S.memory store.now)
        (λ value. with_stage (was_converted value) (view_work work.old))
        (by_update (λ update. update_converted (view_setting setting.now) (S.memory store.now) update new) (view_work work.old))) }
{
    match converted(store, setting, work, new) {
        Ok(value) => {
            put_stage(work, Stage::WasConverted(value));
            Ok(Progress::Stepped)
        }
        Err(trouble) => Err(halted(trouble, node.place)),
    }
}

// The store, by which the node is finished.
#[tactic(auto, using(crate::proofs::Outcomes::stops, crate::proofs::Opened::place_of_view))]
fn store_step<'a, S: Store, O: Objects>(
    store: &mut S,
    objects: &O,
    setting: &Setting<'a>,
    work: &mut Work<'a>,
    node: &'a CoreExpr,
    new: Value,
    mut marks: Marks,
) -> Result<Progress<'a>, Halt>
    ensures steps { Steps result (S.memory store.old) (S.memory store.new) (view_work work.new) (done_as (view_expr node.now)
        (by_update (λ update. update_stored (view_setting setting.now) (O.frame objects.now) (S.memory store.old) update marks new) (view_work work.old))) }
    ensures limit { S.limit store.new ≡ S.limit store.old }
{
    match stored(store, objects, setting, work, new, &mut marks) {
        Ok(value) => {
            put_done(work, node, Done { value, marks });
            Ok(Progress::Stepped)
        }
        Err(trouble) => Err(halted(trouble, node.place)),
    }
}

// The store with the marks that the node has.
#[tactic(auto, using(crate::proofs::Staged::same_update))]
fn last_step<'a, S: Store, O: Objects>(
    alloc: Global,
    store: &mut S,
    objects: &O,
    setting: &Setting<'a>,
    work: &mut Work<'a>,
    node: &'a CoreExpr,
    new: Value,
) -> Result<Progress<'a>, Halt>
    ensures steps { Steps result (S.memory store.old) (S.memory store.new) (view_work work.new) (done_as (view_expr node.now)
        (by_update (λ update. update_stored (view_setting setting.now) (O.frame objects.now) (S.memory store.old) update (marks_in (view_work work.old)) new) (view_work work.old))) }
    ensures limit { S.limit store.new ≡ S.limit store.old }
{
    let marks = marks_before(alloc, work);
    store_step(store, objects, setting, work, node, new, marks)
}

/// The next stage of `op=`, `++` or `--`.
pub(crate) fn stage_step<'a, S: Store, O: Objects>(
    alloc: Global,
    store: &mut S,
    objects: &O,
    setting: &Setting<'a>,
    work: &mut Work<'a>,
    node: &'a CoreExpr,
) -> Result<Progress<'a>, Halt>
    ensures steps { Steps result (S.memory store.old) (S.memory store.new) (view_work work.new)
        (stage_by (view_setting setting.now) (O.frame objects.now) (S.memory store.old) (view_expr node.now) (stage_in (view_work work.old)) (view_work work.old)) }
    ensures limit { S.limit store.new ≡ S.limit store.old }
{
    match stage_of(work) {
        Stage::WasLoaded => compute_step(store, setting, work, node),
        Stage::WasComputed(new) => convert_step(store, setting, work, node, new),
        Stage::WasConverted(new) => last_step(alloc, store, objects, setting, work, node, new),
    }
}

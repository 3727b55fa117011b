//! A node that is ready itself, and its step (ISO C99, 5.1.2.3, 6.5p3).

ghost use Rattle.std.specs.Prelude.{◌≡◌, true};
ghost use Rattle.cx_access.specs.Views.{view_setting};
ghost use Rattle.cx_mean.specs.Steps.{step_at};
ghost use Rattle.cx_ready.specs.Ready.{node_ready, node_stepped};
ghost use Rattle.cx_ready.specs.Steps.{Steps};
ghost use Rattle.cx_work.specs.Views.{view_work};

use crate::choices::{choose_step, test_step};
use crate::halt::{Halt, Progress};
use crate::literals::fill_step;
use crate::nodes::needs_step;
use crate::stages::stage_step;
use cx_access::Setting;
use cx_work::{Objects, Work, are_finished, is_finished};
use mem_bytes::Store;
use std::alloc::Global;

/// Whether the node of a tree is ready itself.
#[inline(always)]
pub fn is_ready(work: &Work<'_>) -> bool
    ensures { result ≡ node_ready (view_work work.now) }
{
    match work {
        Work::Needs(_, operands) => are_finished(operands.as_slice()),
        Work::Chooses(_, part) => is_finished(part.get()),
        Work::Tests(_, _, part) => is_finished(part.get()),
        Work::Fills(_, _, _, _, part) => is_finished(part.get()),
        Work::Updates(_, _, _, _) => true,
        Work::Finished(_) => false,
        Work::Carries(_, _, _) => false,
        Work::Waits(_, _) => false,
    }
}

// The step of a node that is ready itself, by its form.
fn form_step<'a, S: Store, O: Objects>(
    alloc: Global,
    store: &mut S,
    objects: &O,
    setting: &Setting<'a>,
    work: &mut Work<'a>,
) -> Result<Progress<'a>, Halt>
    requires { node_ready (view_work work.old) ≡ true }
    ensures steps { Steps result (S.memory store.old) (S.memory store.new) (view_work work.new)
        (node_stepped (view_setting setting.now) (O.frame objects.now) (S.memory store.old) (view_work work.old)) }
    ensures limit { S.limit store.new ≡ S.limit store.old }
{
    match work {
        Work::Needs(node, _) => {
            let node = *node;
            needs_step(alloc, store, objects, setting, work, node)
        }
        Work::Chooses(node, _) => {
            let node = *node;
            choose_step(alloc, store, work, node)
        }
        Work::Tests(node, _, _) => {
            let node = *node;
            test_step(alloc, store, work, node)
        }
        Work::Updates(node, _, _, _) => {
            let node = *node;
            stage_step(alloc, store, objects, setting, work, node)
        }
        Work::Fills(node, _, _, _, _) => {
            let node = *node;
            fill_step(alloc, store, objects, setting, work, node)
        }
        Work::Finished(_) => unreachable!(),
        Work::Carries(_, _, _) => unreachable!(),
        Work::Waits(_, _) => unreachable!(),
    }
}

/// The step of a tree at its node, which is ready itself, so it is the tree's leftmost one.
///
/// # Errors
///
/// `Undefined` where C leaves the step undefined, by that rule at that node, and `Memory` for want of memory, which stands, too, for a step that no
/// typed program has.
#[tactic(auto, using(crate::proofs::Meant::steps_as_meant))]
pub fn node_step<'a, S: Store, O: Objects>(
    alloc: Global,
    store: &mut S,
    objects: &O,
    setting: &Setting<'a>,
    work: &mut Work<'a>,
) -> Result<Progress<'a>, Halt>
    requires { node_ready (view_work work.old) ≡ true }
    ensures steps { Steps result (S.memory store.old) (S.memory store.new) (view_work work.new)
        (step_at (view_setting setting.now) (O.frame objects.now) (S.memory store.old) 0 (view_work work.old)) }
    ensures limit { S.limit store.new ≡ S.limit store.old }
{
    form_step(alloc, store, objects, setting, work)
}

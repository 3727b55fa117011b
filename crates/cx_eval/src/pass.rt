//! A walk over an expression that takes a step at each node that it leaves, the leftmost first (ISO C99, 5.1.2.3, 6.5p3).

ghost use Rattle.std.specs.Prelude.{◌≡◌, true, map};
ghost use Rattle.cx_access.specs.Views.{view_setting};
ghost use Rattle.cx_eval.specs.Passing.{passed_by, parts_ready, PassesFrom, PassesParts};
ghost use Rattle.cx_eval.specs.declared.pass.Pass.TheVariants.{Halted};
ghost use Rattle.cx_eval.specs.Several.{Passes};
ghost use Rattle.cx_mean.specs.Work.{is_finished};
ghost use Rattle.cx_ready.specs.Ready.{node_ready};
ghost use Rattle.cx_work.specs.Views.{view_work};

use cx_access::Setting;
use cx_ready::{Halt, Progress, is_ready, node_step};
use cx_work::{Children, Objects, Work, is_finished};
use mem_bytes::Store;
use std::alloc::Global;

/// How far such a walk came.
#[derive(Clone, Copy)]
pub enum Pass {
    /// No node of the tree is ready any more.
    Through,
    /// No more steps are granted, or a node that took its step isn't finished.
    Rests,
    /// A step calls, is undefined, or wanted memory.
    Halted,
}

// How far a walk is behind a node that took its step: it goes on where the node is finished.
#[inline(always)]
fn behind_step(work: &Work<'_>) -> Pass
    ensures { result ≡ passed_by (is_finished (view_work work.now)) }
{
    if is_finished(work) {
        return Pass::Through;
    }
    Pass::Rests
}

// A walk halts at a step of which this came.
fn halted_by<'a>(
    outcome: Result<Progress<'a>, Halt>,
    taken: &mut Result<Progress<'a>, Halt>,
) -> Pass
    ensures result { result ≡ Halted }
    ensures taken { taken.new ≡ outcome.entry }
{
    *taken = outcome;
    Pass::Halted
}

// The step of a node that is ready itself, where one more is granted.
fn granted_step<'a, S: Store, O: Objects>(
    alloc: Global,
    store: &mut S,
    objects: &O,
    setting: &Setting<'a>,
    work: &mut Work<'a>,
    rest: &mut u64,
    taken: &mut Result<Progress<'a>, Halt>,
) -> Pass
    requires { node_ready (view_work work.old) ≡ true }
    ensures passes { Passes result taken.new (view_setting setting.now) (O.frame objects.now) (S.memory store.old) (S.memory store.new)
        rest.old rest.new (view_work work.old) (view_work work.new) }
    ensures limit { S.limit store.new ≡ S.limit store.old }
{
    if *rest == 0 {
        return Pass::Rests;
    }
    match node_step(alloc, store, objects, setting, work) {
        Ok(Progress::Stepped) => {
            *rest -= 1;
            behind_step(work)
        }
        Ok(Progress::Calls(called)) => halted_by(Ok(Progress::Calls(called)), taken),
        Err(why) => halted_by(Err(why), taken),
    }
}

// The step of a node of whose parts no node is ready, if it is ready itself.
#[inline(always)]
fn own_step<'a, S: Store, O: Objects>(
    alloc: Global,
    store: &mut S,
    objects: &O,
    setting: &Setting<'a>,
    work: &mut Work<'a>,
    rest: &mut u64,
    taken: &mut Result<Progress<'a>, Halt>,
) -> Pass
    ensures passes { parts_ready (view_work work.old) ≡ 0 → Passes result taken.new (view_setting setting.now) (O.frame objects.now) (S.memory store.old) (S.memory store.new)
        rest.old rest.new (view_work work.old) (view_work work.new) }
    ensures limit { S.limit store.new ≡ S.limit store.old }
{
    if !is_ready(work) {
        return Pass::Through;
    }
    granted_step(alloc, store, objects, setting, work, rest, taken)
}

/// The walk over a tree. `rest` is how many more steps are granted, and falls by each one that is taken; what came of a step that calls, is
/// undefined or wanted memory is in `taken`.
#[cycle(pass_tree)]
pub(crate) fn pass_tree<'a, S: Store, O: Objects>(
    alloc: Global,
    store: &mut S,
    objects: &O,
    setting: &Setting<'a>,
    work: &mut Work<'a>,
    rest: &mut u64,
    taken: &mut Result<Progress<'a>, Halt>,
) -> Pass
    ensures passes { Passes result taken.new (view_setting setting.now) (O.frame objects.now) (S.memory store.old) (S.memory store.new)
        rest.old rest.new (view_work work.old) (view_work work.new) }
    ensures limit { S.limit store.new ≡ S.limit store.old }
{
    match pass_parts(alloc, store, objects, setting, work, rest, taken) {
        Pass::Through => own_step(alloc, store, objects, setting, work, rest, taken),
        Pass::Rests => Pass::Rests,
        Pass::Halted => Pass::Halted,
    }
}

// The same over the parts of a node.
#[cycle(pass_tree)]
#[inline(always)]
fn pass_parts<'a, S: Store, O: Objects>(
    alloc: Global,
    store: &mut S,
    objects: &O,
    setting: &Setting<'a>,
    work: &mut Work<'a>,
    rest: &mut u64,
    taken: &mut Result<Progress<'a>, Halt>,
) -> Pass
    ensures passes { PassesParts result taken.new (view_setting setting.now) (O.frame objects.now) (S.memory store.old) (S.memory store.new)
        rest.old rest.new (view_work work.old) (view_work work.new) }
    ensures limit { S.limit store.new ≡ S.limit store.old }
{
    match work {
        Work::Finished(_) => Pass::Through,
        Work::Waits(_, _) => Pass::Through,
        Work::Updates(_, _, _, _) => Pass::Through,
        Work::Needs(_, operands) => {
            pass_from(alloc, store, objects, setting, operands, 0, rest, taken)
        }
        Work::Chooses(_, part) => {
            let inner = part.get_mut();
            pass_tree(alloc, store, objects, setting, inner, rest, taken)
        }
        Work::Tests(_, _, part) => {
            let inner = part.get_mut();
            pass_tree(alloc, store, objects, setting, inner, rest, taken)
        }
        Work::Carries(_, _, part) => {
            let inner = part.get_mut();
            pass_tree(alloc, store, objects, setting, inner, rest, taken)
        }
        Work::Fills(_, _, _, _, part) => {
            let inner = part.get_mut();
            pass_tree(alloc, store, objects, setting, inner, rest, taken)
        }
    }
}

// The same over operands from an index on, where none in front of it is ready.
#[cycle(pass_tree)]
fn pass_from<'a, S: Store, O: Objects>(
    alloc: Global,
    store: &mut S,
    objects: &O,
    setting: &Setting<'a>,
    operands: &mut Children<Work<'a>>,
    index: usize,
    rest: &mut u64,
    taken: &mut Result<Progress<'a>, Halt>,
) -> Pass
    ensures passes { PassesFrom result taken.new (view_setting setting.now) (O.frame objects.now) (S.memory store.old) (S.memory store.new)
        rest.old rest.new index (map view_work operands.old) (map view_work operands.new) }
    ensures limit { S.limit store.new ≡ S.limit store.old }
{
    if index >= operands.len() {
        return Pass::Through;
    }
    let operand = operands.at_mut(index);
    match pass_tree(alloc, store, objects, setting, operand, rest, taken) {
        Pass::Through => {
            pass_from(
                alloc,
                store,
                objects,
                setting,
                operands,
                index + 1,
                rest,
                taken,
            )
        }
        Pass::Rests => Pass::Rests,
        Pass::Halted => Pass::Halted,
    }
}

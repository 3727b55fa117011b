//! The walk to a ready node, which takes its step where it lies (ISO C99, 5.1.2.3, 6.5p3).

ghost use Rattle.std.specs.Prelude.{◌≡◌, true, map};
ghost use Rattle.cx_access.specs.Views.{view_setting};
ghost use Rattle.cx_eval.specs.Added.{Adds};
ghost use Rattle.cx_ready.specs.Ready.{node_ready};
ghost use Rattle.cx_eval.specs.Walks.{Reaches, ReachesFrom};
ghost use Rattle.cx_work.specs.Views.{view_work};

use cx_access::Setting;
use cx_ready::{Halt, Progress, is_ready, node_step};
use cx_work::{Children, Objects, Work};
use mem_bytes::Store;
use std::alloc::Global;

// The step of a node that is ready itself, unless it lies in front of the pick.
#[tactic(auto, using(crate::proofs::Readied::ready_walks, crate::proofs::Readied::ready_is_one))]
fn ready_step<'a, S: Store, O: Objects>(
    alloc: Global,
    store: &mut S,
    objects: &O,
    setting: &Setting<'a>,
    work: &mut Work<'a>,
    pick: u64,
    taken: &mut Result<Progress<'a>, Halt>,
) -> Option<u64>
    requires { node_ready (view_work work.old) ≡ true }
    ensures reaches { Reaches result taken.new (view_setting setting.now) (O.frame objects.now) (S.memory store.old) (S.memory store.new) pick (view_work work.old) (view_work work.new) }
    ensures limit { S.limit store.new ≡ S.limit store.old }
{
    if pick > 0 {
        return Some(1);
    }
    *taken = node_step(alloc, store, objects, setting, work);
    None
}

/// The walk to the ready node with a number, from 0 on in post-order, in a tree: how many ready nodes it passed, or none where it
/// reached the one, and what came of its step is then in `taken`.
#[cycle(walk)]
pub(crate) fn walk<'a, S: Store, O: Objects>(
    alloc: Global,
    store: &mut S,
    objects: &O,
    setting: &Setting<'a>,
    work: &mut Work<'a>,
    pick: u64,
    taken: &mut Result<Progress<'a>, Halt>,
) -> Option<u64>
    ensures reaches { Reaches result taken.new (view_setting setting.now) (O.frame objects.now) (S.memory store.old) (S.memory store.new) pick (view_work work.old) (view_work work.new) }
    ensures limit { S.limit store.new ≡ S.limit store.old }
{
    if is_ready(work) {
        return ready_step(alloc, store, objects, setting, work, pick, taken);
    }
    match work {
        Work::Finished(_) => Some(0),
        Work::Waits(_, _) => Some(0),
        Work::Updates(_, _, _, _) => unreachable!(),
        Work::Needs(_, operands) => walk_from(
            alloc, store, objects, setting, operands, 0, pick, taken,
        ),
        Work::Chooses(_, part) => walk(alloc, store, objects, setting, part.get_mut(), pick, taken),
        Work::Tests(_, _, part) => walk(
            alloc,
            store,
            objects,
            setting,
            part.get_mut(),
            pick,
            taken,
        ),
        Work::Carries(_, _, part) => walk(
            alloc,
            store,
            objects,
            setting,
            part.get_mut(),
            pick,
            taken,
        ),
        Work::Fills(_, _, _, _, part) => walk(
            alloc,
            store,
            objects,
            setting,
            part.get_mut(),
            pick,
            taken,
        ),
    }
}

// So many nodes more were passed than those of the trees behind one.
fn behind(count: u64, rest: Option<u64>, taken: &mut Result<Progress<'_>, Halt>) -> Option<u64>
    ensures { Adds count rest taken.old result taken.new }
{
    let Some(more) = rest else {
        return None;
    };
    match count.checked_add(more) {
        Some(sum) => Some(sum),
        None => {
            *taken = Err(Halt::Memory);
            None
        }
    }
}

// The same among operands from an index on.
#[cycle(walk)]
fn walk_from<'a, S: Store, O: Objects>(
    alloc: Global,
    store: &mut S,
    objects: &O,
    setting: &Setting<'a>,
    operands: &mut Children<Work<'a>>,
    index: usize,
    pick: u64,
    taken: &mut Result<Progress<'a>, Halt>,
) -> Option<u64>
    ensures reaches { ReachesFrom result taken.new (view_setting setting.now) (O.frame objects.now) (S.memory store.old) (S.memory store.new) pick index (map view_work operands.old) (map view_work operands.new) }
    ensures limit { S.limit store.new ≡ S.limit store.old }
{
    if index >= operands.len() {
        return Some(0);
    }
    match walk(
        alloc,
        store,
        objects,
        setting,
        operands.at_mut(index),
        pick,
        taken,
    ) {
        Some(count) => {
            let rest = walk_from(
                alloc,
                store,
                objects,
                setting,
                operands,
                index + 1,
                pick - count,
                taken,
            );
            behind(count, rest, taken)
        }
        None => None,
    }
}

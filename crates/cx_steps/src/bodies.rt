//! What comes next in a body (ISO C99, 6.8), and objects of blocks that begin (6.2.4p5).

ghost use Rattle.std.specs.Prelude.{◌≡◌, IfOk};
ghost use Rattle.cx_access.specs.Views.{view_setting};
ghost use Rattle.cx_core.specs.Views.{view_stmt};
ghost use Rattle.cx_machine.specs.Machines.{GoesTo, next_at, view_machine};
ghost use Rattle.cx_machine.specs.Steps.{StoreAdvances};
ghost use Rattle.cx_mean.specs.Moves as meaning;
ghost use Rattle.cx_mean.specs.State.{after_begin, move_step, no_place, object_begins, with_slot};
ghost use Rattle.cx_moves.specs.Sites.{begins_in, view_goal, view_level, view_site};

use cr_base::Memory;
use cx_access::Setting;
use cx_core::CoreStmt;
use cx_machine::{Machine, Stop, go};
use cx_moves::{Goal, Level, innermost};
use cx_outside::{Lack, begin};
use cx_statements::{beginning, reached, shape_of};
use cx_work::Slot;
use mem_bytes::Store;
use std::alloc::Global;

/// A statement is reached.
///
/// # Errors
///
/// `Memory` for want of memory.
pub(crate) fn reaches<'a, S: Store>(
    alloc: Global,
    machine: &mut Machine<'a>,
    store: &mut S,
    setting: &Setting<'a>,
    stmt: &'a CoreStmt,
) -> Result<(), Memory>
    ensures next { IfOk result (λ _. GoesTo machine.old machine.new (next_at (meaning.reached (view_setting setting.now) (view_stmt stmt.now) (view_site machine.old.site) (S.memory store.old))) (S.memory store.new)) }
    ensures limit { S.limit store.new ≡ S.limit store.old }
{
    match reached(alloc, store, setting, &mut machine.site, stmt) {
        Ok(one) => go(alloc, machine, one),
        Err(memory) => Err(memory),
    }
}

// An object of an open statement has begun: the next one begins, or the statement goes on.
fn has_begun<'a, S: Store>(
    alloc: Global,
    machine: &mut Machine<'a>,
    store: &mut S,
    setting: &Setting<'a>,
    level: Level<'a>,
    slot: Slot,
    others: &'a [u32],
    goal: Goal<'a>,
) -> Result<(), Memory>
    ensures next { IfOk result (λ _. GoesTo machine.old machine.new (next_at (meaning.beginning (view_setting setting.now) others.now (view_goal machine.old.site.way goal.entry) (with_slot slot (view_level level.entry)) (view_site machine.old.site) (S.memory store.old))) (S.memory store.new)) }
    ensures limit { S.limit store.new ≡ S.limit store.old }
{
    let mut level = level;
    level.slots.push(slot)?;
    match beginning(
        alloc,
        store,
        setting,
        &mut machine.site,
        level,
        others,
        goal,
    ) {
        Ok(one) => go(alloc, machine, one),
        Err(memory) => Err(memory),
    }
}

// The life of an object of an open statement begins, all of its bits unset.
fn begins_in<'a, S: Store>(
    alloc: Global,
    machine: &mut Machine<'a>,
    store: &mut S,
    setting: &Setting<'a>,
    level: Level<'a>,
    object: u32,
    others: &'a [u32],
    goal: Goal<'a>,
) -> Result<(), Stop<'a>>
    ensures steps { StoreAdvances (λ world. after_begin (view_setting setting.now) (view_machine machine.old world)
        (record { object = object; others = others.now; level = view_level level.entry; outer = view_site machine.old.site; goal = view_goal machine.old.site.way goal.entry })
        (object_begins (view_setting setting.now) no_place object world)) result (view_machine machine.new)
        (S.memory store.old) (S.memory store.new) (S.limit store.old) (S.limit store.new) }
    ensures limit { S.limit store.new ≡ S.limit store.old }
{
    let Some(shape) = shape_of(setting, object) else {
        return Err(Stop::Lacks(Lack::Memory));
    };
    let at = match begin(store, false, shape.laid.size, shape.laid.align) {
        Ok(at) => at,
        Err(lack) => return Err(Stop::Lacks(lack)),
    };
    let slot = Slot {
        object,
        block: at.block,
    };
    match has_begun(alloc, machine, store, setting, level, slot, others, goal) {
        Ok(()) => Ok(()),
        Err(_) => Err(Stop::Lacks(Lack::Memory)),
    }
}

/// The life of an object of the innermost open statement begins; there always is one then.
///
/// # Errors
///
/// `Lacks` where the store is full, and for want of memory.
pub(crate) fn begins<'a, S: Store>(
    alloc: Global,
    machine: &mut Machine<'a>,
    store: &mut S,
    setting: &Setting<'a>,
    object: u32,
    others: &'a [u32],
    goal: Goal<'a>,
) -> Result<(), Stop<'a>>
    ensures steps { StoreAdvances (λ world. move_step (view_setting setting.now) (view_machine machine.old world) (begins_in object others.now (view_goal machine.old.site.way goal.entry) (view_site machine.old.site))) result (view_machine machine.new)
        (S.memory store.old) (S.memory store.new) (S.limit store.old) (S.limit store.new) }
    ensures limit { S.limit store.new ≡ S.limit store.old }
{
    match innermost(&mut machine.site) {
        Some(level) => begins_in(alloc, machine, store, setting, level, object, others, goal),
        None => Err(Stop::Lacks(Lack::Memory)),
    }
}

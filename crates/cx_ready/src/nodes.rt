//! The steps of nodes that need all their operands, where these are finished (ISO C99, 6.5).

ghost use Rattle.std.specs.Prelude.{◌≡◌, [], ◌∷◌, IfSome};
ghost use Rattle.cx_access.specs.Views.{view_setting};
ghost use Rattle.cx_core.specs.Trees.{CExpr, place_of, type_of};
ghost use Rattle.cx_core.specs.Views.{view_expr};
ghost use Rattle.cx_mean.specs.Calls.{node_calling};
ghost use Rattle.cx_mean.specs.Marks as meaning;
ghost use Rattle.cx_mean.specs.Operands.{Frame};
ghost use Rattle.cx_mean.specs.Nodes.{binary_done, changes, node_done, node_updating, update_loaded};
ghost use Rattle.cx_mean.specs.Steps.{finished_with, needs_step};
ghost use Rattle.cx_mean.specs.Work.{CWorks, needs, operands_in, updates, was_loaded, waits};
ghost use Rattle.cx_node_steps.specs.Callings.{named_calling, pointer_calling};
ghost use Rattle.cx_node_steps.specs.Dones.{left_of, right_of};
ghost use Rattle.cx_node_steps.specs.Views.{form_of};
ghost use Rattle.cx_ready.specs.Nodes.{IsLoaded, IsWaiting, calls_as, done_as, updates_as};
ghost use Rattle.cx_ready.specs.Parts.{works_in};
ghost use Rattle.cx_ready.specs.Steps.{Steps};
ghost use Rattle.cx_work.specs.Views.{view_finished, view_update, view_work, view_works};
ghost use Rattle.mem_bytes.specs.Access.{and_then};
ghost use Rattle.mem_bytes.specs.Memory.{Blocks};

use crate::halt::{Halt, Progress, halted};
use crate::literals::literal_step;
use crate::operands::{all_operands, one_operand, two_operands};
use crate::parts::operands_at;
use cx_access::{Setting, Trouble};
use cx_core::{CoreExpr, Form};
use cx_node_steps::{
    Both, Calling, Done, Loaded, assign_loaded, called_by_name, called_by_pointer, done_by_one,
    done_by_two, joined, step_loaded,
};
use cx_work::{Child, Children, Marks, Objects, Operand, Stage, Work};
use mem_bytes::Store;
use std::alloc::Global;

// The node is finished.
#[tactic(auto, using(crate::proofs::Opened::type_of_view))]
pub(crate) fn put_done<'a>(work: &mut Work<'a>, node: &'a CoreExpr, done: Done)
    ensures { view_work work.new ≡ finished_with (type_of (view_expr node.now)) (view_finished done.value) done.marks }
{
    let Done { value, marks } = done;
    work.put(Work::Finished(Operand {
        ty: &node.ty,
        value,
        marks,
    }));
}

// A node with one operand.
#[tactic(auto, using(crate::proofs::Outcomes::stops, crate::proofs::Opened::place_of_view))]
fn unary_step<'a, S: Store, O: Objects>(
    alloc: Global,
    store: &S,
    objects: &O,
    setting: &Setting<'a>,
    work: &mut Work<'a>,
    node: &'a CoreExpr,
    operands: Children<Work<'a>>,
) -> Result<Progress<'a>, Halt>
    ensures { Steps result (S.memory store.now) (S.memory store.now) (view_work work.new) (done_as (view_expr node.now)
        (node_done (view_setting setting.now) (type_of (view_expr node.now)) (form_of (view_expr node.now)) (O.frame objects.now) (S.memory store.now) (operands_in (view_works operands.entry)))) }
{
    let Some(one) = one_operand(operands) else {
        return Err(Halt::Memory);
    };
    match done_by_one(alloc, store, objects, setting, node, one) {
        Ok(done) => {
            put_done(work, node, done);
            Ok(Progress::Stepped)
        }
        Err(trouble) => Err(halted(trouble, node.place)),
    }
}

// A node with two operands.
#[tactic(auto, using(crate::proofs::Outcomes::stops, crate::proofs::Opened::place_of_view))]
fn binary_step<'a, S: Store, O: Objects>(
    store: &mut S,
    objects: &O,
    setting: &Setting<'a>,
    work: &mut Work<'a>,
    node: &'a CoreExpr,
    both: Both<'a>,
) -> Result<Progress<'a>, Halt>
    ensures steps { (before after : meaning.Marks) → Steps result (S.memory store.old) (S.memory store.new) (view_work work.new) (done_as (view_expr node.now)
        (binary_done (view_setting setting.now) (type_of (view_expr node.now)) (form_of (view_expr node.now)) (O.frame objects.now) both.entry.marks (S.memory store.old)
        (left_of before both.entry) (right_of after both.entry))) }
    ensures limit { S.limit store.new ≡ S.limit store.old }
{
    match done_by_two(store, objects, setting, node, both) {
        Ok(done) => {
            put_done(work, node, done);
            Ok(Progress::Stepped)
        }
        Err(trouble) => Err(halted(trouble, node.place)),
    }
}

// `op=`, `++` or `--` is behind its load.
fn put_loaded<'a>(
    alloc: Global,
    work: &mut Work<'a>,
    node: &'a CoreExpr,
    loaded: Loaded<'a>,
) -> Result<Progress<'a>, Halt>
    ensures { IsLoaded result (view_work work.new) (updates (view_expr node.now) (view_update loaded.entry.update) was_loaded loaded.entry.marks) }
{
    let Loaded { update, marks } = loaded;
    match Child::new(alloc, update) {
        Ok(update) => {
            work.put(Work::Updates(node, update, Stage::WasLoaded, marks));
            Ok(Progress::Stepped)
        }
        Err(_) => Err(Halt::Memory),
    }
}

// The load of `++` or `--`.
#[tactic(auto, using(crate::proofs::Outcomes::stops, crate::proofs::Opened::place_of_view))]
fn step_step<'a, S: Store, O: Objects>(
    alloc: Global,
    store: &S,
    objects: &O,
    setting: &Setting<'a>,
    work: &mut Work<'a>,
    node: &'a CoreExpr,
    operands: Children<Work<'a>>,
) -> Result<Progress<'a>, Halt>
    ensures { Steps result (S.memory store.now) (S.memory store.now) (view_work work.new) (updates_as (view_expr node.now) (S.memory store.now)
        (node_updating (view_setting setting.now) (form_of (view_expr node.now)) (O.frame objects.now) (S.memory store.now) (operands_in (view_works operands.entry)))) }
{
    let Some(one) = one_operand(operands) else {
        return Err(Halt::Memory);
    };
    match step_loaded(alloc, store, objects, setting, node, one) {
        Ok(loaded) => put_loaded(alloc, work, node, loaded),
        Err(trouble) => Err(halted(trouble, node.place)),
    }
}

// The load of `op=`.
#[tactic(auto, using(crate::proofs::Outcomes::stops, crate::proofs::Opened::place_of_view))]
fn assign_step<'a, S: Store, O: Objects>(
    alloc: Global,
    store: &S,
    objects: &O,
    setting: &Setting<'a>,
    work: &mut Work<'a>,
    node: &'a CoreExpr,
    both: Both<'a>,
) -> Result<Progress<'a>, Halt>
    ensures { (before after : meaning.Marks) → Steps result (S.memory store.now) (S.memory store.now) (view_work work.new) (updates_as (view_expr node.now) (S.memory store.now)
        (and_then (changes (view_setting setting.now) (form_of (view_expr node.now)) (left_of before both.entry ∷ right_of after both.entry ∷ []))
        (update_loaded (view_setting setting.now) (O.frame objects.now) (S.memory store.now) both.entry.marks))) }
{
    match assign_loaded(alloc, store, objects, setting, node, both) {
        Ok(loaded) => put_loaded(alloc, work, node, loaded),
        Err(trouble) => Err(halted(trouble, node.place)),
    }
}

// The node waits for the function that it calls.
fn put_waiting<'a>(
    alloc: Global,
    work: &mut Work<'a>,
    node: &'a CoreExpr,
    calling: Calling<'a>,
) -> Result<Progress<'a>, Halt>
    ensures { IsWaiting result (view_work work.new) (view_expr node.now) calling.entry }
{
    let Calling { called, marks } = calling;
    match Child::new(alloc, called) {
        Ok(called) => {
            work.put(Work::Waits(node, marks));
            Ok(Progress::Calls(called))
        }
        Err(_) => Err(Halt::Memory),
    }
}

// A call of a function by its name.
#[tactic(auto, using(crate::proofs::Outcomes::stops, crate::proofs::Opened::place_of_view))]
fn call_step<'a>(
    alloc: Global,
    setting: &Setting<'a>,
    work: &mut Work<'a>,
    node: &'a CoreExpr,
    number: u32,
    operands: Children<Work<'a>>,
) -> Result<Progress<'a>, Halt>
    ensures { (blocks : Blocks) → Steps result blocks blocks (view_work work.new) (calls_as (view_expr node.now)
        (named_calling (view_setting setting.now).program (type_of (view_expr node.now)) (place_of (view_expr node.now)) number (operands_in (view_works operands.entry)))) }
{
    let Some(list) = all_operands(alloc, operands) else {
        return Err(Halt::Memory);
    };
    match called_by_name(alloc, setting.program, node, number, list) {
        Ok(called) => put_waiting(alloc, work, node, called),
        Err(trouble) => Err(halted(trouble, node.place)),
    }
}

// A call of the function that its first operand points to.
#[tactic(auto, using(crate::proofs::Outcomes::stops, crate::proofs::Opened::place_of_view))]
fn call_by_step<'a>(
    alloc: Global,
    setting: &Setting<'a>,
    work: &mut Work<'a>,
    node: &'a CoreExpr,
    operands: Children<Work<'a>>,
) -> Result<Progress<'a>, Halt>
    ensures { (blocks : Blocks) → Steps result blocks blocks (view_work work.new) (calls_as (view_expr node.now)
        (pointer_calling (view_setting setting.now) (type_of (view_expr node.now)) (place_of (view_expr node.now)) (operands_in (view_works operands.entry)))) }
{
    let Some(list) = all_operands(alloc, operands) else {
        return Err(Halt::Memory);
    };
    match called_by_pointer(alloc, setting, node, list) {
        Ok(called) => put_waiting(alloc, work, node, called),
        Err(trouble) => Err(halted(trouble, node.place)),
    }
}

// A call, by a name or through a pointer.
fn any_call_step<'a>(
    alloc: Global,
    setting: &Setting<'a>,
    work: &mut Work<'a>,
    node: &'a CoreExpr,
    operands: Children<Work<'a>>,
) -> Result<Progress<'a>, Halt>
    ensures { (frame : Frame) (blocks : Blocks) → Steps result blocks blocks (view_work work.new)
        (needs_step (view_setting setting.now) frame blocks (view_expr node.now) (operands_in (view_works operands.entry))) }
{
    match &node.form {
        Form::Call(number, _) => call_step(alloc, setting, work, node, *number, operands),
        Form::CallBy(_, _) => call_by_step(alloc, setting, work, node, operands),
        _ => Err(Halt::Memory),
    }
}

// An operator with two operands, or an assignment.
#[tactic(auto, using(crate::proofs::Outcomes::stops, crate::proofs::Opened::place_of_view))]
fn two_step<'a, S: Store, O: Objects>(
    store: &mut S,
    objects: &O,
    setting: &Setting<'a>,
    work: &mut Work<'a>,
    node: &'a CoreExpr,
    operands: Children<Work<'a>>,
) -> Result<Progress<'a>, Halt>
    ensures steps { Steps result (S.memory store.old) (S.memory store.new) (view_work work.new) (done_as (view_expr node.now)
        (node_done (view_setting setting.now) (type_of (view_expr node.now)) (form_of (view_expr node.now)) (O.frame objects.now) (S.memory store.old) (operands_in (view_works operands.entry)))) }
    ensures limit { S.limit store.new ≡ S.limit store.old }
{
    let Some(pair) = two_operands(operands) else {
        return Err(Halt::Memory);
    };
    match joined(pair.first, pair.second) {
        Ok(both) => binary_step(store, objects, setting, work, node, both),
        Err(trouble) => Err(halted(trouble, node.place)),
    }
}

// `op=`.
#[tactic(auto, using(crate::proofs::Outcomes::stops, crate::proofs::Opened::place_of_view))]
fn assign_by_step<'a, S: Store, O: Objects>(
    alloc: Global,
    store: &S,
    objects: &O,
    setting: &Setting<'a>,
    work: &mut Work<'a>,
    node: &'a CoreExpr,
    operands: Children<Work<'a>>,
) -> Result<Progress<'a>, Halt>
    ensures { Steps result (S.memory store.now) (S.memory store.now) (view_work work.new) (updates_as (view_expr node.now) (S.memory store.now)
        (node_updating (view_setting setting.now) (form_of (view_expr node.now)) (O.frame objects.now) (S.memory store.now) (operands_in (view_works operands.entry)))) }
{
    let Some(pair) = two_operands(operands) else {
        return Err(Halt::Memory);
    };
    match joined(pair.first, pair.second) {
        Ok(both) => assign_step(alloc, store, objects, setting, work, node, both),
        Err(trouble) => Err(halted(trouble, node.place)),
    }
}

/// The step of a node that needs all its operands.
pub(crate) fn needs_step<'a, S: Store, O: Objects>(
    alloc: Global,
    store: &mut S,
    objects: &O,
    setting: &Setting<'a>,
    work: &mut Work<'a>,
    node: &'a CoreExpr,
) -> Result<Progress<'a>, Halt>
    ensures steps { Steps result (S.memory store.old) (S.memory store.new) (view_work work.new)
        (needs_step (view_setting setting.now) (O.frame objects.now) (S.memory store.old) (view_expr node.now) (operands_in (works_in (view_work work.old)))) }
    ensures limit { S.limit store.new ≡ S.limit store.old }
{
    let Some(operands) = operands_at(alloc, work) else {
        return Err(Halt::Memory);
    };
    match &node.form {
        Form::Load(_)
        | Form::Deref(_)
        | Form::Member(_, _)
        | Form::Address(_)
        | Form::Convert(_)
        | Form::Unary(_, _) => unary_step(alloc, store, objects, setting, work, node, operands),
        Form::Binary(_, _, _) | Form::Assign(_, _) => {
            two_step(store, objects, setting, work, node, operands)
        }
        Form::AssignBy(_, _, _, _) => {
            assign_by_step(alloc, store, objects, setting, work, node, operands)
        }
        Form::Step { .. } => step_step(alloc, store, objects, setting, work, node, operands),
        Form::Literal(number, puts) => {
            literal_step(
                alloc,
                store,
                objects,
                setting,
                work,
                node,
                *number,
                puts.as_slice(),
            )
        }
        _ => any_call_step(alloc, setting, work, node, operands),
    }
}

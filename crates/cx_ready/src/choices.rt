//! The steps of `&&`, `||`, `?:` and the comma (ISO C99, 6.5.13 to 6.5.15, 6.5.17).

ghost use Rattle.std.specs.Prelude.{◌≡◌, Ok};
ghost use Rattle.cx_core.specs.Trees.{type_of};
ghost use Rattle.cx_core.specs.Views.{view_expr};
ghost use Rattle.cx_mean.specs.Nodes.{truth};
ghost use Rattle.cx_mean.specs.Steps.{after_choice, chooses_step, finished_with, tests_step};
ghost use Rattle.cx_mean.specs.Work.{begun, carried, tests};
ghost use Rattle.cx_node_steps.specs.Views.{view_choice};
ghost use Rattle.cx_ready.specs.Nodes.{IsLoaded};
ghost use Rattle.cx_ready.specs.Parts.{by_part, marks_in, part_in};
ghost use Rattle.cx_ready.specs.Steps.{Steps};
ghost use Rattle.cx_work.specs.Views.{view_operand, view_work};
ghost use Rattle.mem_bytes.specs.Memory.{Blocks};

use crate::halt::{Halt, Progress, halted};
use crate::parts::{marks_before, part_operand};
use cr_base::Int;
use cx_core::CoreExpr;
use cx_node_steps::{Choice, chosen, tested};
use cx_work::{Finished, Marks, Operand, Work};
use mem_bytes::{Store, Value};
use std::alloc::Global;

// The node is finished, with the value of a test.
#[tactic(auto, using(crate::proofs::Opened::type_of_view))]
fn put_truth<'a>(work: &mut Work<'a>, node: &'a CoreExpr, holds: bool, marks: Marks)
    ensures { view_work work.new ≡ finished_with (type_of (view_expr node.now)) (truth holds) marks }
{
    work.put(Work::Finished(Operand {
        ty: &node.ty,
        value: Finished::Scalar(Value::Whole(Int::from(holds))),
        marks,
    }));
}

// The second operand is tested.
fn put_tests<'a>(
    alloc: Global,
    work: &mut Work<'a>,
    node: &'a CoreExpr,
    marks: Marks,
    second: &'a CoreExpr,
) -> Result<Progress<'a>, Halt>
    ensures { IsLoaded result (view_work work.new) (tests (view_expr node.now) marks (begun (view_expr second.now))) }
{
    match Work::begin(alloc, second) {
        Ok(part) => {
            work.put(Work::Tests(node, marks, part));
            Ok(Progress::Stepped)
        }
        Err(_) => Err(Halt::Memory),
    }
}

// The chosen part is carried on.
fn put_carries<'a>(
    alloc: Global,
    work: &mut Work<'a>,
    node: &'a CoreExpr,
    marks: Marks,
    chosen: &'a CoreExpr,
) -> Result<Progress<'a>, Halt>
    ensures { IsLoaded result (view_work work.new) (carried (view_expr node.now) marks (begun (view_expr chosen.now))) }
{
    match Work::begin(alloc, chosen) {
        Ok(part) => {
            work.put(Work::Carries(node, marks, part));
            Ok(Progress::Stepped)
        }
        Err(_) => Err(Halt::Memory),
    }
}

// What comes behind the first operand.
fn put_choice<'a>(
    alloc: Global,
    work: &mut Work<'a>,
    node: &'a CoreExpr,
    marks: Marks,
    choice: Choice<'a>,
) -> Result<Progress<'a>, Halt>
    ensures { (blocks : Blocks) → Steps result blocks blocks (view_work work.new)
        (Ok (after_choice (view_expr node.now) (type_of (view_expr node.now)) blocks marks (view_choice choice.entry))) }
{
    match choice {
        Choice::Decided(holds) => {
            put_truth(work, node, holds, marks);
            Ok(Progress::Stepped)
        }
        Choice::Tests(second) => put_tests(alloc, work, node, marks, second),
        Choice::Carries(part) => put_carries(alloc, work, node, marks, part),
    }
}

// The first operand is finished; there is a sequence point behind it.
#[tactic(auto, using(crate::proofs::Outcomes::choice_stops, crate::proofs::Opened::place_of_view))]
fn put_chosen<'a, S: Store>(
    alloc: Global,
    store: &S,
    work: &mut Work<'a>,
    node: &'a CoreExpr,
    first: Operand<'a>,
) -> Result<Progress<'a>, Halt>
    ensures { Steps result (S.memory store.now) (S.memory store.now) (view_work work.new) (chooses_step (S.memory store.now) (view_expr node.now) (view_operand first.entry)) }
{
    let Operand {
        value,
        mut marks,
        ..
    } = first;
    let choice = match chosen(store, node, &value) {
        Ok(choice) => choice,
        Err(trouble) => return Err(halted(trouble, node.place)),
    };
    marks.end_sequence(alloc);
    put_choice(alloc, work, node, marks, choice)
}

/// The step of `&&`, `||`, `?:` or a comma once its first operand is finished.
pub(crate) fn choose_step<'a, S: Store>(
    alloc: Global,
    store: &S,
    work: &mut Work<'a>,
    node: &'a CoreExpr,
) -> Result<Progress<'a>, Halt>
    ensures { Steps result (S.memory store.now) (S.memory store.now) (view_work work.new)
        (by_part (view_expr node.now) (chooses_step (S.memory store.now) (view_expr node.now)) (part_in (view_work work.old))) }
{
    match part_operand(alloc, node, work) {
        Some(first) => put_chosen(alloc, store, work, node, first),
        None => Err(Halt::Memory),
    }
}

// The second operand is finished.
#[tactic(auto, using(crate::proofs::Outcomes::stops, crate::proofs::Opened::place_of_view))]
fn put_tested<'a, S: Store>(
    store: &S,
    work: &mut Work<'a>,
    node: &'a CoreExpr,
    second: Operand<'a>,
    mut marks: Marks,
) -> Result<Progress<'a>, Halt>
    ensures { Steps result (S.memory store.now) (S.memory store.now) (view_work work.new) (tests_step (S.memory store.now) (view_expr node.now) marks (view_operand second.entry)) }
{
    let Operand {
        value,
        marks: own,
        ..
    } = second;
    let holds = match tested(store, &value) {
        Ok(holds) => holds,
        Err(trouble) => return Err(halted(trouble, node.place)),
    };
    if marks.join(own).is_err() {
        return Err(Halt::Memory);
    }
    put_truth(work, node, holds, marks);
    Ok(Progress::Stepped)
}

/// The step of `&&` or `||` once its second operand is finished.
pub(crate) fn test_step<'a, S: Store>(
    alloc: Global,
    store: &S,
    work: &mut Work<'a>,
    node: &'a CoreExpr,
) -> Result<Progress<'a>, Halt>
    ensures { Steps result (S.memory store.now) (S.memory store.now) (view_work work.new)
        (by_part (view_expr node.now) (tests_step (S.memory store.now) (view_expr node.now) (marks_in (view_work work.old))) (part_in (view_work work.old))) }
{
    match part_operand(alloc, node, work) {
        Some(second) => {
            let marks = marks_before(alloc, work);
            put_tested(store, work, node, second, marks)
        }
        None => Err(Halt::Memory),
    }
}

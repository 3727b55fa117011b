//! The end of a call for which an expression under evaluation waits (ISO C99, 6.5.2.2p5).

ghost use Rattle.std.specs.Prelude.{◌≡◌, ◌<◌, length, OnErr, OnOk};
ghost use Rattle.cx_core.specs.Trees.{CExpr};
ghost use Rattle.cx_core.specs.Views.{view_type};
ghost use Rattle.cx_mean.specs.Marks.{Marks};
ghost use Rattle.cx_mean.specs.Work.{finished, resumed, waits};
ghost use Rattle.cx_work.specs.Resumes.{AllResume, Resumes, WaitsAt};
ghost use Rattle.cx_work.specs.Views.{view_finished, view_work};
ghost use Rattle.cx_work.specs.Waiting.{waiting_calls};

use crate::children::Children;
use crate::marks::Marks;
use crate::operand::{Finished, Operand};
use crate::work::Work;
use cr_base::Memory;
use cx_core::{CoreExpr, Ty};
use std::alloc::Global;
use std::mem;

/// Puts what a function gave in the place of the call for which the tree waits. It takes no memory.
///
/// # Errors
///
/// `Memory` only where more than one call waits, which no run has: there is one value.
pub fn resume(alloc: Global, work: &mut Work<'_>, value: Finished) -> Result<(), Memory>
    ensures resumed { OnOk result (view_work work.new ≡ resumed (view_finished value) (view_work work.old)) }
    ensures refused { OnErr result (1 < waiting_calls (view_work work.old)) }
{
    let mut held = Some(value);
    fill(alloc, work, &mut held)
}

#[cycle(fill)]
fn fill(alloc: Global, work: &mut Work<'_>, value: &mut Option<Finished>) -> Result<(), Memory>
    ensures { Resumes result value.old value.new (view_work work.old) (view_work work.new) }
{
    match work {
        Work::Finished(_) | Work::Updates(_, _, _, _) => Ok(()),
        Work::Needs(_, operands) => fill_all(alloc, operands, value),
        Work::Chooses(_, part) => fill(alloc, part.get_mut(), value),
        Work::Tests(_, _, part) => fill(alloc, part.get_mut(), value),
        Work::Carries(_, _, part) => fill(alloc, part.get_mut(), value),
        Work::Fills(_, _, _, _, part) => fill(alloc, part.get_mut(), value),
        Work::Waits(node, _) => {
            let node = *node;
            end_wait(alloc, node, work, value)
        }
    }
}

#[cycle(fill)]
fn fill_all(
    alloc: Global,
    works: &mut Children<Work<'_>>,
    value: &mut Option<Finished>,
) -> Result<(), Memory>
    ensures resumes { AllResume result value.old value.new works.old works.new }
    ensures length { length works.new ≡ length works.old }
{
    for index in 0..works.len() {
        fill(alloc, works.at_mut(index), value)?;
    }
    Ok(())
}

// The call itself.
#[tactic(auto, using(crate::proofs::Opened::type_of_view))]
fn end_wait<'a>(
    alloc: Global,
    node: &'a CoreExpr,
    work: &mut Work<'a>,
    value: &mut Option<Finished>,
) -> Result<(), Memory>
    ensures { WaitsAt node.now (view_work work.old) → Resumes result value.old value.new (view_work work.old) (view_work work.new) }
{
    let Some(given) = value.take() else {
        return Err(Memory);
    };
    put_finished(alloc, work, &node.ty, given);
    Ok(())
}

// A call becomes an operand with its marks.
fn put_finished<'a>(alloc: Global, work: &mut Work<'a>, ty: &'a Ty, value: Finished)
    ensures { (node : CExpr) (marks : Marks) → view_work work.old ≡ waits node marks
        → view_work work.new ≡ finished (record { type = view_type ty.now; value = view_finished value; marks = marks }) }
{
    let marks = marks_of(alloc, work);
    work.put(Work::Finished(Operand { ty, value, marks }));
}

// The marks of a call that waits.
fn marks_of(alloc: Global, work: &mut Work<'_>) -> Marks
    ensures { (node : CExpr) (marks : Marks) → view_work work.old ≡ waits node marks → result ≡ marks }
{
    match work {
        Work::Waits(_, marks) => mem::replace(marks, Marks::new(alloc)),
        _ => Marks::new(alloc),
    }
}

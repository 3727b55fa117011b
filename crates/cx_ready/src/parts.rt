//! Parts of a node that are taken out of it, or read in it.

ghost use Rattle.std.specs.Prelude.{◌≡◌, Some, IfSome};
ghost use Rattle.cx_mean.specs.Work.{finished};
ghost use Rattle.cx_ready.specs.Parts.{marks_in, part_in, stage_in, with_stage, without_marks, works_in};
ghost use Rattle.cx_work.specs.Views.{view_operand, view_stage, view_work, view_works};

use crate::operands::operand_of;
use cx_core::CoreExpr;
use cx_work::{Children, Marks, Operand, Stage, Work};
use std::alloc::Global;
use std::mem;

// What is put in the place of a part that is taken.
fn nothing<'a>(alloc: Global, node: &'a CoreExpr) -> Work<'a> {
    Work::Waits(node, Marks::new(alloc))
}

/// The finished operand of `&&`, `||`, `?:`, a comma or a put, taken out of its node.
pub(crate) fn part_operand<'a>(
    alloc: Global,
    node: &'a CoreExpr,
    work: &mut Work<'a>,
) -> Option<Operand<'a>>
    ensures part { IfSome result (λ one. part_in (view_work work.old) ≡ Some (finished (view_operand one))) }
    ensures marks { marks_in (view_work work.new) ≡ marks_in (view_work work.old) }
{
    match work {
        Work::Chooses(_, part) => operand_of(mem::replace(part.get_mut(), nothing(alloc, node))),
        Work::Tests(_, _, part) => operand_of(mem::replace(part.get_mut(), nothing(alloc, node))),
        Work::Fills(_, _, _, _, part) => {
            operand_of(mem::replace(part.get_mut(), nothing(alloc, node)))
        }
        _ => None,
    }
}

/// The marks of what went before, taken out of their node.
pub(crate) fn marks_before(alloc: Global, work: &mut Work<'_>) -> Marks
    ensures marks { result ≡ marks_in (view_work work.old) }
    ensures left { view_work work.new ≡ without_marks (view_work work.old) }
{
    match work {
        Work::Tests(_, marks, _) => mem::replace(marks, Marks::new(alloc)),
        Work::Updates(_, _, _, marks) => mem::replace(marks, Marks::new(alloc)),
        Work::Fills(_, marks, _, _, _) => mem::replace(marks, Marks::new(alloc)),
        _ => Marks::new(alloc),
    }
}

/// The operands of a node, which is left without them.
pub(crate) fn operands_at<'a>(alloc: Global, work: &mut Work<'a>) -> Option<Children<Work<'a>>>
    ensures { IfSome result (λ operands. works_in (view_work work.old) ≡ view_works operands) }
{
    match work {
        Work::Needs(_, operands) => Some(mem::replace(operands, Children::new(alloc))),
        _ => None,
    }
}

/// The stage of `op=`, `++` or `--`.
pub(crate) fn stage_of(work: &Work<'_>) -> Stage
    ensures { view_stage result ≡ stage_in (view_work work.now) }
{
    match work {
        Work::Updates(_, _, stage, _) => *stage,
        _ => Stage::WasLoaded,
    }
}

/// Sets the stage of `op=`, `++` or `--`.
pub(crate) fn put_stage(work: &mut Work<'_>, stage: Stage)
    ensures { view_work work.new ≡ with_stage (view_stage stage) (view_work work.old) }
{
    if let Work::Updates(_, _, held, _) = work {
        *held = stage;
    }
}

//! What a finished expression gives (ISO C99, 6.5p1).

ghost use Rattle.std.specs.Prelude.{◌≡◌, Some, IsTrue};
ghost use Rattle.cx_mean.specs.Work.{is_finished};
ghost use Rattle.cx_work.specs.Values.{value_in};
ghost use Rattle.cx_work.specs.Views.{view_finished, view_work};

use crate::operand::Finished;
use crate::work::Work;

/// The value of a tree that is finished. It takes no memory.
#[tactic(auto, using(crate::proofs::Carried::carried_finishes, crate::proofs::Carried::carried_value))]
pub fn finish(work: Work<'_>) -> Finished
    requires { IsTrue (is_finished (view_work work)) }
    ensures { value_in (view_work work.entry) ≡ Some (view_finished result) }
{
    match work {
        Work::Finished(operand) => operand.value,
        Work::Carries(_, _, part) => finish(part.into_inner()),
        Work::Needs(_, _) => unreachable!(),
        Work::Chooses(_, _) => unreachable!(),
        Work::Tests(_, _, _) => unreachable!(),
        Work::Updates(_, _, _, _) => unreachable!(),
        Work::Fills(_, _, _, _, _) => unreachable!(),
        Work::Waits(_, _) => unreachable!(),
    }
}

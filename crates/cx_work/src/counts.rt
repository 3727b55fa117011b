//! Which nodes of an expression under evaluation may take the next step (ISO C99, 5.1.2.3 and 6.5p3).

ghost use Rattle.std.specs.Prelude.{◌≡◌, ℕ, ◌+◌, ◌-◌, ◌^◌, min};
ghost use Rattle.cx_mean.specs.Work.{are_finished, are_waiting, is_finished, is_waiting, one_or, ready, ready_among, ready_nodes};
ghost use Rattle.cx_work.specs.Counts.{Counts};
ghost use Rattle.cx_work.specs.Views.{view_work, view_works};

use crate::work::Work;

/// Whether a tree is a finished operand.
#[tactic(auto, using(crate::proofs::Carried::carried_finishes))]
pub fn is_finished(work: &Work<'_>) -> bool
    ensures { result ≡ is_finished (view_work work.now) }
{
    match work {
        Work::Finished(_) => true,
        Work::Carries(_, _, part) => is_finished(part.get()),
        Work::Needs(_, _)
        | Work::Chooses(_, _)
        | Work::Tests(_, _, _)
        | Work::Updates(_, _, _, _)
        | Work::Fills(_, _, _, _, _)
        | Work::Waits(_, _) => false,
    }
}

/// Whether all operands of a node are finished.
pub fn are_finished(works: &[Work<'_>]) -> bool
    ensures { result ≡ are_finished (view_works works.now) }
{
    for work in works {
        if !is_finished(work) {
            return false;
        }
    }
    true
}

// One where a node is ready, and else the ready ones below it.
fn one_or(is_ready: bool, count: Option<u64>) -> Option<u64>
    ensures { (below : ℕ) → Counts count below → Counts result (one_or is_ready below) }
{
    if is_ready {
        return Some(1);
    }
    count
}

fn sum(first: Option<u64>, others: Option<u64>) -> Option<u64>
    ensures { (one other : ℕ) → Counts first one → Counts others other → Counts result (one + other) }
{
    let Some(first) = first else {
        return None;
    };
    let Some(others) = others else {
        return None;
    };
    first.checked_add(others)
}

/// How many nodes are ready; none only where a `u64` doesn't count them.
#[cycle(count)]
#[tactic(auto, using(crate::proofs::Carried::carried_counts))]
pub fn counted(work: &Work<'_>) -> Option<u64>
    ensures { Counts result (ready (view_work work.now)) }
{
    match work {
        Work::Finished(_) | Work::Waits(_, _) => Some(0),
        Work::Updates(_, _, _, _) => Some(1),
        Work::Needs(_, operands) => {
            counted_needs(are_finished(operands.as_slice()), operands.as_slice())
        }
        Work::Chooses(_, part) | Work::Tests(_, _, part) | Work::Fills(_, _, _, _, part) => {
            one_or(is_finished(part.get()), counted(part.get()))
        }
        Work::Carries(_, _, part) => counted(part.get()),
    }
}

#[cycle(count)]
fn counted_needs(is_ready: bool, operands: &[Work<'_>]) -> Option<u64>
    ensures { Counts result (one_or is_ready (ready_among (view_works operands.now))) }
{
    if is_ready {
        return Some(1);
    }
    counted_among(operands)
}

#[cycle(count)]
fn counted_among(operands: &[Work<'_>]) -> Option<u64>
    ensures { Counts result (ready_among (view_works operands.now)) }
{
    let mut count = Some(0);
    for one in operands {
        count = sum(count, counted(one));
    }
    count
}

/// Whether a call in the tree waits for its function to end.
#[cycle(waiting)]
#[tactic(auto, using(crate::proofs::Carried::carried_waits))]
pub fn is_waiting(work: &Work<'_>) -> bool
    ensures { result ≡ is_waiting (view_work work.now) }
{
    match work {
        Work::Finished(_) | Work::Updates(_, _, _, _) => false,
        Work::Needs(_, operands) => are_waiting(operands.as_slice()),
        Work::Chooses(_, part)
        | Work::Tests(_, _, part)
        | Work::Carries(_, _, part)
        | Work::Fills(_, _, _, _, part) => is_waiting(part.get()),
        Work::Waits(_, _) => true,
    }
}

#[cycle(waiting)]
fn are_waiting(operands: &[Work<'_>]) -> bool
    ensures { result ≡ are_waiting (view_works operands.now) }
{
    for one in operands {
        if is_waiting(one) {
            return true;
        }
    }
    false
}

/// How many nodes may take the next step: none where the tree is finished, or waits for a call. The greatest
/// number of 64 bits stands for more than that.
pub fn ready(work: &Work<'_>) -> u64
    ensures { result ≡ min (ready_nodes (view_work work.now)) (2 ^ 64 - 1) }
{
    if is_waiting(work) {
        return 0;
    }
    match counted(work) {
        Some(count) => count,
        None => u64::MAX,
    }
}

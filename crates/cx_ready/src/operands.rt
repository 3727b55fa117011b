//! The finished operands of a node, taken out of its tree.

ghost use Rattle.std.specs.Prelude.{◌≡◌, [], ◌∷◌, ◌++◌, map, IfSome};
ghost use Rattle.cx_core.specs.Trees.{CExpr};
ghost use Rattle.cx_mean.specs.Work.{CWork, carried, finished, operands_in};
ghost use Rattle.cx_ready.specs.Taken.{IsLonger, IsPaired};
ghost use Rattle.cx_work.specs.Views.{view_operand, view_work, view_works, works_of};

use cr_base::Items;
use cx_work::{Children, Marks, Operand, Work};
use std::alloc::Global;

// An operand with what was accessed before it.
fn behind<'a>(mut marks: Marks, operand: Option<Operand<'a>>) -> Option<Operand<'a>>
    ensures { (node : CExpr) (work : CWork) → IfSome operand.entry (λ one. work ≡ finished (view_operand one)) →
        IfSome result (λ one. carried node marks work ≡ finished (view_operand one)) }
{
    let Some(operand) = operand else {
        return None;
    };
    let Operand {
        ty,
        value,
        marks: own,
    } = operand;
    if marks.join(own).is_err() {
        return None;
    }
    Some(Operand { ty, value, marks })
}

/// The operand that a tree is; none only for want of memory, or where it isn't finished.
#[cycle(operand)]
#[tactic(auto, using(crate::proofs::Opened::carries_view))]
pub(crate) fn operand_of(work: Work<'_>) -> Option<Operand<'_>>
    ensures { IfSome result (λ one. view_work work.entry ≡ finished (view_operand one)) }
{
    match work {
        Work::Finished(operand) => Some(operand),
        Work::Carries(_, marks, part) => behind(marks, operand_of(part.into_inner())),
        Work::Needs(_, _) => None,
        Work::Chooses(_, _) => None,
        Work::Tests(_, _, _) => None,
        Work::Updates(_, _, _, _) => None,
        Work::Fills(_, _, _, _, _) => None,
        Work::Waits(_, _) => None,
    }
}

// The last of the trees of operands, as the operand that it is.
#[tactic(auto, using(crate::proofs::Lasts::operands_before))]
fn last_operand<'a>(works: &mut Vec<Work<'a>>) -> Option<Operand<'a>>
    ensures { IfSome result (λ one. operands_in (works_of (map view_work works.old.items)) ≡ operands_in (works_of (map view_work works.new.items)) ++ view_operand one ∷ []) }
{
    match works.pop() {
        Some(last) => operand_of(last),
        None => None,
    }
}

/// The one operand of a node.
pub(crate) fn one_operand<'a>(operands: Children<Work<'a>>) -> Option<Operand<'a>>
    ensures { IfSome result (λ one. operands_in (view_works operands.entry) ≡ view_operand one ∷ []) }
{
    let mut works = operands.into_vec();
    let one = last_operand(&mut works);
    if works.is_empty() { one } else { None }
}

/// Two operands.
#[derive(Drop)]
pub(crate) struct Pair<'a> {
    pub(crate) first: Operand<'a>,
    pub(crate) second: Operand<'a>,
}

fn both_of<'a>(first: Option<Operand<'a>>, second: Option<Operand<'a>>) -> Option<Pair<'a>>
    ensures { IsPaired first.entry second.entry result }
{
    let Some(first) = first else {
        return None;
    };
    match second {
        Some(second) => Some(Pair { first, second }),
        None => None,
    }
}

/// The two operands of a node.
pub(crate) fn two_operands<'a>(operands: Children<Work<'a>>) -> Option<Pair<'a>>
    ensures { IfSome result (λ one. operands_in (view_works operands.entry) ≡ view_operand one.first ∷ view_operand one.second ∷ []) }
{
    let mut works = operands.into_vec();
    let second = last_operand(&mut works);
    let first = last_operand(&mut works);
    if !works.is_empty() {
        return None;
    }
    both_of(first, second)
}

fn with_last<'a>(
    others: Option<Items<Operand<'a>>>,
    last: Option<Operand<'a>>,
) -> Option<Items<Operand<'a>>>
    ensures { IsLonger others.entry last.entry result }
{
    let Some(mut list) = others else {
        return None;
    };
    let Some(last) = last else {
        return None;
    };
    if list.push(last).is_err() {
        return None;
    }
    Some(list)
}

// The operands of trees in their order.
#[cycle(operands)]
#[tactic(auto, using(crate::proofs::Lasts::operands_before))]
fn operands_of<'a>(alloc: Global, works: &mut Vec<Work<'a>>) -> Option<Items<Operand<'a>>>
    ensures { IfSome result (λ list. operands_in (works_of (map view_work works.old.items)) ≡ map view_operand list) }
{
    let last = match works.pop() {
        Some(last) => operand_of(last),
        None => return Some(Items::new(alloc)),
    };
    with_last(operands_of(alloc, works), last)
}

/// All operands of a node.
pub(crate) fn all_operands<'a>(
    alloc: Global,
    operands: Children<Work<'a>>,
) -> Option<Items<Operand<'a>>>
    ensures { IfSome result (λ list. operands_in (view_works operands.entry) ≡ map view_operand list) }
{
    let mut works = operands.into_vec();
    operands_of(alloc, &mut works)
}

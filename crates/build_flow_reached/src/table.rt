//! Where control goes from each place of linear code, by numbers.

ghost use Rattle.std.specs.Prelude.{◌≡◌, ◌++◌, [], ◌∷◌, map, Some, IfOk};
ghost use Rattle.build_flow_instrs.specs.Views.{branch_view, case_view, instr_view, place_view};
ghost use Rattle.build_flow_nodes.specs.Flows.{branch_places};
ghost use Rattle.build_flow_nodes.specs.Points as points;
ghost use Rattle.build_flow_reached.specs.Index.{number_in};
ghost use Rattle.build_flow_reached.specs.Tables.{arms_in, arms_of, branches_from, row_at};

use crate::index::PlaceIndex;
use build_flow_instrs::{FlowPlace, Instr, PlacedBranch, PlacedCase};
use cr_base::{Items, Memory};
use std::alloc::Global;

/// Where control goes from each place of linear code. Straight lines of places end at one branch, whose arms are listed once.
#[derive(Drop)]
pub(crate) struct Table {
    // the number of the branch at which each place ends
    branches: Items<usize>,
    // the numbers of the places to which each branch leads
    arms: Items<Items<u32>>,
}

// The numbers of the places of cases.
fn case_arms(alloc: Global, index: &PlaceIndex, cases: &[PlacedCase]) -> Result<Items<u32>, Memory>
    ensures { IfOk result (λ arms. arms ≡ map (number_in index.now) (map (λ (one : points.PlacedCase). one.to) (map case_view cases.now))) }
{
    let mut arms = Items::new(alloc);
    for one in cases {
        arms.push(index.number(alloc, &one.to)?)?;
    }
    Ok(arms)
}

// The numbers of the places of cases, and of another.
#[tactic(auto, using(crate::proofs::Choices::choice_numbered))]
fn choice_arms(
    alloc: Global,
    index: &PlaceIndex,
    cases: &[PlacedCase],
    other: &FlowPlace,
) -> Result<Items<u32>, Memory>
    ensures { IfOk result (λ arms. arms ≡ map (number_in index.now) (map (λ (one : points.PlacedCase). one.to) (map case_view cases.now) ++ place_view other.now ∷ [])) }
{
    let mut arms = case_arms(alloc, index, cases)?;
    arms.push(index.number(alloc, other)?)?;
    Ok(arms)
}

// The number of one place.
fn one_arm(alloc: Global, index: &PlaceIndex, to: &FlowPlace) -> Result<Items<u32>, Memory>
    ensures { IfOk result (λ arms. arms ≡ number_in index.now (place_view to.now) ∷ []) }
{
    let mut arms = Items::new(alloc);
    arms.push(index.number(alloc, to)?)?;
    Ok(arms)
}

// The numbers of the places to which a branch leads.
fn arms_of(alloc: Global, index: &PlaceIndex, branch: &PlacedBranch) -> Result<Items<u32>, Memory>
    ensures { IfOk result (λ arms. arms ≡ map (number_in index.now) (branch_places (branch_view branch.now))) }
{
    match branch {
        PlacedBranch::Goes(to) => one_arm(alloc, index, to),
        PlacedBranch::Tests(_, if_true, if_false) => {
            let mut arms = one_arm(alloc, index, if_true)?;
            arms.push(index.number(alloc, if_false)?)?;
            Ok(arms)
        }
        PlacedBranch::Chooses { cases, other, .. } => {
            choice_arms(alloc, index, cases.as_slice(), other)
        }
        PlacedBranch::Returns(_) => Ok(Items::new(alloc)),
    }
}

impl Table {
    /// Where control goes from the places of linear code. Refused only for want of memory.
    pub(crate) fn of(alloc: Global, index: &PlaceIndex, code: &[Instr]) -> Result<Table, Memory>
        ensures branches { IfOk result (λ table. table.branches ≡ branches_from 0 (map instr_view code.now)) }
        ensures arms { IfOk result (λ table. table.arms ≡ arms_in (number_in index.now) (map instr_view code.now)) }
    {
        let mut branches = Items::new(alloc);
        let mut arms = Items::new(alloc);
        for instr in code {
            match instr {
                Instr::Marks(_) => branches.push(arms.len())?,
                Instr::Does(_) => {}
                Instr::Leaves(branch) => arms.push(arms_of(alloc, index, branch)?)?,
            }
        }
        Ok(Table { branches, arms })
    }

    // The arms of the branch of a number.
    fn row(&self, branch: usize) -> &[u32]
        ensures { result.now ≡ row_at self.now.arms (Some branch) }
    {
        match self.arms.get(branch) {
            Some(row) => row.as_slice(),
            None => &[],
        }
    }

    /// The numbers of the places to which control goes from the place of a number.
    pub(crate) fn arms(&self, place: u32) -> &[u32]
        ensures { result.now ≡ arms_of self.now place }
    {
        match self.branches.get(place as usize) {
            Some(branch) => self.row(*branch),
            None => &[],
        }
    }
}

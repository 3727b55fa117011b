//! Branches to nodes by their numbers.

ghost use Rattle.std.specs.Prelude.{◌≡◌, map, IfOk};
ghost use Rattle.build_flow_instrs.specs.Views as placed;
ghost use Rattle.build_flow_reached.specs.Behind.{branch_with, case_with};
ghost use Rattle.build_flow_reached.specs.Views.{number_of};
ghost use Rattle.flow.specs.Views.{branch_view, case_view};

use crate::numbers::Places;
use build_flow_instrs::{PlacedBranch, PlacedCase};
use cr_base::{Items, Memory};
use flow::{Branch, Case};
use std::alloc::Global;

fn case_of(alloc: Global, places: &Places<'_>, one: &PlacedCase) -> Result<Case, Memory>
    ensures { IfOk result (λ made. case_view made ≡ case_with (number_of places.now) (placed.case_view one.now)) }
{
    let to = places.number(alloc, &one.to)?;
    Ok(Case {
        value: one.value,
        to,
    })
}

fn cases_of(alloc: Global, places: &Places<'_>, cases: &[PlacedCase]) -> Result<Items<Case>, Memory>
    ensures { IfOk result (λ made. map case_view made ≡ map (case_with (number_of places.now)) (map placed.case_view cases.now)) }
{
    let mut made = Items::new(alloc);
    for one in cases {
        made.push(case_of(alloc, places, one)?)?;
    }
    Ok(made)
}

/// A branch to the nodes of its places. Refused only for want of memory.
pub(crate) fn branch_of(
    alloc: Global,
    places: &Places<'_>,
    branch: PlacedBranch,
) -> Result<Branch, Memory>
    ensures { IfOk result (λ made. branch_view made ≡ branch_with (number_of places.now) (placed.branch_view branch)) }
{
    match branch {
        PlacedBranch::Goes(to) => Ok(Branch::Go(places.number(alloc, &to)?)),
        PlacedBranch::Tests(test, if_true, if_false) => {
            let if_true = places.number(alloc, &if_true)?;
            let if_false = places.number(alloc, &if_false)?;
            Ok(Branch::If(test, if_true, if_false))
        }
        PlacedBranch::Chooses {
            on,
            by,
            cases,
            other,
        } => {
            let cases = cases_of(alloc, places, cases.as_slice())?;
            let other = places.number(alloc, &other)?;
            Ok(Branch::Switch {
                on,
                by,
                cases,
                other,
            })
        }
        PlacedBranch::Returns(value) => Ok(Branch::Return(value)),
    }
}

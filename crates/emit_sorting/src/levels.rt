//! Lists of nests in which none goes into an arm.

ghost use Rattle.std.specs.Prelude.{◌≡◌, [], map, IfOk};
ghost use Rattle.emit_nests.specs.Views.{nest_view};
ghost use Rattle.emit_rules.specs.Nests.{chain};
ghost use Rattle.emit_rules.specs.Sorting.{all_level, arranged, level, unfilled};
ghost use Rattle.emit_places.specs.Sorted.{sibling_view};
ghost use Rattle.emit_sorting.specs.Chained.{ranked_view};
ghost use Rattle.flow.specs.Views.{flow_view};

use crate::chaining::{Ranked, chained};
use crate::makers::{choice, dispatched, group, repeated, single};
use cr_base::{Boxed, Items, Memory};
use emit_nests::Nest;
use emit_places::{Sibling, put_all};
use flow::Flow;
use std::alloc::Global;

// Nests in whose arms nothing was put.
fn unfilled(alloc: Global, siblings: Items<Sibling>) -> Result<Items<Ranked>, Memory>
    ensures { IfOk result (λ made. map ranked_view made ≡ map unfilled (map sibling_view siblings)) }
{
    let mut made = Items::new(alloc);
    for sibling in siblings.into_vec() {
        made.push(Ranked {
            nest: sibling.nest,
            from: sibling.from,
        })?;
    }
    Ok(made)
}

/// A list in which no nest goes into an arm.
pub(crate) fn arranged(
    alloc: Global,
    flow: &Flow,
    after: &[u32],
    nests: &[Nest],
) -> Result<Items<Nest>, Memory>
    ensures { IfOk result (λ made. chain (map nest_view made) ≡ arranged (flow_view flow.now) after.now (map nest_view nests.now)) }
{
    let siblings = put_all(alloc, flow, false, after, nests)?;
    let ranked = unfilled(alloc, siblings)?;
    chained(alloc, ranked)
}

// A nest in whose lists no nest goes into an arm.
#[cycle(levels)]
fn level(alloc: Global, flow: &Flow, nest: &Nest) -> Result<Boxed<Nest>, Memory>
    ensures { IfOk result (λ made. nest_view made ≡ level (flow_view flow.now) (nest_view nest.now)) }
{
    match nest {
        Nest::Single { node, .. } => single(alloc, *node, Items::new(alloc)),
        Nest::Choice { heads, .. } => choice(alloc, heads.as_slice(), Items::new(alloc)),
        Nest::Group(members) => {
            let members = level_list(alloc, flow, members)?;
            group(alloc, members)
        }
        Nest::Repeated { head, body } => {
            let body = level_list(alloc, flow, body)?;
            repeated(alloc, *head, body)
        }
        Nest::Dispatched { heads, body } => {
            let body = level_list(alloc, flow, body)?;
            dispatched(alloc, heads.as_slice(), body)
        }
    }
}

#[cycle(levels)]
fn level_list(alloc: Global, flow: &Flow, nests: &Items<Nest>) -> Result<Items<Nest>, Memory>
    ensures { IfOk result (λ made. chain (map nest_view made) ≡ arranged (flow_view flow.now) [] (all_level (flow_view flow.now) (chain (map nest_view nests.now)))) }
{
    let plain = all_level(alloc, flow, nests)?;
    arranged(alloc, flow, &[], plain.as_slice())
}

/// The same of nests, in their order.
#[cycle(levels)]
pub(crate) fn all_level(
    alloc: Global,
    flow: &Flow,
    nests: &Items<Nest>,
) -> Result<Items<Nest>, Memory>
    ensures { IfOk result (λ made. map nest_view made ≡ all_level (flow_view flow.now) (chain (map nest_view nests.now))) }
{
    let mut made = Items::new(alloc);
    for nest in nests.as_slice() {
        made.push(level(alloc, flow, nest)?.into_inner())?;
    }
    Ok(made)
}

//! The statements of nests.

ghost use Rattle.std.specs.Prelude.{◌≡◌, ◌+◌, ◌++◌, suc, length, map, IfOk, OnOk};
ghost use Rattle.emit_nests.specs.Views.{chain_view, chains, nest_view};
ghost use Rattle.emit_rules.specs.Bodies.{nest_stmts, chain_stmts, arms_stmts, arm_stmts};
ghost use Rattle.emit_rules.specs.Jumps.{goes_to, jumps_within};
ghost use Rattle.emit_rules.specs.Nests as nests;
ghost use Rattle.emit_rules.specs.Nests.{chain};
ghost use Rattle.emit_rules.specs.Texts.{choice_stmts, loop_of, one_stmt};
ghost use Rattle.emit_texts.specs.Scopes.{jumps_of};
ghost use Rattle.emit_texts.specs.Texts.{text_view};
ghost use Rattle.flow.specs.Views.{flow_view};
ghost use Rattle.rs_text.specs.Tree.{stmts};
ghost use Rattle.rs_tree.specs.Views.{stmt_view};

use crate::blocks::{loop_of, put_behind};
use crate::branches::{Text, choice_stmts};
use crate::nodes::node_stmts;
use crate::scopes::{Scope, scopes_before, within};
use crate::ways::{goes_to, told};
use cr_base::{Items, Memory};
use emit_nests::{Chain, Nest, chain_entries, chain_is_told, is_among};
use flow::{Flow, targets_of};
use rs_tree::RStmt;
use std::alloc::Global;

// The statements of a nest, where these labels are around.
#[cycle(nests)]
fn nest_stmts(
    alloc: Global,
    flow: &Flow,
    nest: &Nest,
    scopes: &Items<Scope>,
) -> Result<Items<RStmt>, Memory>
    ensures { IfOk result (λ made. stmts (map stmt_view made) ≡ nest_stmts (flow_view flow.now) (nest_view nest.now) (length scopes.now) (jumps_of scopes.now)) }
{
    match nest {
        Nest::Single { node, arms } => single_stmts(alloc, flow, *node, arms, scopes),
        Nest::Choice { heads, arms } => picked_stmts(alloc, flow, heads.as_slice(), arms, scopes),
        Nest::Group(members) => chain_stmts(alloc, flow, members, scopes),
        Nest::Repeated { head, body } => loop_stmts(alloc, flow, &[*head], body, scopes),
        Nest::Dispatched { heads, body } => {
            loop_stmts(alloc, flow, heads.as_slice(), body, scopes)
        }
    }
}

// A node, with what stands in its arms.
#[cycle(nests)]
fn single_stmts(
    alloc: Global,
    flow: &Flow,
    node: u32,
    arms: &Items<Chain>,
    scopes: &Items<Scope>,
) -> Result<Items<RStmt>, Memory>
    ensures { IfOk result (λ made. stmts (map stmt_view made) ≡
        nest_stmts (flow_view flow.now) (nests.single node (chains (map chain_view arms.now))) (length scopes.now) (jumps_of scopes.now)) }
{
    let targets = targets_of(alloc, flow, node)?;
    let texts = arms_stmts(alloc, flow, arms, targets.as_slice(), scopes)?;
    node_stmts(alloc, flow, node, texts)
}

// The choice of a head, with what stands in its arms.
#[cycle(nests)]
fn picked_stmts(
    alloc: Global,
    flow: &Flow,
    heads: &[u32],
    arms: &Items<Chain>,
    scopes: &Items<Scope>,
) -> Result<Items<RStmt>, Memory>
    ensures { IfOk result (λ made. stmts (map stmt_view made) ≡
        nest_stmts (flow_view flow.now) (nests.choice heads.now (chains (map chain_view arms.now))) (length scopes.now) (jumps_of scopes.now)) }
{
    let texts = arms_stmts(alloc, flow, arms, heads, scopes)?;
    choice_stmts(alloc, heads, texts)
}

// A loop of these heads.
#[cycle(nests)]
fn loop_stmts(
    alloc: Global,
    flow: &Flow,
    heads: &[u32],
    body: &Items<Nest>,
    scopes: &Items<Scope>,
) -> Result<Items<RStmt>, Memory>
    ensures { IfOk result (λ made. stmts (map stmt_view made) ≡ one_stmt (loop_of (length scopes.now) (chain_stmts (flow_view flow.now) (chain (map nest_view body.now))
        (suc (length scopes.now)) (jumps_within (length scopes.now) heads.now (nests.chain_is_told (chain (map nest_view body.now))) (jumps_of scopes.now))))) }
{
    let scope = Scope {
        is_loop: true,
        is_told: chain_is_told(body),
        entries: Items::from_slice(alloc, heads)?,
    };
    let inner = within(alloc, scope, scopes.as_slice())?;
    let text = chain_stmts(alloc, flow, body, &inner)?;
    loop_of(alloc, scopes.len(), text)
}

/// The statements of nests in order, where these labels are around.
#[cycle(nests)]
pub(crate) fn chain_stmts(
    alloc: Global,
    flow: &Flow,
    members: &Items<Nest>,
    scopes: &Items<Scope>,
) -> Result<Items<RStmt>, Memory>
    ensures { IfOk result (λ made. stmts (map stmt_view made) ≡ chain_stmts (flow_view flow.now) (chain (map nest_view members.now)) (length scopes.now) (jumps_of scopes.now)) }
{
    let mut made = Items::new(alloc);
    let mut next = 0;
    for nest in members.as_slice() {
        next += 1;
        let inner = scopes_before(alloc, members.as_slice(), next, scopes.as_slice())?;
        let text = nest_stmts(alloc, flow, nest, &inner)?;
        put_behind(alloc, &mut made, next < members.len(), scopes.len(), text)?;
    }
    Ok(made)
}

// What stands in each arm, by its target.
#[cycle(nests)]
fn arms_stmts(
    alloc: Global,
    flow: &Flow,
    arms: &Items<Chain>,
    targets: &[u32],
    scopes: &Items<Scope>,
) -> Result<Items<Text>, Memory>
    ensures texts { IfOk result (λ texts. map text_view texts ≡ arms_stmts (flow_view flow.now) (chains (map chain_view arms.now)) (length scopes.now) (jumps_of scopes.now) targets.now) }
    ensures count { IfOk result (λ texts. length texts ≡ length targets.now) }
{
    let mut texts = Items::new(alloc);
    let mut index = 0;
    for inner in arms.as_slice() {
        let Some(&target) = targets.get(index) else {
            return Ok(texts);
        };
        index += 1;
        texts.push(arm_text(alloc, flow, inner, target, scopes)?)?;
    }
    put_ways(alloc, &mut texts, &targets[index..], scopes.as_slice())?;
    Ok(texts)
}

// What stands in an arm that goes to a node: the nests that are entered there, or a way to it.
#[cycle(nests)]
fn arm_text(
    alloc: Global,
    flow: &Flow,
    inner: &Chain,
    target: u32,
    scopes: &Items<Scope>,
) -> Result<Text, Memory>
    ensures { IfOk result (λ text. text_view text ≡ arm_stmts (jumps_of scopes.now) target (chain_view inner.now) (chain_stmts (flow_view flow.now) (chain_view inner.now) (length scopes.now) (jumps_of scopes.now))) }
{
    let entries = chain_entries(alloc, &inner.nests)?;
    if !is_among(target, entries.as_slice()) {
        let stmts = goes_to(alloc, scopes.as_slice(), target)?;
        return Ok(Text { stmts });
    }
    let inside = chain_stmts(alloc, flow, &inner.nests, scopes)?;
    let stmts = told(alloc, chain_is_told(&inner.nests), target, inside)?;
    Ok(Text { stmts })
}

// Ways to targets that have no arm.
fn put_ways(
    alloc: Global,
    texts: &mut Items<Text>,
    targets: &[u32],
    scopes: &[Scope],
) -> Result<(), Memory>
    ensures texts { OnOk result (map text_view texts.new ≡ map text_view texts.old ++ map (goes_to (jumps_of scopes.now)) targets.now) }
    ensures count { OnOk result (length texts.new ≡ length texts.old + length targets.now) }
{
    for &target in targets {
        let stmts = goes_to(alloc, scopes, target)?;
        texts.push(Text { stmts })?;
    }
    Ok(())
}

//! Copies of statements. Each is refused only for want of memory.

ghost use Rattle.std.specs.Prelude.{◌≡◌, None, Some, map, IfOk};
ghost use Rattle.rs_text.specs.Tree as tree;
ghost use Rattle.rs_text.specs.Tree.{stmts, arms};
ghost use Rattle.rs_tree.specs.Views.{stmt_view, arm_view};
ghost use Rattle.emit_stmts.specs.Copies.{stmt_copy, stmts_copy, arms_copy, inside, own_label};

use crate::copied::{
    arm_of, assigned, begun_anew, bytes_copied, chosen, evaluated, given_back, left, matched,
};
use crate::labels::{Labels, inside, own_label};
use cr_base::{Boxed, Items, Memory, Name};
use rs_tree::{Arm, RStmt};
use std::alloc::Global;

// The copy of a statement.
#[cycle(copies)]
fn copy_stmt(alloc: Global, labels: &Labels, s: &RStmt) -> Result<Boxed<RStmt>, Memory>
    ensures { IfOk result (λ made. stmt_view made ≡ stmt_copy labels.now (stmt_view s.now)) }
{
    match s {
        RStmt::Assign(place, value) => assigned(alloc, place.get(), value.get()),
        RStmt::Eval(value) => evaluated(alloc, value.get()),
        RStmt::CopyBytes(source, target, count) => {
            bytes_copied(alloc, source.get(), target.get(), count.get())
        }
        RStmt::If(test, one, other) => chosen(
            alloc,
            labels,
            test.get(),
            one,
            copy_stmts(alloc, labels, one),
            other,
            copy_stmts(alloc, labels, other),
        ),
        RStmt::Loop(Some(label), body) => copy_named_loop(alloc, labels, label, body),
        RStmt::Loop(None, body) => copy_loop(alloc, labels, body),
        RStmt::Block(label, body) => copy_block(alloc, labels, label, body),
        RStmt::Break(label) => left(alloc, labels, label),
        RStmt::Continue(label) => begun_anew(alloc, labels, label),
        RStmt::Match(on, cases, other) => matched(
            alloc,
            labels,
            on.get(),
            cases,
            copy_arms(alloc, labels, cases),
            other,
            copy_stmts(alloc, labels, other),
        ),
        RStmt::Return(value) => given_back(alloc, value),
    }
}

/// The copies of statements, in their order.
#[cycle(copies)]
#[tactic(auto, using(crate::proofs::Lists::behind_none, crate::proofs::Lists::behind_more))]
pub fn copy_stmts(alloc: Global, labels: &Labels, ss: &Items<RStmt>) -> Result<Items<RStmt>, Memory>
    ensures { IfOk result (λ made. stmts (map stmt_view made) ≡ stmts_copy labels.now (stmts (map stmt_view ss.now))) }
{
    let mut made = Items::new(alloc);
    for s in ss.as_slice() {
        made.push(copy_stmt(alloc, labels, s)?.into_inner())?;
    }
    Ok(made)
}

// The copies of arms, in their order.
#[cycle(copies)]
#[tactic(auto, using(crate::proofs::Lists::arms_none, crate::proofs::Lists::arms_more))]
fn copy_arms(alloc: Global, labels: &Labels, cases: &Items<Arm>) -> Result<Items<Arm>, Memory>
    ensures { IfOk result (λ made. arms (map arm_view made) ≡ arms_copy labels.now (arms (map arm_view cases.now))) }
{
    let mut made = Items::new(alloc);
    for one in cases.as_slice() {
        let body = copy_stmts(alloc, labels, &one.body);
        made.push(arm_of(one, labels, body)?)?;
    }
    Ok(made)
}

#[cycle(copies)]
fn copy_loop(alloc: Global, labels: &Labels, body: &Items<RStmt>) -> Result<Boxed<RStmt>, Memory>
    ensures { IfOk result (λ made. stmt_view made ≡ tree.Loop None (stmts_copy labels.now (stmts (map stmt_view body.now)))) }
{
    let body = copy_stmts(alloc, labels, body)?;
    Boxed::new(alloc, RStmt::Loop(None, body))
}

#[cycle(copies)]
fn copy_named_loop(
    alloc: Global,
    labels: &Labels,
    label: &Name,
    body: &Items<RStmt>,
) -> Result<Boxed<RStmt>, Memory>
    ensures { IfOk result (λ made. stmt_view made ≡ tree.Loop (Some (own_label labels.now label.now)) (stmts_copy (inside label.now labels.now) (stmts (map stmt_view body.now)))) }
{
    let inner = inside(alloc, label, labels)?;
    let body = copy_stmts(alloc, &inner, body)?;
    let label = own_label(alloc, labels, label)?;
    Boxed::new(alloc, RStmt::Loop(Some(label), body))
}

#[cycle(copies)]
fn copy_block(
    alloc: Global,
    labels: &Labels,
    label: &Name,
    body: &Items<RStmt>,
) -> Result<Boxed<RStmt>, Memory>
    ensures { IfOk result (λ made. stmt_view made ≡ tree.Block (own_label labels.now label.now) (stmts_copy (inside label.now labels.now) (stmts (map stmt_view body.now)))) }
{
    let inner = inside(alloc, label, labels)?;
    let body = copy_stmts(alloc, &inner, body)?;
    let label = own_label(alloc, labels, label)?;
    Boxed::new(alloc, RStmt::Block(label, body))
}

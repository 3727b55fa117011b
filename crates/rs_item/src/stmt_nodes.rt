//! Makers of nodes of statements that hold others. Each is refused only for want of memory.

ghost use Rattle.std.specs.Prelude.{◌≡◌, map, IfOk};
ghost use Rattle.rs_text.specs.Tree as tree;
ghost use Rattle.rs_text.specs.Tree.{stmts, arms};
ghost use Rattle.rs_tree.specs.Views.{expr_view, stmt_view, arm_view};

use cr_base::{Boxed, Items, Memory, Name};
use rs_tree::{Arm, RExpr, RStmt};
use std::alloc::Global;

pub(crate) fn if_of(
    alloc: Global,
    condition: Boxed<RExpr>,
    if_true: Items<RStmt>,
    if_false: Items<RStmt>,
) -> Result<Boxed<RStmt>, Memory>
    ensures { IfOk result (λ s. stmt_view s ≡ tree.If (expr_view condition) (stmts (map stmt_view if_true)) (stmts (map stmt_view if_false))) }
{
    Boxed::new(alloc, RStmt::If(condition, if_true, if_false))
}

pub(crate) fn loop_of(
    alloc: Global,
    label: Option<Name>,
    body: Items<RStmt>,
) -> Result<Boxed<RStmt>, Memory>
    ensures { IfOk result (λ s. stmt_view s ≡ tree.Loop label (stmts (map stmt_view body))) }
{
    Boxed::new(alloc, RStmt::Loop(label, body))
}

pub(crate) fn block_of(
    alloc: Global,
    label: Name,
    body: Items<RStmt>,
) -> Result<Boxed<RStmt>, Memory>
    ensures { IfOk result (λ s. stmt_view s ≡ tree.Block label (stmts (map stmt_view body))) }
{
    Boxed::new(alloc, RStmt::Block(label, body))
}

pub(crate) fn match_of(
    alloc: Global,
    value: Boxed<RExpr>,
    cases: Items<Arm>,
    other: Items<RStmt>,
) -> Result<Boxed<RStmt>, Memory>
    ensures { IfOk result (λ s. stmt_view s ≡ tree.Match (expr_view value) (arms (map arm_view cases)) (stmts (map stmt_view other))) }
{
    Boxed::new(alloc, RStmt::Match(value, cases, other))
}

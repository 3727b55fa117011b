//! An `if` as it is written by hand.

ghost use Rattle.std.specs.Prelude.{◌≡◌, map, IfOk};
ghost use Rattle.emit_rules.specs.Texts.{if_else, if_of};
ghost use Rattle.rs_text.specs.Tree.{If, more_stmts, stmts};
ghost use Rattle.rs_tree.specs.Views.{expr_view, stmt_view};

use crate::conditions::negated;
use crate::ends::goes_on;
use cr_base::{Boxed, Items, Memory};
use rs_makers::copy_expr;
use rs_tree::{RExpr, RStmt};
use std::alloc::Global;

// An `if` in front of statements.
fn if_then(
    alloc: Global,
    test: Boxed<RExpr>,
    if_true: Items<RStmt>,
    if_false: Items<RStmt>,
    rest: Items<RStmt>,
) -> Result<Items<RStmt>, Memory>
    ensures { IfOk result (λ made. stmts (map stmt_view made) ≡
        more_stmts (If (expr_view test) (stmts (map stmt_view if_true)) (stmts (map stmt_view if_false))) (stmts (map stmt_view rest))) }
{
    let mut made = Items::new(alloc);
    made.push(RStmt::If(test, if_true, if_false))?;
    made.append(rest)?;
    Ok(made)
}

// Both sides have statements: what doesn't come to its end needs no `else` behind it.
fn if_else(
    alloc: Global,
    test: &RExpr,
    if_true: Items<RStmt>,
    if_false: Items<RStmt>,
) -> Result<Items<RStmt>, Memory>
    ensures { IfOk result (λ made. stmts (map stmt_view made) ≡ if_else (expr_view test.now) (stmts (map stmt_view if_true)) (stmts (map stmt_view if_false))) }
{
    if !goes_on(alloc, &if_true)? {
        let test = copy_expr(alloc, test)?;
        return if_then(alloc, test, if_true, Items::new(alloc), if_false);
    }
    if goes_on(alloc, &if_false)? {
        let test = copy_expr(alloc, test)?;
        return if_then(alloc, test, if_true, if_false, Items::new(alloc));
    }
    let test = negated(alloc, test)?;
    if_then(alloc, test, if_false, Items::new(alloc), if_true)
}

/// An `if` of a test, without an empty side and without `else` behind what doesn't come to its end.
pub fn if_of(
    alloc: Global,
    test: &RExpr,
    if_true: Items<RStmt>,
    if_false: Items<RStmt>,
) -> Result<Items<RStmt>, Memory>
    ensures { IfOk result (λ made. stmts (map stmt_view made) ≡ if_of (expr_view test.now) (stmts (map stmt_view if_true)) (stmts (map stmt_view if_false))) }
{
    if if_false.is_empty() {
        let test = copy_expr(alloc, test)?;
        return if_then(alloc, test, if_true, if_false, Items::new(alloc));
    }
    if if_true.is_empty() {
        let test = negated(alloc, test)?;
        return if_then(alloc, test, if_false, if_true, Items::new(alloc));
    }
    if_else(alloc, test, if_true, if_false)
}

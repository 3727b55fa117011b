//! Valid statements.

ghost use Rattle.std.specs.Prelude.{◌≡◌, map, option_map};
ghost use Rattle.rs_text.specs.Forms as forms;
ghost use Rattle.rs_text.specs.Tree.{stmts, arms};
ghost use Rattle.rs_text.specs.Valid as valid;
ghost use Rattle.rs_tree.specs.Views.{expr_view, stmt_view, arm_view};

use crate::exprs::{is_valid_expr, is_valid_place, is_value};
use crate::words::{is_label, is_valid_label};
use cr_base::{Boxed, Items};
use rs_tree::{Arm, RExpr, RStmt};

fn is_call(expr: &RExpr) -> bool
    ensures { result ≡ forms.is_call (expr_view expr.now) }
{
    match expr {
        RExpr::Call(_, _) | RExpr::CallBy(_, _) => true,
        _ => false,
    }
}

fn is_valid_returned(value: &Option<Boxed<RExpr>>) -> bool
    ensures { result ≡ valid.valid_returned (option_map expr_view value.now) }
{
    match value {
        None => true,
        Some(value) => is_valid_expr(value.get()),
    }
}

#[cycle(stmts)]
fn is_valid_stmt(stmt: &RStmt) -> bool
    ensures { result ≡ valid.valid_stmt (stmt_view stmt.now) }
{
    match stmt {
        RStmt::Assign(place, value) => is_valid_place(place.get()) && is_valid_expr(value.get()),
        RStmt::Eval(value) => is_call(value.get()) && is_valid_expr(value.get()),
        RStmt::CopyBytes(source, target, count) => {
            is_valid_expr(source.get()) && is_valid_expr(target.get()) && is_valid_expr(count.get())
        }
        RStmt::If(condition, if_true, if_false) => {
            is_valid_expr(condition.get()) && are_valid_stmts(if_true) && are_valid_stmts(if_false)
        }
        RStmt::Loop(label, body) => is_valid_label(label) && are_valid_stmts(body),
        RStmt::Block(label, body) => is_label(label) && are_valid_stmts(body),
        RStmt::Break(label) => is_label(label),
        RStmt::Continue(label) => is_label(label),
        RStmt::Match(value, cases, other) => {
            is_valid_expr(value.get()) && are_valid_arms(cases) && are_valid_stmts(other)
        }
        RStmt::Return(value) => is_valid_returned(value),
    }
}

#[cycle(stmts)]
fn is_valid_arm(arm: &Arm) -> bool
    ensures { result ≡ valid.valid_arm (arm_view arm.now) }
{
    is_value(arm.value) && are_valid_stmts(&arm.body)
}

#[cycle(stmts)]
fn are_valid_arms(cases: &Items<Arm>) -> bool
    ensures { result ≡ valid.valid_arms (arms (map arm_view cases.now)) }
{
    for arm in cases.as_slice() {
        if !is_valid_arm(arm) {
            return false;
        }
    }
    true
}

#[cycle(stmts)]
pub(crate) fn are_valid_stmts(body: &Items<RStmt>) -> bool
    ensures { result ≡ valid.valid_stmts (stmts (map stmt_view body.now)) }
{
    for stmt in body.as_slice() {
        if !is_valid_stmt(stmt) {
            return false;
        }
    }
    true
}

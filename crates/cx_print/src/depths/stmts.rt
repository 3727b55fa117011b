//! The depth of statements (ISO C99, 6.8).

ghost use Rattle.std.specs.Prelude.{◌≡◌, suc, min, max, ◌-◌, ◌^◌, map, option_map};
ghost use Rattle.cx_tree.specs.Depth as depth;
ghost use Rattle.cx_tree.specs.Views.{expr_view, first_view, item_view, items, option_expr, stmt_view};

use crate::depths::above::{above_three, above_two};
use crate::depths::decl_depth;
use crate::depths::exprs::{expr_depth, option_depth};
use cr_base::Boxed;
use cx_tree::{BlockItem, Expr, ForFirst, Stmt};

fn first_depth(first: &ForFirst) -> u64
    ensures { result ≡ min (depth.first_depth (first_view first.now)) (2 ^ 64 - 1) }
{
    match first {
        ForFirst::Value(value) => option_depth(value),
        ForFirst::Declared(decl) => decl_depth(decl.get()),
    }
}

#[cycle(stmt_depths)]
pub fn stmt_depth(stmt: &Stmt) -> u64
    ensures { result ≡ min (depth.stmt_depth (stmt_view stmt.now)) (2 ^ 64 - 1) }
{
    match stmt {
        Stmt::Goto { .. } | Stmt::Continue { .. } | Stmt::Break { .. } => 1,
        Stmt::Label { stmt, .. } | Stmt::Default { stmt, .. } => {
            stmt_depth(stmt.get()).saturating_add(1)
        }
        Stmt::Case {
            value: on,
            stmt: body,
            ..
        }
        | Stmt::Switch { on, body, .. }
        | Stmt::While {
            condition: on,
            body,
            ..
        } => above_two(expr_depth(on.get()), stmt_depth(body.get())),
        Stmt::Do {
            body,
            condition,
            ..
        } => above_two(stmt_depth(body.get()), expr_depth(condition.get())),
        Stmt::Block { items, .. } => items_depth(items.as_slice()).saturating_add(1),
        Stmt::Expr { expr: value, .. } | Stmt::Return { value, .. } => {
            option_depth(value).saturating_add(1)
        }
        Stmt::If {
            condition,
            branch,
            otherwise: None,
            ..
        } => above_two(expr_depth(condition.get()), stmt_depth(branch.get())),
        Stmt::If {
            condition,
            branch,
            otherwise: Some(otherwise),
            ..
        } => above_three(
            expr_depth(condition.get()),
            stmt_depth(branch.get()),
            stmt_depth(otherwise.get()),
        ),
        Stmt::For {
            first,
            second,
            third,
            body,
            ..
        } => for_depth(body, first, second, third),
    }
}

#[cycle(stmt_depths)]
fn for_depth(
    body: &Boxed<Stmt>,
    first: &ForFirst,
    second: &Option<Boxed<Expr>>,
    third: &Option<Boxed<Expr>>,
) -> u64
    ensures { result ≡ min (suc (max (depth.first_depth (first_view first.now)) (max (depth.option_depth (option_expr (option_map expr_view second.now))) (max (depth.option_depth (option_expr (option_map expr_view third.now))) (depth.stmt_depth (stmt_view body.now)))))) (2 ^ 64 - 1) }
{
    above_two(
        first_depth(first),
        option_depth(second).max(option_depth(third).max(stmt_depth(body.get()))),
    )
}

#[cycle(stmt_depths)]
fn item_depth(item: &BlockItem) -> u64
    ensures { result ≡ min (depth.item_depth (item_view item.now)) (2 ^ 64 - 1) }
{
    match item {
        BlockItem::Statement(stmt) => stmt_depth(stmt.get()),
        BlockItem::Declaration(decl) => decl_depth(decl.get()),
    }
}

#[cycle(stmt_depths)]
fn items_depth(list: &[BlockItem]) -> u64
    ensures { result ≡ min (depth.items_depth (items (map item_view list.now))) (2 ^ 64 - 1) }
{
    let mut deepest = 0u64;
    for item in list {
        deepest = deepest.max(item_depth(item));
    }
    deepest
}

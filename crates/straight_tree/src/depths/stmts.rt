ghost use Rattle.std.specs.Prelude.{◌≡◌, min, ◌-◌, ◌^◌, map};
ghost use Rattle.straight_tree.specs.Depth as depth;
ghost use Rattle.straight_tree.specs.Views.{stmt_view, item_view, items};

use crate::depths::exprs::option_depth;
use crate::stmt::{BlockItem, Stmt};

#[cycle(stmt_depths)]
pub fn stmt_depth(stmt: &Stmt) -> u64
    ensures { result ≡ min (depth.stmt_depth (stmt_view stmt.now)) (2 ^ 64 - 1) }
{
    match stmt {
        Stmt::Block { items, .. } => items_depth(items.as_slice()).saturating_add(1),
        Stmt::Expr { expr, .. } => option_depth(expr).saturating_add(1),
        Stmt::Return { value, .. } => option_depth(value).saturating_add(1),
    }
}

#[cycle(stmt_depths)]
fn item_depth(item: &BlockItem) -> u64
    ensures { result ≡ min (depth.item_depth (item_view item.now)) (2 ^ 64 - 1) }
{
    match item {
        BlockItem::Stmt(stmt) => stmt_depth(stmt),
    }
}

#[cycle(stmt_depths)]
fn items_depth(list: &[BlockItem]) -> u64
    ensures { result ≡ min (depth.items_depth (items (map item_view list.now))) (2 ^ 64 - 1) }
{
    let mut deepest = 0u64;
    for item in list {
        deepest = deepest.max(item_depth(item));
    }
    deepest
}

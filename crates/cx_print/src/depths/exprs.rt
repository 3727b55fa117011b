//! The depth of expressions (ISO C99, 6.5).

ghost use Rattle.std.specs.Prelude.{◌≡◌, min, ◌-◌, ◌^◌, map, option_map};
ghost use Rattle.cx_tree.specs.Depth as depth;
ghost use Rattle.cx_tree.specs.Views.{expr_view, exprs, option_expr};

use crate::depths::above::{above_three, above_two};
use crate::depths::initialisers::initialiser_list_depth;
use crate::depths::specifiers::type_name_depth;
use cr_base::{Boxed, Items};
use cx_tree::Expr;

#[cycle(tree_depths)]
pub fn expr_depth(expr: &Expr) -> u64
    ensures { result ≡ min (depth.expr_depth (expr_view expr.now)) (2 ^ 64 - 1) }
{
    match expr {
        Expr::Name { .. } | Expr::Number { .. } | Expr::Letter { .. } | Expr::Text { .. } => 1,
        Expr::Paren { inner: one, .. }
        | Expr::Dot { of: one, .. }
        | Expr::Arrow { of: one, .. }
        | Expr::PostUp { of: one, .. }
        | Expr::PostDown { of: one, .. }
        | Expr::PreUp { on: one, .. }
        | Expr::PreDown { on: one, .. }
        | Expr::Unary { on: one, .. }
        | Expr::SizeofExpr { on: one, .. } => boxed_depth(one).saturating_add(1),
        Expr::Index {
            of: one,
            index: other,
            ..
        }
        | Expr::Binary {
            left: one,
            right: other,
            ..
        }
        | Expr::Assign {
            left: one,
            right: other,
            ..
        }
        | Expr::Comma {
            left: one,
            right: other,
            ..
        } => above_two(boxed_depth(one), boxed_depth(other)),
        Expr::Call { of, args, .. } => above_two(boxed_depth(of), exprs_depth(args)),
        Expr::Literal { of, list, .. } => above_two(
            type_name_depth(of.get()),
            initialiser_list_depth(list.get()),
        ),
        Expr::SizeofType { of, .. } => type_name_depth(of.get()).saturating_add(1),
        Expr::Cast { to, on, .. } => above_two(type_name_depth(to.get()), boxed_depth(on)),
        Expr::Cond {
            condition,
            if_true,
            if_false,
            ..
        } => above_three(
            boxed_depth(condition),
            boxed_depth(if_true),
            boxed_depth(if_false),
        ),
    }
}

#[cycle(tree_depths)]
fn boxed_depth(expr: &Boxed<Expr>) -> u64
    ensures { result ≡ min (depth.expr_depth (expr_view expr.now)) (2 ^ 64 - 1) }
{
    expr_depth(expr.get())
}

#[cycle(tree_depths)]
fn exprs_depth(list: &Items<Expr>) -> u64
    ensures { result ≡ min (depth.exprs_depth (exprs (map expr_view list.now))) (2 ^ 64 - 1) }
{
    let mut deepest = 0u64;
    for expr in list.as_slice() {
        deepest = deepest.max(expr_depth(expr));
    }
    deepest
}

#[cycle(tree_depths)]
pub fn option_depth(expr: &Option<Boxed<Expr>>) -> u64
    ensures { result ≡ min (depth.option_depth (option_expr (option_map expr_view expr.now))) (2 ^ 64 - 1) }
{
    match expr {
        None => 0,
        Some(expr) => expr_depth(expr.get()),
    }
}

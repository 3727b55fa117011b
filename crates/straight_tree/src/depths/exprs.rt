ghost use Rattle.std.specs.Prelude.{◌≡◌, min, ◌-◌, ◌^◌, map, option_map};
ghost use Rattle.straight_tree.specs.Depth as depth;
ghost use Rattle.straight_tree.specs.Views.{expr_view, exprs};

use crate::expr::Expr;

#[cycle(expr_depths)]
pub fn expr_depth(expr: &Expr) -> u64
    ensures { result ≡ min (depth.expr_depth (expr_view expr.now)) (2 ^ 64 - 1) }
{
    match expr {
        Expr::Name { .. } | Expr::Number { .. } => 1,
        Expr::Paren { inner, .. } => expr_depth(inner.get()).saturating_add(1),
        Expr::Call { of, args, .. } => expr_depth(of.get())
            .max(exprs_depth(args.as_slice()))
            .saturating_add(1),
        Expr::Unary { on, .. } => expr_depth(on.get()).saturating_add(1),
        Expr::Binary { left, right, .. } | Expr::Assign { left, right, .. } => {
            expr_depth(left.get())
                .max(expr_depth(right.get()))
                .saturating_add(1)
        }
    }
}

#[cycle(expr_depths)]
fn exprs_depth(list: &[Expr]) -> u64
    ensures { result ≡ min (depth.exprs_depth (exprs (map expr_view list.now))) (2 ^ 64 - 1) }
{
    let mut deepest = 0u64;
    for expr in list {
        deepest = deepest.max(expr_depth(expr));
    }
    deepest
}

pub fn option_depth(expr: &Option<Expr>) -> u64
    ensures { result ≡ min (depth.option_depth (option_map expr_view expr.now)) (2 ^ 64 - 1) }
{
    match expr {
        None => 0,
        Some(expr) => expr_depth(expr),
    }
}

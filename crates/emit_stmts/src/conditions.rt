//! Conditions turned round.

ghost use Rattle.std.specs.Prelude.{◌≡◌, IfOk};
ghost use Rattle.emit_rules.specs.Texts.{compared_by, negated, opposite};
ghost use Rattle.rs_tree.specs.Views.{expr_view};

use cr_base::{Boxed, Memory};
use rs_makers::{binary, copy_expr, not};
use rs_tree::{Operator, RExpr};
use std::alloc::Global;

// The comparison that holds where another doesn't.
fn opposite(operator: Operator) -> Option<Operator>
    ensures { result ≡ opposite operator }
{
    match operator {
        Operator::Equal => Some(Operator::NotEqual),
        Operator::NotEqual => Some(Operator::Equal),
        Operator::Less => Some(Operator::GreaterEqual),
        Operator::LessEqual => Some(Operator::Greater),
        Operator::Greater => Some(Operator::LessEqual),
        Operator::GreaterEqual => Some(Operator::Less),
        _ => None,
    }
}

// What holds where an operator between two operands doesn't.
fn compared(
    alloc: Global,
    left: &RExpr,
    operator: Operator,
    right: &RExpr,
) -> Result<Boxed<RExpr>, Memory>
    ensures { IfOk result (λ made. expr_view made ≡ compared_by (expr_view left.now) (expr_view right.now) operator (opposite operator)) }
{
    let left = copy_expr(alloc, left)?;
    let right = copy_expr(alloc, right)?;
    match opposite(operator) {
        Some(other) => binary(alloc, left, other, right),
        None => {
            let test = binary(alloc, left, operator, right)?;
            not(alloc, test)
        }
    }
}

/// The condition that holds where another doesn't.
pub(crate) fn negated(alloc: Global, test: &RExpr) -> Result<Boxed<RExpr>, Memory>
    ensures { IfOk result (λ made. expr_view made ≡ negated (expr_view test.now)) }
{
    match test {
        RExpr::Not(inner) => copy_expr(alloc, inner.get()),
        RExpr::Binary(left, operator, right) => {
            compared(alloc, left.get(), *operator, right.get())
        }
        _ => {
            let copy = copy_expr(alloc, test)?;
            not(alloc, copy)
        }
    }
}

//! Names that are called.

ghost use Rattle.std.specs.Prelude.{◌≡◌};
ghost use Rattle.cx_operands.specs.Views.{view_operand};
ghost use Rattle.cx_rules.specs.Pieces.{calls_by_name, is_name};
ghost use Rattle.cx_expr_steps.specs.Designators.{designates};
ghost use Rattle.cx_tree.specs.Views.{expr_view};

use cx_operands::Operand;
use cx_rules::OperandKind;
use cx_tree::Expr;

/// Whether a call is one of a function by its name, which may stand in parentheses (ISO C99, 6.5.2.2).
pub fn calls_by_name(of: &Expr, callee: &Operand) -> bool
    ensures { result ≡ calls_by_name (expr_view of.now) (view_operand callee.now) }
{
    is_name(of) && designates(callee.kind)
}

fn is_name(e: &Expr) -> bool
    ensures { result ≡ is_name (expr_view e.now) }
{
    match e {
        Expr::Name { .. } => true,
        Expr::Paren { inner, .. } => is_name(inner.get()),
        _ => false,
    }
}

fn designates(kind: OperandKind) -> bool
    ensures { result ≡ designates kind }
{
    match kind {
        OperandKind::Function => true,
        OperandKind::Value | OperandKind::Place | OperandKind::VoidPlace => false,
    }
}

//! The lines on which parts of a unit begin.

ghost use Rattle.std.specs.Prelude.{◌≡◌, map};
ghost use Rattle.cx_rules.specs.Lines.{own_line, expr_line, spec_line, specs_line, declarator_line};
ghost use Rattle.cx_tree.specs.Views.{expr_view, spec_view, specs as spec_trees, declarator_view};

use cr_base::Items;
use cx_tree::{Declarator, Expr, Spec};

/// The line of a node's own first token.
pub fn own_line(lines: &Items<u32>) -> u32
    ensures { result ≡ own_line lines.now }
{
    match lines.get(0) {
        Some(line) => *line,
        None => 0,
    }
}

/// The line of an expression's first token.
pub fn expr_line(e: &Expr) -> u32
    ensures { result ≡ expr_line (expr_view e.now) }
{
    match e {
        Expr::Name { lines, .. } => own_line(lines),
        Expr::Number { lines, .. } => own_line(lines),
        Expr::Letter { lines, .. } => own_line(lines),
        Expr::Text { lines, .. } => own_line(lines),
        Expr::Paren { lines, .. } => own_line(lines),
        Expr::Index { of, .. } => expr_line(of.get()),
        Expr::Call { of, .. } => expr_line(of.get()),
        Expr::Dot { of, .. } => expr_line(of.get()),
        Expr::Arrow { of, .. } => expr_line(of.get()),
        Expr::PostUp { of, .. } => expr_line(of.get()),
        Expr::PostDown { of, .. } => expr_line(of.get()),
        Expr::Literal { lines, .. } => own_line(lines),
        Expr::PreUp { lines, .. } => own_line(lines),
        Expr::PreDown { lines, .. } => own_line(lines),
        Expr::Unary { lines, .. } => own_line(lines),
        Expr::SizeofExpr { lines, .. } => own_line(lines),
        Expr::SizeofType { lines, .. } => own_line(lines),
        Expr::Cast { lines, .. } => own_line(lines),
        Expr::Binary { left, .. } => expr_line(left.get()),
        Expr::Cond { condition, .. } => expr_line(condition.get()),
        Expr::Assign { left, .. } => expr_line(left.get()),
        Expr::Comma { left, .. } => expr_line(left.get()),
    }
}

fn spec_line(spec: &Spec) -> u32
    ensures { result ≡ spec_line (spec_view spec.now) }
{
    match spec {
        Spec::Key { lines, .. } => own_line(lines),
        Spec::Typedef { lines, .. } => own_line(lines),
        Spec::Record { lines, .. } => own_line(lines),
        Spec::Enum { lines, .. } => own_line(lines),
    }
}

/// The line of the first token of specifiers.
pub fn specs_line(specs: &[Spec]) -> u32
    ensures { result ≡ specs_line (spec_trees (map spec_view specs.now)) }
{
    match specs.first() {
        Some(first) => spec_line(first),
        None => 0,
    }
}

/// The line of a declarator's first token, or where it is missing this line.
pub fn declarator_line(missing: u32, declarator: &Declarator) -> u32
    ensures { result ≡ declarator_line missing (declarator_view declarator.now) }
{
    match declarator {
        Declarator::Missing => missing,
        Declarator::Identifier { lines, .. } => own_line(lines),
        Declarator::Group { lines, .. } => own_line(lines),
        Declarator::Pointer { lines, .. } => own_line(lines),
        Declarator::Array { of, lines, .. } => declarator_line(own_line(lines), of.get()),
        Declarator::Function { of, lines, .. } => declarator_line(own_line(lines), of.get()),
        Declarator::Identifiers { of, lines, .. } => declarator_line(own_line(lines), of.get()),
    }
}

//! The levels of expressions and of operators (ISO C99, 6.5). A production of a higher level binds
//! tighter.

ghost use Rattle.std.specs.Prelude.{◌≡◌, ◌≤◌};
ghost use Rattle.straight_tree.specs.Levels as levels;
ghost use Rattle.straight_tree.specs.Views.{expr_view};

use crate::expr::Expr;
use cx_lex::Punct;

/// The level of a binary operator's expressions, from 4 at `||` (6.5.14) to 13 at `*` (6.5.5), or 0
/// for a mark that is no binary operator.
#[tactic(auto, unfolding(crate::specs::Levels::binary_level))]
pub fn binary_level(op: Punct) -> u32
    ensures value { result ≡ levels.binary_level op }
    ensures most { result ≤ 13 }
{
    match op {
        Punct::BarBar => 4,
        Punct::AndAnd => 5,
        Punct::Bar => 6,
        Punct::Caret => 7,
        Punct::Ampersand => 8,
        Punct::EqualEqual | Punct::NotEqual => 9,
        Punct::Less | Punct::Greater | Punct::LessEqual | Punct::GreaterEqual => 10,
        Punct::ShiftLeft | Punct::ShiftRight => 11,
        Punct::Plus | Punct::Minus => 12,
        Punct::Star | Punct::Slash | Punct::Percent => 13,
        _ => 0,
    }
}

/// Whether a mark is a unary operator other than `++` and `--` (6.5.3).
#[tactic(auto, unfolding(crate::specs::Levels::is_unary_operator))]
pub fn is_unary_operator(op: Punct) -> bool
    ensures { result ≡ levels.is_unary_operator op }
{
    matches!(op, Punct::Minus)
}

/// Whether a mark is an assignment operator (6.5.16).
#[tactic(auto, unfolding(crate::specs::Levels::is_assignment_operator))]
pub fn is_assignment_operator(op: Punct) -> bool
    ensures { result ≡ levels.is_assignment_operator op }
{
    matches!(op, Punct::Equal)
}

/// The level of an expression, from 2 at an assignment (6.5.16) to 17 at a primary expression (6.5.1).
pub fn level(expr: &Expr) -> u32
    ensures { result ≡ levels.level (expr_view expr.now) }
{
    match expr {
        Expr::Name { .. } | Expr::Number { .. } | Expr::Paren { .. } => 17,
        Expr::Call { .. } => 16,
        Expr::Unary { .. } => 15,
        Expr::Binary { op, .. } => binary_level(*op),
        Expr::Assign { .. } => 2,
    }
}

//! The levels of expressions and the operators (ISO C99, 6.5). A production of a higher level binds
//! tighter.

ghost use Rattle.std.specs.Prelude.{◌≡◌, ◌≤◌};
ghost use Rattle.cx_tree.specs.Levels as levels;
ghost use Rattle.cx_tree.specs.Views.{expr_view};

use crate::expr::Expr;
use cx_lex::Punct;

/// The level of a binary operator's expressions, from 4 at `||` (6.5.14) to 13 at `*` (6.5.5), or 0
/// for a mark that is no binary operator.
#[tactic(auto, unfolding(crate::specs::Levels::binary_level))]
pub fn binary_level(op: Punct) -> u32
    ensures value { result ≡ levels.binary_level op }
    ensures most { result ≤ 13 }
{
    match op {
        Punct::BarBar => 4,
        Punct::AndAnd => 5,
        Punct::Bar => 6,
        Punct::Caret => 7,
        Punct::Ampersand => 8,
        Punct::EqualEqual | Punct::NotEqual => 9,
        Punct::Less | Punct::Greater | Punct::LessEqual | Punct::GreaterEqual => 10,
        Punct::ShiftLeft | Punct::ShiftRight => 11,
        Punct::Plus | Punct::Minus => 12,
        Punct::Star | Punct::Slash | Punct::Percent => 13,
        _ => 0,
    }
}

/// Whether a mark is a unary operator other than `++` and `--` (6.5.3).
#[tactic(auto, unfolding(crate::specs::Levels::is_unary_operator))]
pub fn is_unary_operator(op: Punct) -> bool
    ensures { result ≡ levels.is_unary_operator op }
{
    matches!(
        op,
        Punct::Ampersand
            | Punct::Star
            | Punct::Plus
            | Punct::Minus
            | Punct::Tilde
            | Punct::Exclamation
    )
}

/// Whether a mark is an assignment operator (6.5.16).
#[tactic(auto, unfolding(crate::specs::Levels::is_assignment_operator))]
pub fn is_assignment_operator(op: Punct) -> bool
    ensures { result ≡ levels.is_assignment_operator op }
{
    matches!(
        op,
        Punct::Equal
            | Punct::StarEqual
            | Punct::SlashEqual
            | Punct::PercentEqual
            | Punct::PlusEqual
            | Punct::MinusEqual
            | Punct::ShiftLeftEqual
            | Punct::ShiftRightEqual
            | Punct::AmpersandEqual
            | Punct::CaretEqual
            | Punct::BarEqual
    )
}

/// The level of an expression, from 1 at a comma (6.5.17) to 17 at a primary expression (6.5.1).
pub fn level(expr: &Expr) -> u32
    ensures { result ≡ levels.level (expr_view expr.now) }
{
    match expr {
        Expr::Name { .. }
        | Expr::Number { .. }
        | Expr::Letter { .. }
        | Expr::Text { .. }
        | Expr::Paren { .. } => 17,
        Expr::Index { .. }
        | Expr::Call { .. }
        | Expr::Dot { .. }
        | Expr::Arrow { .. }
        | Expr::PostUp { .. }
        | Expr::PostDown { .. }
        | Expr::Literal { .. } => 16,
        Expr::PreUp { .. }
        | Expr::PreDown { .. }
        | Expr::Unary { .. }
        | Expr::SizeofExpr { .. }
        | Expr::SizeofType { .. } => 15,
        Expr::Cast { .. } => 14,
        Expr::Binary { op, .. } => binary_level(*op),
        Expr::Cond { .. } => 3,
        Expr::Assign { .. } => 2,
        Expr::Comma { .. } => 1,
    }
}

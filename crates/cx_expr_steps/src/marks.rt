//! Operators that are marks (ISO C99, 6.5.3, 6.5.5 to 6.5.14, 6.5.16).

ghost use Rattle.std.specs.Prelude.{◌≡◌};
ghost use Rattle.cx_rules.specs.Pieces.{unary_of, binary_of, assignment_of};
ghost use Rattle.cx_expr_steps.specs.Views.{view_unary, view_binary};

use cx_core::{Op1, Op2};
use cx_lex::Punct;

// A unary operator.
#[derive(Clone, Copy)]
pub(crate) enum Unary {
    TakesAddress,
    Follows,
    Computes(Op1),
}

// A binary operator.
#[derive(Clone, Copy)]
pub(crate) enum Binary {
    TestsBoth,
    TestsEither,
    Operates(Op2),
}

#[tactic(auto, unfolding(cx_rules::specs::Pieces::unary_of))]
pub(crate) fn unary_of(op: Punct) -> Unary
    ensures { view_unary result ≡ unary_of op }
{
    match op {
        Punct::Ampersand => Unary::TakesAddress,
        Punct::Star => Unary::Follows,
        Punct::Plus => Unary::Computes(Op1::Plus),
        Punct::Minus => Unary::Computes(Op1::Minus),
        Punct::Tilde => Unary::Computes(Op1::Complement),
        _ => Unary::Computes(Op1::Not),
    }
}

#[tactic(auto, unfolding(cx_rules::specs::Pieces::binary_of))]
pub(crate) fn binary_of(op: Punct) -> Binary
    ensures { view_binary result ≡ binary_of op }
{
    match op {
        Punct::AndAnd => Binary::TestsBoth,
        Punct::BarBar => Binary::TestsEither,
        Punct::Star => Binary::Operates(Op2::Multiply),
        Punct::Slash => Binary::Operates(Op2::Divide),
        Punct::Percent => Binary::Operates(Op2::Remainder),
        Punct::Plus => Binary::Operates(Op2::Add),
        Punct::Minus => Binary::Operates(Op2::Subtract),
        Punct::ShiftLeft => Binary::Operates(Op2::ShiftLeft),
        Punct::ShiftRight => Binary::Operates(Op2::ShiftRight),
        Punct::Less => Binary::Operates(Op2::Less),
        Punct::Greater => Binary::Operates(Op2::Greater),
        Punct::LessEqual => Binary::Operates(Op2::LessOrEqual),
        Punct::GreaterEqual => Binary::Operates(Op2::GreaterOrEqual),
        Punct::EqualEqual => Binary::Operates(Op2::Equal),
        Punct::NotEqual => Binary::Operates(Op2::NotEqual),
        Punct::Ampersand => Binary::Operates(Op2::BitAnd),
        Punct::Caret => Binary::Operates(Op2::BitXor),
        _ => Binary::Operates(Op2::BitOr),
    }
}

// The operator of a compound assignment, or None of `=`.
#[tactic(auto, unfolding(cx_rules::specs::Pieces::assignment_of))]
pub(crate) fn assignment_of(op: Punct) -> Option<Op2>
    ensures { result ≡ assignment_of op }
{
    match op {
        Punct::StarEqual => Some(Op2::Multiply),
        Punct::SlashEqual => Some(Op2::Divide),
        Punct::PercentEqual => Some(Op2::Remainder),
        Punct::PlusEqual => Some(Op2::Add),
        Punct::MinusEqual => Some(Op2::Subtract),
        Punct::ShiftLeftEqual => Some(Op2::ShiftLeft),
        Punct::ShiftRightEqual => Some(Op2::ShiftRight),
        Punct::AmpersandEqual => Some(Op2::BitAnd),
        Punct::CaretEqual => Some(Op2::BitXor),
        Punct::BarEqual => Some(Op2::BitOr),
        _ => None,
    }
}

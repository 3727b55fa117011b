//! Readers of expressions (the Rust Reference, "Expressions"). A function whose parameter is `levels` reads what
//! holds expressions of at most so many levels.

ghost use Rattle.std.specs.Prelude.{◌≡◌};
ghost use Rattle.rs_expr.specs.Exprs as reader;
ghost use Rattle.rs_expr.specs.Reading.{Gives};
ghost use Rattle.rs_tree.specs.Views.{expr_view};

use crate::atoms::{expr_and_mark, number};
use crate::cursor::Cursor;
use crate::expr_nodes::{choice, joined_of, no_function, prefixed_of};
use crate::operands::operand;
use crate::sign::Sign;
use crate::types::ty;
use crate::words::operator_of;
use cr_base::{Boxed, Memory};
use rs_tree::RExpr;
use std::alloc::Global;

// `as T`
#[tactic(auto, unfolding(crate::specs::Exprs::cast), using(rs_tree::proofs::Opened::cast_view))]
fn cast(alloc: Global, cursor: &mut Cursor<'_>, left: Boxed<RExpr>) -> Result<Boxed<RExpr>, Memory>
    ensures { Gives (λ e. expr_view e) result cursor.new (reader.cast (expr_view left) cursor.old) }
{
    cursor.skip(1);
    let to = ty(alloc, cursor, cursor.len())?;
    Boxed::new(alloc, RExpr::Cast(left, to))
}

// An operator and its right operand.
#[cycle(expr)]
fn joined(
    alloc: Global,
    cursor: &mut Cursor<'_>,
    levels: usize,
    sign: Sign,
    left: Boxed<RExpr>,
) -> Result<Boxed<RExpr>, Memory>
    ensures { Gives (λ e. expr_view e) result cursor.new (reader.joined sign (expr_view left) (reader.expr levels) cursor.old) }
{
    let operator = operator_of(cursor.text());
    cursor.skip(1);
    let right = operand(alloc, cursor, levels)?;
    joined_of(alloc, sign, left, operator, right)
}

// An operand, or an operator between two.
#[cycle(expr)]
#[tactic(auto, unfolding(crate::specs::Exprs::between, crate::specs::Exprs::continuation, crate::specs::Exprs::and_right, crate::specs::Exprs::or_right, crate::specs::Exprs::operated))]
fn between(alloc: Global, cursor: &mut Cursor<'_>, levels: usize) -> Result<Boxed<RExpr>, Memory>
    ensures { Gives (λ e. expr_view e) result cursor.new (reader.between (reader.expr levels) cursor.old) }
{
    let left = operand(alloc, cursor, levels)?;
    match cursor.peek() {
        Sign::As => cast(alloc, cursor, left),
        Sign::AndAnd => joined(alloc, cursor, levels, Sign::AndAnd, left),
        Sign::OrOr => joined(alloc, cursor, levels, Sign::OrOr, left),
        Sign::Star | Sign::Minus | Sign::OtherMark => {
            joined(alloc, cursor, levels, Sign::OtherMark, left)
        }
        _ => Ok(left),
    }
}

// An operator before its operand.
#[cycle(expr)]
fn prefixed(
    alloc: Global,
    cursor: &mut Cursor<'_>,
    levels: usize,
    sign: Sign,
) -> Result<Boxed<RExpr>, Memory>
    ensures { Gives (λ e. expr_view e) result cursor.new (reader.prefixed sign (reader.expr levels) cursor.old) }
{
    cursor.skip(1);
    let right = operand(alloc, cursor, levels)?;
    prefixed_of(alloc, sign, right)
}

// Whether a literal that no dot stands behind is behind the next token.
fn is_lone(cursor: &Cursor<'_>) -> bool
    ensures { result ≡ reader.is_lone cursor.now }
{
    cursor.peek_behind().is_number() && !cursor.peek_behind_two().is_dot()
}

// `if e { e } else { e }`
#[cycle(expr)]
#[tactic(auto, unfolding(crate::specs::Exprs::choose, crate::specs::Exprs::choose_from, crate::specs::Exprs::argument))]
fn choose(alloc: Global, cursor: &mut Cursor<'_>, levels: usize) -> Result<Boxed<RExpr>, Memory>
    ensures { Gives (λ e. expr_view e) result cursor.new (reader.choose (reader.expr levels) cursor.old) }
{
    cursor.skip(1);
    let condition = expr_and_mark(alloc, cursor, levels)?;
    let if_true = expr(alloc, cursor, levels)?;
    cursor.skip(3);
    let if_false = expr_and_mark(alloc, cursor, levels)?;
    choice(alloc, condition, if_true, if_false)
}

#[cycle(expr)]
#[tactic(auto, unfolding(crate::specs::Exprs::expr_from, crate::specs::Exprs::minus, crate::specs::Exprs::opposite, crate::specs::Exprs::inverted, crate::specs::Exprs::pointed))]
fn expr_from(alloc: Global, cursor: &mut Cursor<'_>, levels: usize) -> Result<Boxed<RExpr>, Memory>
    ensures { Gives (λ e. expr_view e) result cursor.new (reader.expr_from (reader.expr levels) cursor.old) }
{
    match cursor.peek() {
        Sign::If => choose(alloc, cursor, levels),
        Sign::Minus => {
            if is_lone(cursor) {
                return number(alloc, cursor);
            }
            prefixed(alloc, cursor, levels, Sign::Minus)
        }
        Sign::Bang => prefixed(alloc, cursor, levels, Sign::Bang),
        Sign::Star => prefixed(alloc, cursor, levels, Sign::Star),
        _ => between(alloc, cursor, levels),
    }
}

/// Reads an expression of at most so many levels. Refused only for want of memory.
#[cycle(expr)]
#[tactic(auto, using(crate::proofs::Turns::expr_some, crate::proofs::Turns::expr_none))]
pub fn expr(alloc: Global, cursor: &mut Cursor<'_>, levels: usize) -> Result<Boxed<RExpr>, Memory>
    ensures { Gives (λ e. expr_view e) result cursor.new (reader.expr levels cursor.old) }
{
    if levels == 0 {
        return no_function(alloc);
    }
    cursor.enter()?;
    let read = expr_from(alloc, cursor, levels - 1)?;
    cursor.leave();
    Ok(read)
}

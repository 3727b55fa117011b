//! Readers of operands: what stands behind dots (the Rust Reference, "Method call expressions" and "Field access
//! expressions").

ghost use Rattle.std.specs.Prelude.{◌≡◌, map, length};
ghost use Rattle.rs_expr.specs.Exprs as reader;
ghost use Rattle.rs_expr.specs.Reading.{Gives};
ghost use Rattle.rs_tree.specs.Views.{expr_view};

use crate::atoms::{args, base, expr_and_mark};
use crate::cursor::Cursor;
use crate::expr_nodes::{applied_of, call_by, place_of, read_of};
use crate::sign::Sign;
use crate::words::{Method, method_of};
use cr_base::{Boxed, Memory};
use rs_tree::{RExpr, RPlace};
use std::alloc::Global;

// `unwrap()(e, e)`, behind its first parenthesis.
#[cycle(expr)]
#[tactic(auto, unfolding(crate::specs::Exprs::unwrapped))]
fn unwrapped(
    alloc: Global,
    cursor: &mut Cursor<'_>,
    levels: usize,
    operand: Boxed<RExpr>,
) -> Result<Boxed<RExpr>, Memory>
    ensures { Gives (λ e. expr_view e) result cursor.new (reader.unwrapped (expr_view operand) (reader.expr levels) cursor.old) }
{
    cursor.skip(2);
    let args = args(alloc, cursor, levels)?;
    cursor.skip(1);
    call_by(alloc, operand, args)
}

// A method with an argument, behind its parenthesis.
#[cycle(expr)]
fn applied(
    alloc: Global,
    cursor: &mut Cursor<'_>,
    levels: usize,
    word: Method,
    operand: Boxed<RExpr>,
) -> Result<Boxed<RExpr>, Memory>
    ensures { Gives (λ e. expr_view e) result cursor.new (reader.applied word (expr_view operand) (reader.expr levels) cursor.old) }
{
    let arg = expr_and_mark(alloc, cursor, levels)?;
    applied_of(alloc, word, operand, arg)
}

// A method without arguments, behind its parenthesis.
#[tactic(auto, using(rs_tree::proofs::Opened::wrapping_neg_view))]
fn plain_method(
    alloc: Global,
    cursor: &mut Cursor<'_>,
    word: Method,
    operand: Boxed<RExpr>,
) -> Result<Boxed<RExpr>, Memory>
    ensures { Gives (λ e. expr_view e) result cursor.new (reader.plain_by word (expr_view operand) cursor.old) }
{
    cursor.skip(1);
    match word {
        Method::NegMethod => Boxed::new(alloc, RExpr::WrappingNeg(operand)),
        Method::IsNullMethod => Boxed::new(alloc, RExpr::IsNull(operand)),
        _ => Boxed::new(alloc, RExpr::IsNone(operand)),
    }
}

// `.f`
#[tactic(auto, unfolding(crate::specs::Exprs::field))]
fn field(
    alloc: Global,
    cursor: &mut Cursor<'_>,
    operand: Boxed<RExpr>,
) -> Result<Boxed<RExpr>, Memory>
    ensures { Gives (λ e. expr_view e) result cursor.new (reader.field (expr_view operand) cursor.old) }
{
    let place = place_of(alloc, operand)?;
    cursor.skip(1);
    let name = cursor.name(alloc)?;
    read_of(alloc, RPlace::Field(place, name))
}

// `.f`, or a method.
#[cycle(expr)]
#[tactic(auto, unfolding(crate::specs::Exprs::tail, crate::specs::Exprs::method, crate::specs::Exprs::wrapped, crate::specs::Exprs::moved, crate::specs::Exprs::measured))]
fn tail(
    alloc: Global,
    cursor: &mut Cursor<'_>,
    levels: usize,
    operand: Boxed<RExpr>,
) -> Result<Boxed<RExpr>, Memory>
    ensures { Gives (λ e. expr_view e) result cursor.new (reader.tail (expr_view operand) (reader.expr levels) cursor.old) }
{
    if cursor.peek_behind_two() != Sign::LeftParenthesis {
        return field(alloc, cursor, operand);
    }
    cursor.skip(1);
    let word = method_of(cursor.text());
    cursor.skip(2);
    match word {
        Method::Unwrap => unwrapped(alloc, cursor, levels, operand),
        Method::NegMethod | Method::IsNullMethod | Method::IsNoneMethod => {
            plain_method(alloc, cursor, word, operand)
        }
        Method::AddMethod
        | Method::SubMethod
        | Method::MulMethod
        | Method::OffsetMethod
        | Method::OffsetFromMethod => applied(alloc, cursor, levels, word, operand),
    }
}

// All that stands behind an operand, each behind a dot.
#[cycle(expr)]
#[tactic(auto, using(crate::proofs::Turns::tails_out, crate::proofs::Turns::tails_stop, crate::proofs::Turns::tails_goes))]
fn tails(
    alloc: Global,
    cursor: &mut Cursor<'_>,
    levels: usize,
    operand: Boxed<RExpr>,
) -> Result<Boxed<RExpr>, Memory>
    ensures { Gives (λ e. expr_view e) result cursor.new (reader.tails (length cursor.old) (expr_view operand) (reader.expr levels) cursor.old) }
{
    let mut read = operand;
    for _turn in 0..cursor.len() {
        if !cursor.peek().is_dot() {
            return Ok(read);
        }
        read = tail(alloc, cursor, levels, read)?;
    }
    Ok(read)
}

// An operand: an atom, or a compound in parentheses.
#[cycle(expr)]
#[tactic(auto, unfolding(crate::specs::Exprs::operand))]
pub(crate) fn operand(
    alloc: Global,
    cursor: &mut Cursor<'_>,
    levels: usize,
) -> Result<Boxed<RExpr>, Memory>
    ensures { Gives (λ e. expr_view e) result cursor.new (reader.operand (reader.expr levels) cursor.old) }
{
    let read = base(alloc, cursor, levels)?;
    tails(alloc, cursor, levels, read)
}

//! Expressions that begin with no left operand (ISO C99, 6.5.1 and 6.5.3).

ghost use Rattle.std.specs.Prelude.{◌≡◌, ◌≤◌, ◌<◌, ◌^◌, suc, map, IfOk, ◌∷◌, []};
ghost use Rattle.cx_cursor.specs.Reading.{Answers};
ghost use Rattle.cx_expr.specs.Exprs as reader;
ghost use Rattle.cx_expr.specs.Asked.{IsBelow};
ghost use Rattle.cx_expr.specs.Knot.{readers};
ghost use Rattle.cx_tree.specs.Depth.{expr_depth};
ghost use Rattle.cx_tree.specs.Views.{expr_view};
ghost use Rattle.cx_cursor.specs.Lists.{list_read, many_ahead, taking};
ghost use Rattle.cx_cursor.specs.Sights.{text};

use crate::below::expr;
use crate::nodes::{ReadExpr, expr_of};
use crate::typed::{parenthesised, sizeof};
use crate::wanted::{Found, Wanted};
use cr_base::{Boxed, Items, Name};
use cx_cursor::{Cursor, Fault, Sight, one_line, same_mark, two_lines};
use cx_lex::Punct;
use cx_tree::{Expr, is_unary_operator};
use cx_words::level::{CAST, EXPRESSION, UNARY};
use std::alloc::Global;

// An identifier (6.5.1).
#[tactic(auto, unfolding(crate::specs::Exprs::name, cx_cursor::specs::Reading::bind))]
fn name(alloc: Global, cursor: &mut Cursor<'_>) -> Result<ReadExpr, Fault>
    ensures reads { Answers (λ r. expr_view r.tree) result cursor.new (reader.name cursor.old) }
    ensures depth { IfOk result (λ r. r.depth ≡ expr_depth (expr_view r.tree)) }
    ensures within { IfOk result (λ r. r.depth ≤ 1) }
{
    let (name, line) = cursor.word()?;
    let lines = one_line(alloc, line)?;
    Ok(expr_of(alloc, Expr::Name { name, lines }, 1)?)
}

// An integer constant (6.5.1).
#[tactic(auto, unfolding(crate::specs::Exprs::constant, cx_cursor::specs::Reading::bind))]
fn constant(alloc: Global, cursor: &mut Cursor<'_>) -> Result<ReadExpr, Fault>
    ensures reads { Answers (λ r. expr_view r.tree) result cursor.new (reader.constant cursor.old) }
    ensures depth { IfOk result (λ r. r.depth ≡ expr_depth (expr_view r.tree)) }
    ensures within { IfOk result (λ r. r.depth ≤ 1) }
{
    let (value, ty, line) = cursor.number()?;
    let lines = one_line(alloc, line)?;
    Ok(expr_of(alloc, Expr::Number { value, ty, lines }, 1)?)
}

// A character constant (6.5.1).
#[tactic(auto, unfolding(crate::specs::Exprs::character, cx_cursor::specs::Reading::bind))]
fn character(alloc: Global, cursor: &mut Cursor<'_>) -> Result<ReadExpr, Fault>
    ensures reads { Answers (λ r. expr_view r.tree) result cursor.new (reader.character cursor.old) }
    ensures depth { IfOk result (λ r. r.depth ≡ expr_depth (expr_view r.tree)) }
    ensures within { IfOk result (λ r. r.depth ≤ 1) }
{
    let (value, line) = cursor.letter()?;
    let lines = one_line(alloc, line)?;
    Ok(expr_of(alloc, Expr::Letter { value, lines }, 1)?)
}

// String literals that stand side by side, and their lines.
#[derive(Drop)]
struct ReadTexts {
    parts: Items<Name>,
    lines: Items<u32>,
}

// One more string literal.
#[tactic(auto, unfolding(cx_cursor::specs::Lists::taking, cx_cursor::specs::Reading::bind))]
fn next_text(cursor: &mut Cursor<'_>, texts: ReadTexts) -> Result<ReadTexts, Fault>
    ensures { Answers (λ t. list_read t.parts t.lines) result cursor.new
        (taking text reader.with_text (list_read texts.parts texts.lines) cursor.old) }
{
    let mut texts = texts;
    let (bytes, line) = cursor.text()?;
    texts.parts.push(bytes)?;
    texts.lines.push(line)?;
    Ok(texts)
}

// The string literals that follow.
#[tactic(auto, using(cx_cursor::proofs::Turns::many_out, cx_cursor::proofs::Turns::many_stop, cx_cursor::proofs::Turns::many_goes), unfolding(cx_cursor::specs::Lists::many_ahead, cx_cursor::specs::Reading::bind))]
fn texts_behind(cursor: &mut Cursor<'_>, texts: ReadTexts) -> Result<ReadTexts, Fault>
    ensures { Answers (λ t. list_read t.parts t.lines) result cursor.new
        (many_ahead reader.no_text (taking text reader.with_text) (list_read texts.parts texts.lines) cursor.old) }
{
    let mut texts = texts;
    for _turn in 0..cursor.turns() {
        if !cursor.peek().shows_text() {
            return Ok(texts);
        }
        texts = next_text(cursor, texts)?;
    }
    Err(cursor.no_tree())
}

// Adjacent string literals (6.5.1, 6.4.5).
#[tactic(auto, unfolding(crate::specs::Exprs::texts, cx_cursor::specs::Reading::bind))]
fn texts(alloc: Global, cursor: &mut Cursor<'_>) -> Result<ReadExpr, Fault>
    ensures reads { Answers (λ r. expr_view r.tree) result cursor.new (reader.texts cursor.old) }
    ensures depth { IfOk result (λ r. r.depth ≡ expr_depth (expr_view r.tree)) }
    ensures within { IfOk result (λ r. r.depth ≤ 1) }
{
    let none = ReadTexts {
        parts: Items::new(alloc),
        lines: Items::new(alloc),
    };
    let first = next_text(cursor, none)?;
    let ReadTexts { parts, lines } = texts_behind(cursor, first)?;
    Ok(expr_of(alloc, Expr::Text { parts, lines }, 1)?)
}

// An expression in parentheses (6.5.1).
#[tactic(auto, unfolding(crate::specs::Exprs::paren, cx_cursor::specs::Reading::bind))]
pub fn paren<F: Fn(&mut Cursor<'_>, u32, Wanted) -> Result<Found, Fault>>(
    alloc: Global,
    cursor: &mut Cursor<'_>,
    depth: u32,
    below: &F,
) -> Result<ReadExpr, Fault>
    requires parts { IsBelow (F.pre below.now) (F.post below.now) depth }
    requires depth { depth < 2 ^ 31 }
    ensures reads { Answers (λ r. expr_view r.tree) result cursor.new (reader.paren (readers depth) cursor.old) }
    ensures depth { IfOk result (λ r. r.depth ≡ expr_depth (expr_view r.tree)) }
    ensures within { IfOk result (λ r. r.depth ≤ suc depth) }
{
    let first = cursor.mark(Punct::LeftParenthesis)?;
    let inner = expr(cursor, depth, below, EXPRESSION)?;
    let last = cursor.mark(Punct::RightParenthesis)?;
    let lines = two_lines(alloc, first, last)?;
    let depth = inner.depth + 1;
    let inner = inner.tree;
    Ok(expr_of(alloc, Expr::Paren { inner, lines }, depth)?)
}

fn stepped_of(op: Punct, on: Boxed<Expr>, lines: Items<u32>) -> Expr
    ensures { expr_view result ≡ reader.stepped_of op (expr_view on) lines }
{
    if same_mark(op, Punct::PlusPlus) {
        Expr::PreUp { on, lines }
    } else {
        Expr::PreDown { on, lines }
    }
}

// A prefix `++` or `--` and its operand (6.5.3.1).
#[tactic(auto, unfolding(crate::specs::Exprs::pre_step, cx_cursor::specs::Reading::bind))]
fn pre_step<F: Fn(&mut Cursor<'_>, u32, Wanted) -> Result<Found, Fault>>(
    alloc: Global,
    cursor: &mut Cursor<'_>,
    depth: u32,
    below: &F,
) -> Result<ReadExpr, Fault>
    requires parts { IsBelow (F.pre below.now) (F.post below.now) depth }
    requires depth { depth < 2 ^ 31 }
    ensures reads { Answers (λ r. expr_view r.tree) result cursor.new (reader.pre_step (readers depth) cursor.old) }
    ensures depth { IfOk result (λ r. r.depth ≡ expr_depth (expr_view r.tree)) }
    ensures within { IfOk result (λ r. r.depth ≤ suc depth) }
{
    let (op, line) = cursor.operator()?;
    let lines = one_line(alloc, line)?;
    let on = expr(cursor, depth, below, UNARY)?;
    let depth = on.depth + 1;
    Ok(expr_of(alloc, stepped_of(op, on.tree, lines), depth)?)
}

// A unary operator and its operand (6.5.3.2, 6.5.3.3).
#[tactic(auto, unfolding(crate::specs::Exprs::unary, cx_cursor::specs::Reading::bind))]
fn unary<F: Fn(&mut Cursor<'_>, u32, Wanted) -> Result<Found, Fault>>(
    alloc: Global,
    cursor: &mut Cursor<'_>,
    depth: u32,
    below: &F,
) -> Result<ReadExpr, Fault>
    requires parts { IsBelow (F.pre below.now) (F.post below.now) depth }
    requires depth { depth < 2 ^ 31 }
    ensures reads { Answers (λ r. expr_view r.tree) result cursor.new (reader.unary (readers depth) cursor.old) }
    ensures depth { IfOk result (λ r. r.depth ≡ expr_depth (expr_view r.tree)) }
    ensures within { IfOk result (λ r. r.depth ≤ suc depth) }
{
    let (op, line) = cursor.operator()?;
    let lines = one_line(alloc, line)?;
    let on = expr(cursor, depth, below, CAST)?;
    let depth = on.depth + 1;
    let on = on.tree;
    Ok(expr_of(alloc, Expr::Unary { op, on, lines }, depth)?)
}

#[tactic(auto, unfolding(crate::specs::Exprs::start_mark))]
fn start_mark<F: Fn(&mut Cursor<'_>, u32, Wanted) -> Result<Found, Fault>>(
    alloc: Global,
    cursor: &mut Cursor<'_>,
    depth: u32,
    below: &F,
    least: u32,
    punct: Punct,
) -> Result<ReadExpr, Fault>
    requires parts { IsBelow (F.pre below.now) (F.post below.now) depth }
    requires depth { depth < 2 ^ 31 }
    ensures reads { Answers (λ r. expr_view r.tree) result cursor.new (reader.start_mark (readers depth) least punct cursor.old) }
    ensures depth { IfOk result (λ r. r.depth ≡ expr_depth (expr_view r.tree)) }
    ensures within { IfOk result (λ r. r.depth ≤ suc depth) }
{
    if same_mark(punct, Punct::LeftParenthesis) {
        return parenthesised(alloc, cursor, depth, below, least);
    }
    if same_mark(punct, Punct::PlusPlus) || same_mark(punct, Punct::MinusMinus) {
        return pre_step(alloc, cursor, depth, below);
    }
    if is_unary_operator(punct) {
        return unary(alloc, cursor, depth, below);
    }
    Err(cursor.no_tree())
}

/// An expression of the level `least` or above that begins with no left operand, whose parts are at most
/// `depth` nodes deep.
#[tactic(auto, unfolding(crate::specs::Exprs::start))]
pub fn start<F: Fn(&mut Cursor<'_>, u32, Wanted) -> Result<Found, Fault>>(
    alloc: Global,
    cursor: &mut Cursor<'_>,
    depth: u32,
    below: &F,
    least: u32,
) -> Result<ReadExpr, Fault>
    requires parts { IsBelow (F.pre below.now) (F.post below.now) depth }
    requires depth { depth < 2 ^ 31 }
    ensures reads { Answers (λ r. expr_view r.tree) result cursor.new (reader.start (readers depth) least cursor.old) }
    ensures depth { IfOk result (λ r. r.depth ≡ expr_depth (expr_view r.tree)) }
    ensures within { IfOk result (λ r. r.depth ≤ suc depth) }
{
    match cursor.peek() {
        Sight::Word => name(alloc, cursor),
        Sight::Number => constant(alloc, cursor),
        Sight::Letter => character(alloc, cursor),
        Sight::Text => texts(alloc, cursor),
        Sight::Mark(punct) => start_mark(alloc, cursor, depth, below, least, punct),
        Sight::Key(_) => sizeof(alloc, cursor, depth, below),
        _ => Err(cursor.no_tree()),
    }
}

//! Expressions (ISO C99, 6.5). A function whose parameter is `depth` reads an expression whose parts
//! are at most that many nodes deep; `expr` reads one that is itself at most so deep.

ghost use Rattle.std.specs.Prelude.{◌≡◌, ◌≤◌, ◌<◌, ◌^◌, suc, map, option_map, IfOk};
ghost use Rattle.straight_parse.specs.Continuations as continuations;
ghost use Rattle.straight_parse.specs.Exprs as reader;
ghost use Rattle.straight_parse.specs.Lists as lists;
ghost use Rattle.straight_parse.specs.Lists.{list_read};
ghost use Rattle.straight_parse.specs.Reading.{Answers};
ghost use Rattle.straight_tree.specs.Views.{expr_view};

use crate::continuation::{Continuation, continuation_of, goes_on};
use crate::cursor::Cursor;
use crate::fault::Fault;
use crate::listed::Listed;
use crate::measured::Measured;
use crate::nodes::{Read, assign_of, binary_of, call_of, one_line, paren_of, unary_of};
use crate::sight::{Sight, same_mark};
use cr_base::Boxed;
use cx_lex::Punct;
use std::alloc::Global;
use straight_tree::{Expr, is_unary_operator, level};

// An identifier (6.5.1).
#[tactic(auto, unfolding(crate::specs::Exprs::name, crate::specs::Reading::bind))]
fn name(alloc: Global, cursor: &mut Cursor<'_>) -> Result<Read, Fault>
    ensures reads { Answers (λ r. (expr_view r.tree, r.depth)) result cursor.new (reader.name cursor.old) }
    ensures within { IfOk result (λ r. r.depth ≡ 1) }
{
    let (name, line) = cursor.word()?;
    let lines = one_line(alloc, line)?;
    let tree = Boxed::new(alloc, Expr::Name { name, lines })?;
    Ok(Measured { tree, depth: 1 })
}

// An integer constant (6.5.1).
#[tactic(auto, unfolding(crate::specs::Exprs::constant, crate::specs::Reading::bind))]
fn constant(alloc: Global, cursor: &mut Cursor<'_>) -> Result<Read, Fault>
    ensures reads { Answers (λ r. (expr_view r.tree, r.depth)) result cursor.new (reader.constant cursor.old) }
    ensures within { IfOk result (λ r. r.depth ≡ 1) }
{
    let (value, ty, line) = cursor.number()?;
    let lines = one_line(alloc, line)?;
    let tree = Boxed::new(alloc, Expr::Number { value, ty, lines })?;
    Ok(Measured { tree, depth: 1 })
}

// An expression in parentheses (6.5.1).
#[cycle(expr)]
#[tactic(auto, unfolding(crate::specs::Exprs::paren, crate::specs::Reading::bind))]
fn paren(alloc: Global, cursor: &mut Cursor<'_>, depth: u32) -> Result<Read, Fault>
    requires { depth < 2 ^ 31 }
    ensures reads { Answers (λ r. (expr_view r.tree, r.depth)) result cursor.new (reader.paren (reader.expr depth) cursor.old) }
    ensures within { IfOk result (λ r. r.depth ≤ suc depth) }
{
    let first = cursor.mark(Punct::LeftParenthesis)?;
    let inner = expr(alloc, cursor, depth, 1)?;
    let last = cursor.mark(Punct::RightParenthesis)?;
    Ok(paren_of(alloc, first, inner, last)?)
}

// A unary operator and its operand (6.5.3).
#[cycle(expr)]
#[tactic(auto, unfolding(crate::specs::Exprs::unary, crate::specs::Reading::bind))]
fn unary(alloc: Global, cursor: &mut Cursor<'_>, depth: u32) -> Result<Read, Fault>
    requires { depth < 2 ^ 31 }
    ensures reads { Answers (λ r. (expr_view r.tree, r.depth)) result cursor.new (reader.unary (reader.expr depth) cursor.old) }
    ensures within { IfOk result (λ r. r.depth ≤ suc depth) }
{
    let (op, line) = cursor.operator()?;
    let on = expr(alloc, cursor, depth, 14)?;
    Ok(unary_of(alloc, op, line, on)?)
}

#[cycle(expr)]
#[tactic(auto, unfolding(crate::specs::Exprs::start_mark))]
fn start_mark(
    alloc: Global,
    cursor: &mut Cursor<'_>,
    depth: u32,
    least: u32,
    punct: Punct,
) -> Result<Read, Fault>
    requires { depth < 2 ^ 31 }
    ensures reads { Answers (λ r. (expr_view r.tree, r.depth)) result cursor.new (reader.start_mark (reader.expr depth) least punct cursor.old) }
    ensures within { IfOk result (λ r. r.depth ≤ suc depth) }
{
    if same_mark(punct, Punct::LeftParenthesis) {
        return paren(alloc, cursor, depth);
    }
    if is_unary_operator(punct) && least <= 15 {
        return unary(alloc, cursor, depth);
    }
    Err(Fault::NoTree)
}

// An expression that begins with no operand of its own.
#[cycle(expr)]
#[tactic(auto, unfolding(crate::specs::Exprs::start))]
fn start(alloc: Global, cursor: &mut Cursor<'_>, depth: u32, least: u32) -> Result<Read, Fault>
    requires { depth < 2 ^ 31 }
    ensures reads { Answers (λ r. (expr_view r.tree, r.depth)) result cursor.new (reader.start (reader.expr depth) least cursor.old) }
    ensures within { IfOk result (λ r. r.depth ≤ suc depth) }
{
    match cursor.peek() {
        Sight::Word => name(alloc, cursor),
        Sight::Number => constant(alloc, cursor),
        Sight::Mark(punct) => start_mark(alloc, cursor, depth, least, punct),
        _ => Err(Fault::NoTree),
    }
}

// A comma and the argument behind it.
#[cycle(expr)]
#[tactic(auto, unfolding(crate::specs::Lists::taking, crate::specs::Lists::comma_item, crate::specs::Reading::bind))]
fn next_arg(
    alloc: Global,
    cursor: &mut Cursor<'_>,
    depth: u32,
    args: Listed<Expr>,
) -> Result<Listed<Expr>, Fault>
    requires depth { depth < 2 ^ 31 }
    requires args { args.depth ≤ depth }
    ensures reads { Answers (λ l. list_read (map expr_view l.list) l.depth l.lines) result cursor.new
        (lists.next_item (reader.expr depth 2) (list_read (map expr_view args.list) args.depth args.lines) cursor.old) }
    ensures within { IfOk result (λ l. l.depth ≤ depth) }
{
    let mut args = args;
    args.push_line(cursor.mark(Punct::Comma)?)?;
    args.push_boxed(expr(alloc, cursor, depth, 2)?)?;
    Ok(args)
}

// The arguments behind the first, each behind a comma.
#[cycle(expr)]
#[tactic(auto, using(crate::proofs::Turns::many_out, crate::proofs::Turns::many_stop, crate::proofs::Turns::many_goes), unfolding(crate::specs::Lists::many_ahead, crate::specs::Reading::bind))]
fn args_behind(
    alloc: Global,
    cursor: &mut Cursor<'_>,
    depth: u32,
    args: Listed<Expr>,
) -> Result<Listed<Expr>, Fault>
    requires depth { depth < 2 ^ 31 }
    requires args { args.depth ≤ depth }
    ensures reads { Answers (λ l. list_read (map expr_view l.list) l.depth l.lines) result cursor.new
        (lists.behind_commas (reader.expr depth 2) (list_read (map expr_view args.list) args.depth args.lines) cursor.old) }
    ensures within { IfOk result (λ l. l.depth ≤ depth) }
{
    let mut args = args;
    for _turn in 0..cursor.turns() {
        if !cursor.sees(Punct::Comma) {
            return Ok(args);
        }
        args = next_arg(alloc, cursor, depth, args)?;
    }
    Err(Fault::NoTree)
}

// The arguments of a call, none where the list ends at once. `first` is the line of the parenthesis in
// front of them.
#[cycle(expr)]
#[tactic(auto, unfolding(crate::specs::Exprs::args, crate::specs::Exprs::args_or_none, crate::specs::Reading::bind))]
fn args(
    alloc: Global,
    cursor: &mut Cursor<'_>,
    depth: u32,
    first: u32,
) -> Result<Listed<Expr>, Fault>
    requires { depth < 2 ^ 31 }
    ensures reads { Answers (λ l. list_read (map expr_view l.list) l.depth l.lines) result cursor.new
        (reader.args_or_none (reader.expr depth) first cursor.old) }
    ensures within { IfOk result (λ l. l.depth ≤ depth) }
{
    let mut args = Listed::new(alloc, one_line(alloc, first)?);
    if cursor.sees(Punct::RightParenthesis) {
        return Ok(args);
    }
    args.push_boxed(expr(alloc, cursor, depth, 2)?)?;
    args_behind(alloc, cursor, depth, args)
}

// A function call (6.5.2.2).
#[cycle(expr)]
#[tactic(auto, unfolding(crate::specs::Exprs::call, crate::specs::Reading::bind))]
fn call(alloc: Global, cursor: &mut Cursor<'_>, depth: u32, left: Read) -> Result<Read, Fault>
    requires depth { depth < 2 ^ 31 }
    requires left { left.depth ≤ depth }
    ensures reads { Answers (λ r. (expr_view r.tree, r.depth)) result cursor.new (reader.call (reader.expr depth) (expr_view left.tree, left.depth) cursor.old) }
    ensures within { IfOk result (λ r. r.depth ≤ suc depth) }
{
    let first = cursor.mark(Punct::LeftParenthesis)?;
    let mut list = args(alloc, cursor, depth, first)?;
    let last = cursor.mark(Punct::RightParenthesis)?;
    list.push_line(last)?;
    Ok(call_of(alloc, left, list)?)
}

// A binary operator of this level, and its right operand (6.5.5 to 6.5.14).
#[cycle(expr)]
#[tactic(auto, unfolding(crate::specs::Exprs::binary, crate::specs::Reading::bind))]
fn binary(
    alloc: Global,
    cursor: &mut Cursor<'_>,
    depth: u32,
    level: u32,
    left: Read,
) -> Result<Read, Fault>
    requires depth { depth < 2 ^ 31 }
    requires level { level < 2 ^ 31 }
    requires left { left.depth ≤ depth }
    ensures reads { Answers (λ r. (expr_view r.tree, r.depth)) result cursor.new (reader.binary (reader.expr depth) level (expr_view left.tree, left.depth) cursor.old) }
    ensures within { IfOk result (λ r. r.depth ≤ suc depth) }
{
    let (op, line) = cursor.operator()?;
    let right = expr(alloc, cursor, depth, level + 1)?;
    Ok(binary_of(alloc, left, op, line, right)?)
}

// An assignment operator, and its right operand (6.5.16).
#[cycle(expr)]
#[tactic(auto, unfolding(crate::specs::Exprs::assign, crate::specs::Reading::bind))]
fn assign(alloc: Global, cursor: &mut Cursor<'_>, depth: u32, left: Read) -> Result<Read, Fault>
    requires depth { depth < 2 ^ 31 }
    requires left { left.depth ≤ depth }
    ensures reads { Answers (λ r. (expr_view r.tree, r.depth)) result cursor.new (reader.assign (reader.expr depth) (expr_view left.tree, left.depth) cursor.old) }
    ensures within { IfOk result (λ r. r.depth ≤ suc depth) }
{
    let (op, line) = cursor.operator()?;
    let right = expr(alloc, cursor, depth, 2)?;
    Ok(assign_of(alloc, left, op, line, right)?)
}

// What continues a left operand.
#[cycle(expr)]
#[tactic(auto, unfolding(crate::specs::Exprs::operation))]
fn operation(
    alloc: Global,
    cursor: &mut Cursor<'_>,
    depth: u32,
    continuation: Continuation,
    left: Read,
) -> Result<Read, Fault>
    requires depth { depth < 2 ^ 31 }
    requires level { continuations.strength continuation < 2 ^ 31 }
    ensures reads { Answers (λ r. (expr_view r.tree, r.depth)) result cursor.new
        (reader.operation (reader.expr depth) depth continuation (expr_view left.tree, left.depth) cursor.old) }
    ensures within { IfOk result (λ r. r.depth ≤ suc depth) }
{
    if depth < left.depth {
        return Err(Fault::NoTree);
    }
    match continuation {
        Continuation::Operates(level) => binary(alloc, cursor, depth, level, left),
        Continuation::Assigns => assign(alloc, cursor, depth, left),
        Continuation::Calls => call(alloc, cursor, depth, left),
        Continuation::Nothing => Err(Fault::NoTree),
    }
}

// What continues an operand, as long as the level `least` allows.
#[cycle(expr)]
#[tactic(auto, using(crate::proofs::Turns::climb_out, crate::proofs::Turns::climb_stop, crate::proofs::Turns::climb_goes), unfolding(crate::specs::Reading::bind))]
fn climb(
    alloc: Global,
    cursor: &mut Cursor<'_>,
    depth: u32,
    least: u32,
    left: Read,
) -> Result<Read, Fault>
    requires depth { depth < 2 ^ 31 }
    requires left { left.depth ≤ suc depth }
    ensures reads { Answers (λ r. (expr_view r.tree, r.depth)) result cursor.new
        (reader.climb (reader.expr depth) depth least (suc depth) (expr_view left.tree, left.depth) cursor.old) }
    ensures within { IfOk result (λ r. r.depth ≤ suc depth) }
{
    let mut left = left;
    for _turn in 0..depth + 1 {
        let continuation = continuation_of(cursor.peek());
        if !goes_on(least, continuation, level(left.tree.get())) {
            return Ok(left);
        }
        left = operation(alloc, cursor, depth, continuation, left)?;
    }
    Err(Fault::NoTree)
}

/// Reads an expression of the level `least` or above, at most `depth` nodes deep.
#[cycle(expr)]
#[tactic(auto, using(crate::proofs::Turns::expr_none, crate::proofs::Turns::expr_some), unfolding(crate::specs::Reading::bind))]
pub fn expr(alloc: Global, cursor: &mut Cursor<'_>, depth: u32, least: u32) -> Result<Read, Fault>
    requires { depth < 2 ^ 31 }
    ensures reads { Answers (λ r. (expr_view r.tree, r.depth)) result cursor.new (reader.expr depth least cursor.old) }
    ensures within { IfOk result (λ r. r.depth ≤ depth) }
{
    if depth == 0 {
        return Err(Fault::NoTree);
    }
    let left = start(alloc, cursor, depth - 1, least)?;
    climb(alloc, cursor, depth - 1, least, left)
}

/// Reads an expression at most `depth` nodes deep, or none where a semicolon stands ahead.
#[tactic(auto, unfolding(crate::specs::Exprs::option_expr, crate::specs::Reading::bind))]
pub fn option_expr(
    alloc: Global,
    cursor: &mut Cursor<'_>,
    depth: u32,
) -> Result<Option<Boxed<Expr>>, Fault>
    requires { depth < 2 ^ 31 }
    ensures { Answers (λ e. option_map expr_view e) result cursor.new (reader.option_expr depth cursor.old) }
{
    if cursor.sees(Punct::Semicolon) {
        return Ok(None);
    }
    let read = expr(alloc, cursor, depth, 1)?;
    Ok(Some(read.tree))
}

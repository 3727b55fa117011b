//! Readers of statements (the Rust Reference, "Statements"). A function whose parameter is `levels` reads what
//! holds blocks of at most so many levels.

ghost use Rattle.std.specs.Prelude.{◌≡◌, map};
ghost use Rattle.rs_expr.specs.Reading.{Gives, many_ahead, added};
ghost use Rattle.rs_item.specs.Stmts as reader;
ghost use Rattle.rs_tree.specs.Views.{expr_view, stmt_view, arm_view};

use crate::lists::{with_boxed, with_last};
use crate::simple_stmts::{
    break_stmt, continue_stmt, ends_arms, ends_block, expr_stmt, name_stmt, read_expr, return_stmt,
};
use crate::stmt_nodes::{block_of, if_of, loop_of, match_of};
use cr_base::{Boxed, Items, Memory, Name};
use rs_expr::{Cursor, Sign, literal};
use rs_tree::{Arm, RExpr, RStmt};
use std::alloc::Global;

// `{ .. }`
#[cycle(stmts)]
#[tactic(auto, unfolding(crate::specs::Stmts::block))]
fn block(alloc: Global, cursor: &mut Cursor<'_>, levels: usize) -> Result<Items<RStmt>, Memory>
    ensures { Gives (λ l. map stmt_view l) result cursor.new (reader.block (reader.read_stmts levels) cursor.old) }
{
    cursor.skip(1);
    let body = read_stmts(alloc, cursor, levels)?;
    cursor.skip(1);
    Ok(body)
}

// `else { .. }`, which may be missing.
#[cycle(stmts)]
#[tactic(auto, unfolding(crate::specs::Stmts::else_part))]
fn else_part(alloc: Global, cursor: &mut Cursor<'_>, levels: usize) -> Result<Items<RStmt>, Memory>
    ensures { Gives (λ l. map stmt_view l) result cursor.new (reader.else_part (reader.read_stmts levels) cursor.old) }
{
    if cursor.peek() != Sign::Else {
        return Ok(Items::new(alloc));
    }
    cursor.skip(1);
    block(alloc, cursor, levels)
}

// `if e { .. } else { .. }`
#[cycle(stmts)]
#[tactic(auto, unfolding(crate::specs::Stmts::if_stmt, crate::specs::Stmts::if_from))]
fn if_stmt(alloc: Global, cursor: &mut Cursor<'_>, levels: usize) -> Result<Boxed<RStmt>, Memory>
    ensures { Gives (λ s. stmt_view s) result cursor.new (reader.if_stmt (reader.read_stmts levels) cursor.old) }
{
    cursor.skip(1);
    let condition = read_expr(alloc, cursor)?;
    let if_true = block(alloc, cursor, levels)?;
    let if_false = else_part(alloc, cursor, levels)?;
    if_of(alloc, condition, if_true, if_false)
}

// `loop { .. }`, behind its label.
#[cycle(stmts)]
#[tactic(auto, unfolding(crate::specs::Stmts::loop_from))]
fn loop_from(
    alloc: Global,
    cursor: &mut Cursor<'_>,
    levels: usize,
    label: Option<Name>,
) -> Result<Boxed<RStmt>, Memory>
    ensures { Gives (λ s. stmt_view s) result cursor.new (reader.loop_from label (reader.read_stmts levels) cursor.old) }
{
    cursor.skip(1);
    let body = block(alloc, cursor, levels)?;
    loop_of(alloc, label, body)
}

// `'l: loop { .. }` and `'l: { .. }`
#[cycle(stmts)]
#[tactic(auto, unfolding(crate::specs::Stmts::labelled, crate::specs::Stmts::block_from))]
fn labelled(alloc: Global, cursor: &mut Cursor<'_>, levels: usize) -> Result<Boxed<RStmt>, Memory>
    ensures { Gives (λ s. stmt_view s) result cursor.new (reader.labelled (reader.read_stmts levels) cursor.old) }
{
    let label = cursor.name(alloc)?;
    cursor.skip(1);
    if cursor.peek() == Sign::Loop {
        return loop_from(alloc, cursor, levels, Some(label));
    }
    let body = block(alloc, cursor, levels)?;
    block_of(alloc, label, body)
}

// `1i32 => { .. }`, one more arm.
#[cycle(stmts)]
#[tactic(auto, unfolding(rs_expr::specs::Reading::added, crate::specs::Stmts::arm))]
fn next_arm(
    alloc: Global,
    cursor: &mut Cursor<'_>,
    levels: usize,
    list: Items<Arm>,
) -> Result<Items<Arm>, Memory>
    ensures { Gives (λ l. map arm_view l) result cursor.new (added (reader.arm (reader.read_stmts levels)) (map arm_view list) cursor.old) }
{
    let (value, ty) = literal(cursor);
    cursor.skip(1);
    let body = block(alloc, cursor, levels)?;
    with_last(list, Arm { value, ty, body })
}

// The arms of literals of a match.
#[cycle(stmts)]
#[tactic(auto, using(rs_expr::proofs::Turns::many_out, rs_expr::proofs::Turns::many_stop, rs_expr::proofs::Turns::many_goes))]
fn arms(alloc: Global, cursor: &mut Cursor<'_>, levels: usize) -> Result<Items<Arm>, Memory>
    ensures { Gives (λ l. map arm_view l) result cursor.new (reader.read_arms (reader.read_stmts levels) cursor.old) }
{
    let mut list = Items::new(alloc);
    for _turn in 0..cursor.len() {
        if ends_arms(cursor.peek()) {
            return Ok(list);
        }
        list = next_arm(alloc, cursor, levels, list)?;
    }
    Ok(list)
}

// `_ => { .. } }`, where the arms of literals are read.
#[cycle(stmts)]
#[tactic(auto, unfolding(crate::specs::Stmts::match_end))]
fn match_end(
    alloc: Global,
    cursor: &mut Cursor<'_>,
    levels: usize,
    value: Boxed<RExpr>,
    cases: Items<Arm>,
) -> Result<Boxed<RStmt>, Memory>
    ensures { Gives (λ s. stmt_view s) result cursor.new (reader.match_end (expr_view value) (map arm_view cases) (reader.read_stmts levels) cursor.old) }
{
    cursor.skip(2);
    let other = block(alloc, cursor, levels)?;
    cursor.skip(1);
    match_of(alloc, value, cases, other)
}

// `match e { .. }`
#[cycle(stmts)]
#[tactic(auto, unfolding(crate::specs::Stmts::match_stmt, crate::specs::Stmts::match_from))]
fn match_stmt(alloc: Global, cursor: &mut Cursor<'_>, levels: usize) -> Result<Boxed<RStmt>, Memory>
    ensures { Gives (λ s. stmt_view s) result cursor.new (reader.match_stmt (reader.read_stmts levels) cursor.old) }
{
    cursor.skip(1);
    let value = read_expr(alloc, cursor)?;
    cursor.skip(1);
    let cases = arms(alloc, cursor, levels)?;
    match_end(alloc, cursor, levels, value, cases)
}

// A statement.
#[cycle(stmts)]
#[tactic(auto, unfolding(crate::specs::Stmts::stmt_from))]
fn stmt_from(alloc: Global, cursor: &mut Cursor<'_>, levels: usize) -> Result<Boxed<RStmt>, Memory>
    ensures { Gives (λ s. stmt_view s) result cursor.new (reader.stmt_from (reader.read_stmts levels) cursor.old) }
{
    match cursor.peek() {
        Sign::If => if_stmt(alloc, cursor, levels),
        Sign::Loop => loop_from(alloc, cursor, levels, None),
        Sign::Label => labelled(alloc, cursor, levels),
        Sign::Match => match_stmt(alloc, cursor, levels),
        Sign::Break => break_stmt(alloc, cursor),
        Sign::Continue => continue_stmt(alloc, cursor),
        Sign::Return => return_stmt(alloc, cursor),
        Sign::Name => name_stmt(alloc, cursor),
        _ => expr_stmt(alloc, cursor),
    }
}

// One more statement.
#[cycle(stmts)]
#[tactic(auto, unfolding(rs_expr::specs::Reading::added))]
fn next_stmt(
    alloc: Global,
    cursor: &mut Cursor<'_>,
    levels: usize,
    list: Items<RStmt>,
) -> Result<Items<RStmt>, Memory>
    ensures { Gives (λ l. map stmt_view l) result cursor.new (added (reader.stmt_from (reader.read_stmts levels)) (map stmt_view list) cursor.old) }
{
    let one = stmt_from(alloc, cursor, levels)?;
    with_boxed(list, one)
}

// The statements up to a brace.
#[cycle(stmts)]
#[tactic(auto, using(rs_expr::proofs::Turns::many_out, rs_expr::proofs::Turns::many_stop, rs_expr::proofs::Turns::many_goes))]
fn stmts_from(alloc: Global, cursor: &mut Cursor<'_>, levels: usize) -> Result<Items<RStmt>, Memory>
    ensures { Gives (λ l. map stmt_view l) result cursor.new (reader.stmts_from (reader.read_stmts levels) cursor.old) }
{
    let mut list = Items::new(alloc);
    for _turn in 0..cursor.len() {
        if ends_block(cursor.peek()) {
            return Ok(list);
        }
        list = next_stmt(alloc, cursor, levels, list)?;
    }
    Ok(list)
}

/// Reads statements of blocks of at most so many levels, up to a brace. Refused only for want of memory.
#[cycle(stmts)]
#[tactic(auto, using(crate::proofs::Levels::stmts_some, crate::proofs::Levels::stmts_none))]
pub(crate) fn read_stmts(
    alloc: Global,
    cursor: &mut Cursor<'_>,
    levels: usize,
) -> Result<Items<RStmt>, Memory>
    ensures { Gives (λ l. map stmt_view l) result cursor.new (reader.read_stmts levels cursor.old) }
{
    if levels == 0 {
        return Ok(Items::new(alloc));
    }
    cursor.enter()?;
    let read = stmts_from(alloc, cursor, levels - 1)?;
    cursor.leave();
    Ok(read)
}

//! What follows in a body (ISO C99, 6.8), and the turns of loops (6.8.5).

ghost use Rattle.std.specs.Prelude.{◌≡◌, IfOk, map, option_map};
ghost use Rattle.cx_core.specs.Views.{stmts_of, view_expr, view_stmt};
ghost use Rattle.cx_mean.specs.Moves as meaning;
ghost use Rattle.cx_mean.specs.Moves.{stand};
ghost use Rattle.cx_mean.specs.Paths.{statements_left, firsts_left, with_level};
ghost use Rattle.cx_mean.specs.State.{value_at_end};
ghost use Rattle.cx_moves.specs.Moving.{ended_in, entered, for_turn_ended, for_turning, is_over, next_inside, next_inside_by, tested, turn_ended_of, turning_of};
ghost use Rattle.cx_moves.specs.Sites.{view_left, view_level, view_move, view_site, view_purpose};
ghost use Rattle.cx_moves.specs.Ways.{view_rest};

use crate::moves::{Left, Move, Purpose};
use crate::sites::{Level, Site, innermost, kill_objects, open};
use crate::ways::Rest;
use cr_base::{Boxed, Memory};
use cx_core::{CoreExpr, CoreStmt, StmtForm};
use mem_bytes::Store;

/// A full expression of an open statement is evaluated.
pub fn valued<'a>(
    value: &'a CoreExpr,
    purpose: Purpose<'a>,
    level: Level<'a>,
    outer: &mut Site<'a>,
) -> Result<Move<'a>, Memory>
    ensures { IfOk result (λ move. view_move outer.new move ≡ meaning.values (view_expr value.now) (view_purpose (with_level (view_level level.entry) (view_site outer.old)) purpose.entry)) }
{
    open(outer, level)?;
    Ok(Move::Values(value, purpose))
}

/// An open statement chooses by an expression.
pub fn tested<'a>(
    test: &'a CoreExpr,
    level: Level<'a>,
    outer: &mut Site<'a>,
) -> Result<Move<'a>, Memory>
    ensures { IfOk result (λ move. view_move outer.new move ≡ tested (view_expr test.now) (view_level level.entry) (view_site outer.old)) }
{
    valued(test, Purpose::Chooses(test.place), level, outer)
}

/// A statement inside an open one is reached, of which this is then left.
pub fn entered<'a>(
    body: &'a CoreStmt,
    rest: Rest<'a>,
    level: Level<'a>,
    outer: &mut Site<'a>,
) -> Result<Move<'a>, Memory>
    ensures { IfOk result (λ move. view_move outer.new move ≡ entered (view_stmt body.now) (view_rest rest.entry) (view_level level.entry) (view_site outer.old)) }
{
    let Level { stmt, slots, .. } = level;
    open(outer, Level { stmt, rest, slots })?;
    Ok(Move::Reaches(body))
}

/// The function returns without an expression.
pub fn leaves<'a>(left: Left, level: Level<'a>, outer: &mut Site<'a>) -> Result<Move<'a>, Memory>
    ensures { IfOk result (λ move. view_move outer.new move ≡ meaning.leaves (view_left left) (with_level (view_level level.entry) (view_site outer.old))) }
{
    open(outer, level)?;
    Ok(Move::Leaves(left))
}

fn for_turning<'a>(
    test: &'a Option<Boxed<CoreExpr>>,
    body: &'a CoreStmt,
    level: Level<'a>,
    outer: &mut Site<'a>,
) -> Result<Move<'a>, Memory>
    ensures { IfOk result (λ move. view_move outer.new move ≡ for_turning (option_map view_expr test.now) (view_stmt body.now) (view_level level.entry) (view_site outer.old)) }
{
    match test {
        Some(test) => tested(test.get(), level, outer),
        None => entered(body, Rest::Turn, level, outer),
    }
}

/// A loop goes on to its condition, or to its body where a `for` has none.
pub fn turning<'a>(level: Level<'a>, outer: &mut Site<'a>) -> Result<Move<'a>, Memory>
    ensures { IfOk result (λ move. view_move outer.new move ≡ turning_of (view_level level.entry) (view_site outer.old)) }
{
    let stmt = level.stmt;
    match &stmt.form {
        StmtForm::While(test, _) => tested(test.get(), level, outer),
        StmtForm::Do(_, test) => tested(test.get(), level, outer),
        StmtForm::For { test, body, .. } => for_turning(test, body.get(), level, outer),
        StmtForm::Label(_, _)
        | StmtForm::Case(_, _)
        | StmtForm::Default(_)
        | StmtForm::Block(_)
        | StmtForm::Expr(_)
        | StmtForm::If(_, _, _)
        | StmtForm::Switch(_, _)
        | StmtForm::Goto(_)
        | StmtForm::Continue
        | StmtForm::Break
        | StmtForm::Return(_)
        | StmtForm::Begin(_, _) => leaves(Left::Nothing, level, outer),
    }
}

fn for_turn_ended<'a>(
    next: &'a Option<Boxed<CoreExpr>>,
    level: Level<'a>,
    outer: &mut Site<'a>,
) -> Result<Move<'a>, Memory>
    ensures { IfOk result (λ move. view_move outer.new move ≡ for_turn_ended (option_map view_expr next.now) (view_level level.entry) (view_site outer.old)) }
{
    match next {
        Some(next) => valued(next.get(), Purpose::Turns, level, outer),
        None => turning(level, outer),
    }
}

/// A turn of a loop is at its end: the third expression of a `for`, then the condition.
pub fn turn_ended<'a>(level: Level<'a>, outer: &mut Site<'a>) -> Result<Move<'a>, Memory>
    ensures { IfOk result (λ move. view_move outer.new move ≡ turn_ended_of (view_level level.entry) (view_site outer.old)) }
{
    let stmt = level.stmt;
    match &stmt.form {
        StmtForm::For { next, .. } => for_turn_ended(next, level, outer),
        StmtForm::While(_, _)
        | StmtForm::Do(_, _)
        | StmtForm::Label(_, _)
        | StmtForm::Case(_, _)
        | StmtForm::Default(_)
        | StmtForm::Block(_)
        | StmtForm::Expr(_)
        | StmtForm::If(_, _, _)
        | StmtForm::Switch(_, _)
        | StmtForm::Goto(_)
        | StmtForm::Continue
        | StmtForm::Break
        | StmtForm::Return(_)
        | StmtForm::Begin(_, _) => turning(level, outer),
    }
}

fn is_over(rest: Rest<'_>) -> bool
    ensures { result ≡ is_over (view_rest rest.entry) }
{
    match rest {
        Rest::Nothing => true,
        Rest::Statements(list) => list.split_first().is_none(),
        Rest::Firsts(_) => false,
        Rest::Turn => false,
    }
}

fn next_statement<'a>(
    list: &'a [CoreStmt],
    level: Level<'a>,
    outer: &mut Site<'a>,
) -> Result<Move<'a>, Memory>
    ensures { IfOk result (λ move. view_move outer.new move ≡ next_inside_by (statements_left (stmts_of (map view_stmt list.now))) (view_level level.entry) (view_site outer.old)) }
{
    match list.split_first() {
        Some((first, others)) => entered(first, Rest::Statements(others), level, outer),
        None => Err(Memory),
    }
}

fn next_first<'a>(
    list: &'a [CoreStmt],
    level: Level<'a>,
    outer: &mut Site<'a>,
) -> Result<Move<'a>, Memory>
    ensures { IfOk result (λ move. view_move outer.new move ≡ next_inside_by (firsts_left (stmts_of (map view_stmt list.now))) (view_level level.entry) (view_site outer.old)) }
{
    match list.split_first() {
        Some((first, others)) => entered(first, Rest::Firsts(others), level, outer),
        None => turning(level, outer),
    }
}

// What is next in an open statement of which something is left.
fn next_inside<'a>(level: Level<'a>, outer: &mut Site<'a>) -> Result<Move<'a>, Memory>
    ensures { IfOk result (λ move. view_move outer.new move ≡ next_inside (view_level level.entry) (view_site outer.old)) }
{
    match level.rest {
        Rest::Nothing => Err(Memory),
        Rest::Statements(list) => next_statement(list, level, outer),
        Rest::Firsts(list) => next_first(list, level, outer),
        Rest::Turn => turn_ended(level, outer),
    }
}

fn left_at_end(is_main: bool) -> Left
    ensures { view_left result ≡ value_at_end is_main }
{
    if is_main { Left::Zero } else { Left::Nothing }
}

/// What follows in the innermost open statement, or around it where nothing is left of it; at the end of the body
/// the function returns.
///
/// # Errors
///
/// `Memory` for want of memory.
pub fn next_of<'a, S: Store>(site: &mut Site<'a>, store: &mut S) -> Result<Move<'a>, Memory>
    ensures next { IfOk result (λ move. stand (view_move site.new move) (S.memory store.new) ≡ meaning.next_of (view_site site.old) (S.memory store.old)) }
    ensures limit { S.limit store.new ≡ S.limit store.old }
{
    while let Some(level) = innermost(site) {
        if !is_over(level.rest) {
            return next_inside(level, site);
        }
        kill_objects(store, level.slots.as_slice());
    }
    Ok(Move::Leaves(left_at_end(site.is_main)))
}

/// The innermost open statement has nothing left.
///
/// # Errors
///
/// `Memory` for want of memory.
pub fn ended<'a, S: Store>(
    level: Level<'a>,
    outer: &mut Site<'a>,
    store: &mut S,
) -> Result<Move<'a>, Memory>
    ensures next { IfOk result (λ move. stand (view_move outer.new move) (S.memory store.new) ≡ ended_in (view_level level.entry) (view_site outer.old) (S.memory store.old)) }
    ensures limit { S.limit store.new ≡ S.limit store.old }
{
    kill_objects(store, level.slots.as_slice());
    next_of(outer, store)
}

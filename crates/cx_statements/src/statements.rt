//! Statements that are open do what they do (ISO C99, 6.8).

ghost use Rattle.std.specs.Prelude.{◌≡◌, IfOk, option_map};
ghost use Rattle.cx_access.specs.Views.{view_setting};
ghost use Rattle.cx_core.specs.Views.{view_expr, view_stmt};
ghost use Rattle.cx_mean.specs.Moves as meaning;
ghost use Rattle.cx_mean.specs.Moves.{stand};
ghost use Rattle.cx_mean.specs.Paths.{with_level, with_rest};
ghost use Rattle.cx_moves.specs.Moving.{breaks_at, continues_at, jumps_at};
ghost use Rattle.cx_moves.specs.Sites.{view_level, view_move, view_site};
ghost use Rattle.cx_moves.specs.Ways.{form_of, view_rest};
ghost use Rattle.cx_statements.specs.Doing.{does_as, evaluates_as, returns_as};

use crate::declarations::declared;
use cr_base::{Boxed, Memory, Name, Place};
use cx_access::Setting;
use cx_core::{CoreExpr, CoreStmt, StmtForm};
use cx_moves::{
    Left, Level, Move, Purpose, Rest, Site, breaking, continuing, entered, jumping, leaves,
    next_of, open, tested, turning, valued,
};
use mem_bytes::Store;
use std::alloc::Global;

// A statement inside an open one is reached.
fn reaches<'a>(
    body: &'a CoreStmt,
    level: Level<'a>,
    outer: &mut Site<'a>,
) -> Result<Move<'a>, Memory>
    ensures { IfOk result (λ move. view_move outer.new move ≡ meaning.reaches (view_stmt body.now) (with_level (view_level level.entry) (view_site outer.old))) }
{
    open(outer, level)?;
    Ok(Move::Reaches(body))
}

// An open statement of which this is left goes on.
fn goes_on_with<'a, S: Store>(
    rest: Rest<'a>,
    level: Level<'a>,
    outer: &mut Site<'a>,
    store: &mut S,
) -> Result<Move<'a>, Memory>
    ensures next { IfOk result (λ move. stand (view_move outer.new move) (S.memory store.new) ≡ meaning.next_of (with_level (with_rest (view_rest rest.entry) (view_level level.entry)) (view_site outer.old)) (S.memory store.old)) }
    ensures limit { S.limit store.new ≡ S.limit store.old }
{
    let Level { stmt, slots, .. } = level;
    open(outer, Level { stmt, rest, slots })?;
    next_of(outer, store)
}

// An expression statement (6.8.3).
fn evaluates<'a, S: Store>(
    value: &'a Option<Boxed<CoreExpr>>,
    level: Level<'a>,
    outer: &mut Site<'a>,
    store: &mut S,
) -> Result<Move<'a>, Memory>
    ensures next { IfOk result (λ move. stand (view_move outer.new move) (S.memory store.new) ≡ evaluates_as (option_map view_expr value.now) (view_level level.entry) (view_site outer.old) (S.memory store.old)) }
    ensures limit { S.limit store.new ≡ S.limit store.old }
{
    match value {
        Some(value) => valued(value.get(), Purpose::Drops, level, outer),
        None => {
            open(outer, level)?;
            next_of(outer, store)
        }
    }
}

// `return` (6.8.6.4).
fn returns<'a>(
    place: Place,
    value: &'a Option<Boxed<CoreExpr>>,
    level: Level<'a>,
    outer: &mut Site<'a>,
) -> Result<Move<'a>, Memory>
    ensures { IfOk result (λ move. view_move outer.new move ≡ returns_as place (option_map view_expr value.now) (view_level level.entry) (view_site outer.old)) }
{
    match value {
        Some(value) => valued(value.get(), Purpose::Gives(place), level, outer),
        None => leaves(Left::Nothing, level, outer),
    }
}

// `goto` (6.8.6.1).
fn jumps<'a, S: Store>(
    alloc: Global,
    place: Place,
    name: &Name,
    level: Level<'a>,
    outer: &mut Site<'a>,
    store: &mut S,
) -> Result<Move<'a>, Memory>
    ensures next { IfOk result (λ move. stand (view_move outer.new move) (S.memory store.new) ≡ jumps_at place name.now (with_level (view_level level.entry) (view_site outer.old)) (S.memory store.old)) }
    ensures limit { S.limit store.new ≡ S.limit store.old }
{
    open(outer, level)?;
    jumping(alloc, place, name, outer, store)
}

// `continue` (6.8.6.2).
fn continues<'a, S: Store>(
    place: Place,
    level: Level<'a>,
    outer: &mut Site<'a>,
    store: &mut S,
) -> Result<Move<'a>, Memory>
    ensures next { IfOk result (λ move. stand (view_move outer.new move) (S.memory store.new) ≡ continues_at place (with_level (view_level level.entry) (view_site outer.old)) (S.memory store.old)) }
    ensures limit { S.limit store.new ≡ S.limit store.old }
{
    open(outer, level)?;
    continuing(place, outer, store)
}

// `break` (6.8.6.3).
fn breaks<'a, S: Store>(
    place: Place,
    level: Level<'a>,
    outer: &mut Site<'a>,
    store: &mut S,
) -> Result<Move<'a>, Memory>
    ensures next { IfOk result (λ move. stand (view_move outer.new move) (S.memory store.new) ≡ breaks_at place (with_level (view_level level.entry) (view_site outer.old)) (S.memory store.old)) }
    ensures limit { S.limit store.new ≡ S.limit store.old }
{
    open(outer, level)?;
    breaking(place, outer, store)
}

/// A statement that is open does what it does.
///
/// # Errors
///
/// `Memory` for want of memory.
#[tactic(auto, using(crate::proofs::Does::declared_as))]
pub(crate) fn does<'a, S: Store>(
    alloc: Global,
    store: &mut S,
    setting: &Setting<'a>,
    site: &mut Site<'a>,
    place: Place,
    level: Level<'a>,
) -> Result<Move<'a>, Memory>
    ensures next { IfOk result (λ move. stand (view_move site.new move) (S.memory store.new)
        ≡ does_as (view_setting setting.now) place (form_of (view_stmt level.entry.stmt.now)) (view_level level.entry) (view_site site.old) (S.memory store.old)) }
    ensures limit { S.limit store.new ≡ S.limit store.old }
{
    let stmt = level.stmt;
    match &stmt.form {
        StmtForm::Label(_, body) => reaches(body.get(), level, site),
        StmtForm::Case(_, body) => reaches(body.get(), level, site),
        StmtForm::Default(body) => reaches(body.get(), level, site),
        StmtForm::Block(list) => {
            goes_on_with(Rest::Statements(list.as_slice()), level, site, store)
        }
        StmtForm::Expr(value) => evaluates(value, level, site, store),
        StmtForm::If(test, _, _) => tested(test.get(), level, site),
        StmtForm::Switch(value, _) => tested(value.get(), level, site),
        StmtForm::While(_, _) => turning(level, site),
        StmtForm::Do(body, _) => entered(body.get(), Rest::Turn, level, site),
        StmtForm::For { first, .. } => {
            goes_on_with(Rest::Firsts(first.as_slice()), level, site, store)
        }
        StmtForm::Goto(name) => jumps(alloc, place, name, level, site, store),
        StmtForm::Continue => continues(place, level, site, store),
        StmtForm::Break => breaks(place, level, site, store),
        StmtForm::Return(value) => returns(place, value, level, site),
        StmtForm::Begin(number, puts) => {
            declared(alloc, store, setting, site, level, *number, puts)
        }
    }
}

//! Choices of open statements (ISO C99, 6.8.4, 6.8.5).

ghost use Rattle.std.specs.Prelude.{◌≡◌, [], IfOk, option_map};
ghost use Rattle.std.specs.Option.{option_copied};
ghost use Rattle.cx_core.specs.Views.{otherwise_of, view_stmt};
ghost use Rattle.cx_mean.specs.Moves as meaning;
ghost use Rattle.cx_mean.specs.Moves.{stand};
ghost use Rattle.cx_moves.specs.Moving.{branched_in, chosen_as, else_in, switch_way, switches_in, switching_as, turned_in};
ghost use Rattle.cx_moves.specs.Sites.{view_level, view_move, view_site};
ghost use Rattle.cx_moves.specs.Ways.{IsWay, form_of};

use crate::jumps::{forget_way, jumped};
use crate::moves::Move;
use crate::sites::{Level, Site, innermost};
use crate::turns::{ended, entered, next_of, turning};
use crate::ways::{Inside, Opened, Rest, Target, way_to};
use cr_base::{Boxed, Int, Items, Memory};
use cx_core::{CoreStmt, StmtForm};
use mem_bytes::Store;
use std::alloc::Global;

/// Whether a statement chooses by the value of its expression, and not by whether it is true.
pub fn is_switch(stmt: &CoreStmt) -> bool
    ensures { result ≡ meaning.is_switch (form_of (view_stmt stmt.now)) }
{
    matches!(&stmt.form, StmtForm::Switch(_, _))
}

// A statement inside an open one is reached where a condition is true, and else that one has nothing left.
fn turned<'a, S: Store>(
    holds: bool,
    body: &'a CoreStmt,
    level: Level<'a>,
    outer: &mut Site<'a>,
    store: &mut S,
) -> Result<Move<'a>, Memory>
    ensures next { IfOk result (λ move. stand (view_move outer.new move) (S.memory store.new) ≡ turned_in holds (view_stmt body.now) (view_level level.entry) (view_site outer.old) (S.memory store.old)) }
    ensures limit { S.limit store.new ≡ S.limit store.old }
{
    if holds {
        return entered(body, Rest::Turn, level, outer);
    }
    ended(level, outer, store)
}

fn else_in<'a, S: Store>(
    otherwise: &'a Option<Boxed<CoreStmt>>,
    level: Level<'a>,
    outer: &mut Site<'a>,
    store: &mut S,
) -> Result<Move<'a>, Memory>
    ensures next { IfOk result (λ move. stand (view_move outer.new move) (S.memory store.new) ≡ else_in (otherwise_of (option_map view_stmt otherwise.now)) (view_level level.entry) (view_site outer.old) (S.memory store.old)) }
    ensures limit { S.limit store.new ≡ S.limit store.old }
{
    match otherwise {
        Some(body) => entered(body.get(), Rest::Nothing, level, outer),
        None => ended(level, outer, store),
    }
}

fn branched<'a, S: Store>(
    holds: bool,
    body: &'a CoreStmt,
    otherwise: &'a Option<Boxed<CoreStmt>>,
    level: Level<'a>,
    outer: &mut Site<'a>,
    store: &mut S,
) -> Result<Move<'a>, Memory>
    ensures next { IfOk result (λ move. stand (view_move outer.new move) (S.memory store.new) ≡ branched_in holds (view_stmt body.now) (otherwise_of (option_map view_stmt otherwise.now)) (view_level level.entry) (view_site outer.old) (S.memory store.old)) }
    ensures limit { S.limit store.new ≡ S.limit store.old }
{
    if holds {
        return entered(body, Rest::Nothing, level, outer);
    }
    else_in(otherwise, level, outer, store)
}

// An `if` or a loop goes on where its condition is true or not.
fn chosen<'a, S: Store>(
    holds: bool,
    level: Level<'a>,
    outer: &mut Site<'a>,
    store: &mut S,
) -> Result<Move<'a>, Memory>
    ensures next { IfOk result (λ move. stand (view_move outer.new move) (S.memory store.new) ≡ chosen_as (form_of (view_stmt level.entry.stmt.now)) holds (view_level level.entry) (view_site outer.old) (S.memory store.old)) }
    ensures limit { S.limit store.new ≡ S.limit store.old }
{
    let stmt = level.stmt;
    match &stmt.form {
        StmtForm::If(_, body, otherwise) => branched(
            holds,
            body.get(),
            otherwise,
            level,
            outer,
            store,
        ),
        StmtForm::While(_, body) => turned(holds, body.get(), level, outer, store),
        StmtForm::Do(body, _) => turned(holds, body.get(), level, outer, store),
        StmtForm::For { body, .. } => turned(holds, body.get(), level, outer, store),
        StmtForm::Label(_, _)
        | StmtForm::Case(_, _)
        | StmtForm::Default(_)
        | StmtForm::Block(_)
        | StmtForm::Expr(_)
        | StmtForm::Switch(_, _)
        | StmtForm::Goto(_)
        | StmtForm::Continue
        | StmtForm::Break
        | StmtForm::Return(_)
        | StmtForm::Begin(_, _) => ended(level, outer, store),
    }
}

/// An `if` or a loop goes on where its condition is true or not.
///
/// # Errors
///
/// `Memory` for want of memory.
pub fn choosing<'a, S: Store>(
    holds: bool,
    level: Level<'a>,
    outer: &mut Site<'a>,
    store: &mut S,
) -> Result<Move<'a>, Memory>
    ensures next { IfOk result (λ move. stand (view_move outer.new move) (S.memory store.new)
        ≡ meaning.choosing (form_of (view_stmt level.entry.stmt.now)) holds (view_level level.entry) (view_site outer.old).levels (view_site outer.old).bottom (S.memory store.old)) }
    ensures limit { S.limit store.new ≡ S.limit store.old }
{
    chosen(holds, level, outer, store)
}

// The way that a `switch` takes: to the `case` of the value, or else to `default` (6.8.4.2p5).
fn way_of_switch<'a>(
    value: &Int,
    body: &'a CoreStmt,
    way: &mut Items<Opened<'a>>,
) -> Result<Option<&'a CoreStmt>, Memory>
    requires { way.old ≡ [] }
    ensures { IfOk result (λ found. IsWay (option_copied found) way.new (switch_way value.now (view_stmt body.now))) }
{
    match way_to(body, Target::Case(value), way) {
        Ok(Some(found)) => Ok(Some(found)),
        Ok(None) => way_to(body, Target::Default, way),
        Err(memory) => Err(memory),
    }
}

// A `switch` goes on by its value.
fn switched<'a, S: Store>(
    alloc: Global,
    value: &Int,
    body: &'a CoreStmt,
    level: Level<'a>,
    outer: &mut Site<'a>,
    store: &mut S,
) -> Result<Move<'a>, Memory>
    ensures next { IfOk result (λ move. stand (view_move outer.new move) (S.memory store.new) ≡ switches_in value.now (view_stmt body.now) (view_level level.entry) (view_site outer.old) (S.memory store.old)) }
    ensures limit { S.limit store.new ≡ S.limit store.old }
{
    forget_way(outer);
    match way_of_switch(value, body, &mut outer.way)? {
        Some(target) => jumped(
            alloc,
            Inside {
                target,
                rest: Rest::Nothing,
            },
            level,
            outer,
        ),
        None => ended(level, outer, store),
    }
}

// A `switch` goes on by its value.
fn switched_by<'a, S: Store>(
    alloc: Global,
    value: &Int,
    level: Level<'a>,
    outer: &mut Site<'a>,
    store: &mut S,
) -> Result<Move<'a>, Memory>
    ensures next { IfOk result (λ move. stand (view_move outer.new move) (S.memory store.new) ≡ switching_as (form_of (view_stmt level.entry.stmt.now)) value.now (view_level level.entry) (view_site outer.old) (S.memory store.old)) }
    ensures limit { S.limit store.new ≡ S.limit store.old }
{
    let stmt = level.stmt;
    match &stmt.form {
        StmtForm::Switch(_, body) => switched(alloc, value, body.get(), level, outer, store),
        StmtForm::If(_, _, _)
        | StmtForm::While(_, _)
        | StmtForm::Do(_, _)
        | StmtForm::For { .. }
        | StmtForm::Label(_, _)
        | StmtForm::Case(_, _)
        | StmtForm::Default(_)
        | StmtForm::Block(_)
        | StmtForm::Expr(_)
        | StmtForm::Goto(_)
        | StmtForm::Continue
        | StmtForm::Break
        | StmtForm::Return(_)
        | StmtForm::Begin(_, _) => ended(level, outer, store),
    }
}

/// A `switch` goes on by its value; of another statement nothing is left.
///
/// # Errors
///
/// `Memory` for want of memory.
pub fn switching<'a, S: Store>(
    alloc: Global,
    value: &Int,
    level: Level<'a>,
    outer: &mut Site<'a>,
    store: &mut S,
) -> Result<Move<'a>, Memory>
    ensures next { IfOk result (λ move. stand (view_move outer.new move) (S.memory store.new)
        ≡ meaning.switching (form_of (view_stmt level.entry.stmt.now)) value.now (view_level level.entry) (view_site outer.old).levels (view_site outer.old).bottom (S.memory store.old)) }
    ensures limit { S.limit store.new ≡ S.limit store.old }
{
    switched_by(alloc, value, level, outer, store)
}

/// The loop of the innermost open statement goes on to its condition.
///
/// # Errors
///
/// `Memory` for want of memory.
pub fn turning_on<'a, S: Store>(site: &mut Site<'a>, store: &mut S) -> Result<Move<'a>, Memory>
    ensures next { IfOk result (λ move. stand (view_move site.new move) (S.memory store.new) ≡ meaning.turning_on (view_site site.old) (S.memory store.old)) }
    ensures limit { S.limit store.new ≡ S.limit store.old }
{
    match innermost(site) {
        Some(level) => turning(level, site),
        None => next_of(site, store),
    }
}

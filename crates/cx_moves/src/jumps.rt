//! Jumps (ISO C99, 6.8.6).

ghost use Rattle.std.specs.Prelude.{◌≡◌, [], IfOk, option_map};
ghost use Rattle.cx_core.specs.Views.{view_stmt};
ghost use Rattle.cx_mean.specs.Moves as meaning;
ghost use Rattle.cx_mean.specs.Moves.{stand};
ghost use Rattle.cx_mean.specs.Paths.{with_level, with_rest};
ghost use Rattle.cx_moves.specs.Moving.{Opens, breaks_at, continues_at, ends_by_break, has_turns, jumps_at};
ghost use Rattle.cx_moves.specs.Sites.{view_level, view_move, view_site};
ghost use Rattle.cx_moves.specs.Ways.{form_of, opening, view_rest, view_way};

use crate::moves::{Goal, Move};
use crate::sites::{Level, Site, innermost, kill_objects, open};
use crate::turns::{ended, turn_ended};
use crate::ways::{Inside, Opened, Target, way_in};
use cr_base::{Memory, Name, Place};
use cx_core::{CoreStmt, StmtForm};
use mem_bytes::Store;
use std::alloc::Global;

fn has_turns(stmt: &CoreStmt) -> bool
    ensures { result ≡ has_turns (form_of (view_stmt stmt.now)) }
{
    match &stmt.form {
        StmtForm::While(_, _) => true,
        StmtForm::Do(_, _) => true,
        StmtForm::For { .. } => true,
        _ => false,
    }
}

fn ends_by_break(stmt: &CoreStmt) -> bool
    ensures { result ≡ ends_by_break (form_of (view_stmt stmt.now)) }
{
    match &stmt.form {
        StmtForm::Switch(_, _) => true,
        StmtForm::While(_, _) => true,
        StmtForm::Do(_, _) => true,
        StmtForm::For { .. } => true,
        _ => false,
    }
}

/// `break`: the innermost loop or `switch` has nothing left.
///
/// # Errors
///
/// `Memory` for want of memory.
pub fn breaking<'a, S: Store>(
    place: Place,
    site: &mut Site<'a>,
    store: &mut S,
) -> Result<Move<'a>, Memory>
    ensures next { IfOk result (λ move. stand (view_move site.new move) (S.memory store.new) ≡ breaks_at place (view_site site.old) (S.memory store.old)) }
    ensures limit { S.limit store.new ≡ S.limit store.old }
{
    while let Some(level) = innermost(site) {
        if ends_by_break(level.stmt) {
            return ended(level, site, store);
        }
        kill_objects(store, level.slots.as_slice());
    }
    Ok(Move::Nowhere(place))
}

/// `continue`: the turn of the innermost loop is at its end.
///
/// # Errors
///
/// `Memory` for want of memory.
pub fn continuing<'a, S: Store>(
    place: Place,
    site: &mut Site<'a>,
    store: &mut S,
) -> Result<Move<'a>, Memory>
    ensures next { IfOk result (λ move. stand (view_move site.new move) (S.memory store.new) ≡ continues_at place (view_site site.old) (S.memory store.old)) }
    ensures limit { S.limit store.new ≡ S.limit store.old }
{
    while let Some(level) = innermost(site) {
        if has_turns(level.stmt) {
            return turn_ended(level, site);
        }
        kill_objects(store, level.slots.as_slice());
    }
    Ok(Move::Nowhere(place))
}

// A statement on a way is opened; its first object begins, if it has one.
fn opening<'a>(
    alloc: Global,
    one: Opened<'a>,
    target: &'a CoreStmt,
    site: &mut Site<'a>,
) -> Result<Option<Move<'a>>, Memory>
    ensures way { site.new.way ≡ site.old.way }
    ensures opens { IfOk result (λ begins. Opens (option_map (view_move site.new) begins) (meaning.following (view_way target.now site.new.way) (view_site site.new)) (meaning.following (opening one.entry (view_way target.now site.old.way)) (view_site site.old))) }
{
    open(site, Level::new(alloc, one.stmt, one.rest))?;
    let Some((first, others)) = one.stmt.objects.as_slice().split_first() else {
        return Ok(None);
    };
    Ok(Some(Move::Begins {
        object: *first,
        others,
        goal: Goal::Follows(target),
    }))
}

/// A way is followed to a statement: those on it are opened, and their objects begin.
///
/// # Errors
///
/// `Memory` for want of memory.
pub fn following<'a>(
    alloc: Global,
    target: &'a CoreStmt,
    site: &mut Site<'a>,
) -> Result<Move<'a>, Memory>
    ensures { IfOk result (λ move. view_move site.new move ≡ meaning.following (view_way target.now site.old.way) (view_site site.old)) }
{
    while let Some(one) = site.way.pop() {
        match opening(alloc, one, target, site)? {
            Some(begins) => return Ok(begins),
            None => {}
        }
    }
    Ok(Move::Reaches(target))
}

// No way is followed any more.
pub(crate) fn forget_way(site: &mut Site<'_>)
    ensures way { site.new.way ≡ [] }
    ensures site { view_site site.new ≡ view_site site.old }
{
    while let Some(_one) = site.way.pop() {}
}

/// `goto`: the innermost open statement that holds the label stays open, and those inside of it are left.
///
/// # Errors
///
/// `Memory` for want of memory.
pub fn jumping<'a, S: Store>(
    alloc: Global,
    place: Place,
    name: &Name,
    site: &mut Site<'a>,
    store: &mut S,
) -> Result<Move<'a>, Memory>
    ensures next { IfOk result (λ move. stand (view_move site.new move) (S.memory store.new) ≡ jumps_at place name.now (view_site site.old) (S.memory store.old)) }
    ensures limit { S.limit store.new ≡ S.limit store.old }
{
    forget_way(site);
    while let Some(level) = innermost(site) {
        if let Some(inside) = way_in(level.stmt, Target::Label(name), &mut site.way)? {
            return jumped(alloc, inside, level, site);
        }
        kill_objects(store, level.slots.as_slice());
    }
    Ok(Move::Nowhere(place))
}

// A jump goes on inside an open statement.
pub(crate) fn jumped<'a>(
    alloc: Global,
    inside: Inside<'a>,
    level: Level<'a>,
    site: &mut Site<'a>,
) -> Result<Move<'a>, Memory>
    ensures { IfOk result (λ move. view_move site.new move ≡ meaning.following (view_way inside.entry.target.now site.old.way) (with_level (with_rest (view_rest inside.entry.rest) (view_level level.entry)) (view_site site.old))) }
{
    let Level { stmt, slots, .. } = level;
    let rest = inside.rest;
    open(site, Level { stmt, rest, slots })?;
    following(alloc, inside.target, site)
}

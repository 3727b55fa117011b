//! Statements that are reached, and the lives of their objects (ISO C99, 6.2.4p5 and 6.8p2).

ghost use Rattle.std.specs.Prelude.{◌≡◌, IfOk};
ghost use Rattle.cx_access.specs.Views.{view_setting};
ghost use Rattle.cx_core.specs.Views.{view_stmt};
ghost use Rattle.cx_mean.specs.Moves as meaning;
ghost use Rattle.cx_mean.specs.Moves.{stand};
ghost use Rattle.cx_moves.specs.Sites.{view_goal, view_level, view_move, view_site};

use crate::statements::does;
use cr_base::Memory;
use cx_access::Setting;
use cx_core::CoreStmt;
use cx_moves::{Goal, Level, Move, Rest, Site, following, open};
use mem_bytes::Store;
use std::alloc::Global;

// The objects of a statement have begun: it does what it does, or a jump goes on inside.
#[tactic(auto, using(crate::proofs::Does::does_is))]
fn opened_to<'a, S: Store>(
    alloc: Global,
    store: &mut S,
    setting: &Setting<'a>,
    site: &mut Site<'a>,
    level: Level<'a>,
    goal: Goal<'a>,
) -> Result<Move<'a>, Memory>
    ensures next { IfOk result (λ move. stand (view_move site.new move) (S.memory store.new)
        ≡ meaning.opened_to (view_setting setting.now) (view_goal site.old.way goal.entry) (view_level level.entry) (view_site site.old) (S.memory store.old)) }
    ensures limit { S.limit store.new ≡ S.limit store.old }
{
    match goal {
        Goal::Does(place) => does(alloc, store, setting, site, place, level),
        Goal::Follows(target) => {
            open(site, level)?;
            following(alloc, target, site)
        }
    }
}

/// The next object of a statement begins, or, where all have begun, the statement does what it does, or a jump goes on inside.
///
/// # Errors
///
/// `Memory` for want of memory.
pub fn beginning<'a, S: Store>(
    alloc: Global,
    store: &mut S,
    setting: &Setting<'a>,
    site: &mut Site<'a>,
    level: Level<'a>,
    objects: &'a [u32],
    goal: Goal<'a>,
) -> Result<Move<'a>, Memory>
    ensures next { IfOk result (λ move. stand (view_move site.new move) (S.memory store.new)
        ≡ meaning.beginning (view_setting setting.now) objects.now (view_goal site.old.way goal.entry) (view_level level.entry) (view_site site.old) (S.memory store.old)) }
    ensures limit { S.limit store.new ≡ S.limit store.old }
{
    let Some((first, others)) = objects.split_first() else {
        return opened_to(alloc, store, setting, site, level, goal);
    };
    open(site, level)?;
    Ok(Move::Begins {
        object: *first,
        others,
        goal,
    })
}

/// The step in which a statement is reached.
///
/// # Errors
///
/// `Memory` for want of memory.
pub fn reached<'a, S: Store>(
    alloc: Global,
    store: &mut S,
    setting: &Setting<'a>,
    site: &mut Site<'a>,
    stmt: &'a CoreStmt,
) -> Result<Move<'a>, Memory>
    ensures next { IfOk result (λ move. stand (view_move site.new move) (S.memory store.new)
        ≡ meaning.reached (view_setting setting.now) (view_stmt stmt.now) (view_site site.old) (S.memory store.old)) }
    ensures limit { S.limit store.new ≡ S.limit store.old }
{
    let level = Level::new(alloc, stmt, Rest::Nothing);
    beginning(
        alloc,
        store,
        setting,
        site,
        level,
        stmt.objects.as_slice(),
        Goal::Does(stmt.place),
    )
}

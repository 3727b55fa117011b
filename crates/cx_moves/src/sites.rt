//! The open statements of a function that runs (ISO C99, 6.8), and the lives of its objects (6.2.4).

ghost use Rattle.std.specs.Prelude.{◌≡◌, [], ◌∷◌, MatchOption, OnOk};
ghost use Rattle.cx_mean.specs.Moves.{without_objects};
ghost use Rattle.cx_mean.specs.Paths.{with_level};
ghost use Rattle.cr_world.specs.Held.{without_block};
ghost use Rattle.cx_moves.specs.Sites.{view_level, view_site};

use crate::ways::{Opened, Rest};
use cr_base::{Items, Memory};
use cx_core::CoreStmt;
use cx_work::Slot;
use mem_bytes::Store;
use std::alloc::Global;

/// An open statement.
#[derive(Drop)]
pub struct Level<'a> {
    pub stmt: &'a CoreStmt,
    /// What is left of it.
    pub rest: Rest<'a>,
    /// Its objects that have begun, each with the block in which it lives.
    pub slots: Items<Slot>,
}

/// Where a run stands in a function.
#[derive(Drop)]
pub struct Site<'a> {
    /// The open statements, the outermost first.
    pub levels: Items<Level<'a>>,
    /// What a jump still opens, the innermost first.
    pub way: Items<Opened<'a>>,
    /// The objects of the parameters.
    pub params: Items<Slot>,
    /// Whether the function is `main`, whose end gives 0 (5.1.2.2.3).
    pub is_main: bool,
}

impl<'a> Level<'a> {
    /// A statement of which nothing has begun.
    pub fn new(alloc: Global, stmt: &'a CoreStmt, rest: Rest<'a>) -> Level<'a>
        ensures { result ≡ record { stmt = stmt.entry; rest = rest.entry; slots = [] } }
    {
        Level {
            stmt,
            rest,
            slots: Items::new(alloc),
        }
    }
}

/// A statement is opened inside those that are open.
pub fn open<'a>(outer: &mut Site<'a>, level: Level<'a>) -> Result<(), Memory>
    ensures site { OnOk result (view_site outer.new ≡ with_level (view_level level.entry) (view_site outer.old)) }
    ensures way { outer.new.way ≡ outer.old.way }
{
    outer.levels.push(level)
}

/// The innermost open statement.
pub fn innermost<'a>(site: &mut Site<'a>) -> Option<Level<'a>>
    ensures site { MatchOption result (((view_site site.old).levels ≡ []) × (view_site site.new ≡ view_site site.old))
        (λ level. view_site site.old ≡ with_level (view_level level) (view_site site.new)) }
    ensures way { site.new.way ≡ site.old.way }
{
    site.levels.pop()
}

/// A block dies, unless it is dead.
#[tactic(auto, using(crate::proofs::Lives::killed))]
pub fn kill<S: Store>(store: &mut S, block: u64)
    ensures blocks { S.memory store.new ≡ without_block block (S.memory store.old) }
    ensures limit { S.limit store.new ≡ S.limit store.old }
{
    let _dead = store.kill(block);
}

/// Objects die.
pub fn kill_objects<S: Store>(store: &mut S, slots: &[Slot])
    ensures blocks { S.memory store.new ≡ without_objects slots.now (S.memory store.old) }
    ensures limit { S.limit store.new ≡ S.limit store.old }
{
    for slot in slots {
        kill(store, slot.block);
    }
}

//! Scopes of blocks (ISO C99, 6.2.1p4).

ghost use Rattle.std.specs.Prelude.{◌≡◌, [], length};
ghost use Rattle.cx_context.specs.Views.{scope_of};
ghost use Rattle.cx_core.specs.Views.{view_stmt};
ghost use Rattle.cx_rules.specs.Scope.{entered, left};
ghost use Rattle.cx_stmt_steps.specs.Views.{view_stated};

use crate::stated::Stated;
use cr_base::{Boxed, Items};
use cx_context::Context;
use cx_core::CoreStmt;

/// What stood where the scope of a block began (ISO C99, 6.2.1p4).
#[derive(Clone, Copy)]
pub struct Marks {
    /// How many declarations there were.
    pub count: u64,
    /// Where the scope around it began.
    pub begins: u64,
}

/// The scope of a block begins.
pub fn scope_begins(context: &mut Context) -> Marks
    ensures scope { scope_of context.new ≡ entered (scope_of context.old) }
    ensures count { result.count ≡ length (scope_of context.old).declared }
    ensures begins { result.begins ≡ (scope_of context.old).begins }
{
    let (count, begins) = context.enter();
    Marks { count, begins }
}

/// The scope of a block ends.
pub fn scope_ends(context: &mut Context, marks: Marks)
    ensures { scope_of context.new ≡ left marks.count marks.begins (scope_of context.old) }
{
    context.leave(marks.count, marks.begins);
}

// A block, or a selection or iteration statement, has ended, whose objects are its own.
pub(crate) fn whole_ended(context: &mut Context, marks: Marks, stmt: Boxed<CoreStmt>) -> Stated
    ensures scope { scope_of context.new ≡ left marks.count marks.begins (scope_of context.old) }
    ensures value { view_stated result ≡ record { stmt = view_stmt stmt; objects = [] } }
{
    scope_ends(context, marks);
    Stated {
        stmt,
        objects: Items::new(context.alloc()),
    }
}

//! Expressions (ISO C99, 6.5).

ghost use Rattle.std.specs.Prelude.{◌≡◌, ◌≤◌, ◌<◌, ◌^◌, suc, IfOk};
ghost use Rattle.cx_cursor.specs.Reading.{Answers};
ghost use Rattle.cx_expr.specs.Asked.{IsBelow};
ghost use Rattle.cx_expr.specs.Exprs as reader;
ghost use Rattle.cx_expr.specs.Knot.{readers};
ghost use Rattle.cx_tree.specs.Depth.{expr_depth};
ghost use Rattle.cx_tree.specs.Views.{expr_view};

use crate::climbing::climb;
use crate::nodes::ReadExpr;
use crate::primaries::start;
use crate::wanted::{Found, Wanted};
use cx_cursor::{Cursor, Fault};
use std::alloc::Global;

/// Reads an expression of the level `least` or above, whose parts are at most `depth` nodes deep.
#[tactic(auto, unfolding(crate::specs::Exprs::expr_from, cx_cursor::specs::Reading::bind))]
pub fn expr_from<F: Fn(&mut Cursor<'_>, u32, Wanted) -> Result<Found, Fault>>(
    alloc: Global,
    cursor: &mut Cursor<'_>,
    depth: u32,
    below: &F,
    least: u32,
) -> Result<ReadExpr, Fault>
    requires parts { IsBelow (F.pre below.now) (F.post below.now) depth }
    requires depth { depth < 2 ^ 31 }
    ensures reads { Answers (λ r. expr_view r.tree) result cursor.new (reader.expr_from (readers depth) depth least cursor.old) }
    ensures depth { IfOk result (λ r. r.depth ≡ expr_depth (expr_view r.tree)) }
    ensures within { IfOk result (λ r. r.depth ≤ suc depth) }
{
    let left = start(alloc, cursor, depth, below, least)?;
    climb(alloc, cursor, depth, below, least, left)
}

//! Left operands with what stands behind them (ISO C99, 6.5).

ghost use Rattle.std.specs.Prelude.{◌≡◌, ◌≤◌, ◌<◌, ◌^◌, suc, IfOk};
ghost use Rattle.cx_cursor.specs.Reading.{Answers};
ghost use Rattle.cx_expr.specs.Exprs as reader;
ghost use Rattle.cx_expr.specs.Asked.{IsBelow};
ghost use Rattle.cx_expr.specs.Knot.{readers};
ghost use Rattle.cx_words.specs.Continuations as continuations;
ghost use Rattle.cx_tree.specs.Depth.{expr_depth};
ghost use Rattle.cx_tree.specs.Views.{expr_view};

use crate::nodes::{ReadExpr, expr_of};
use crate::tails::{join, read_tail};
use crate::wanted::{Found, Wanted};
use cx_cursor::{Cursor, Fault};
use cx_tree::level;
use cx_words::{Continuation, continuation_of, goes_on};
use std::alloc::Global;

// What stands ahead continues the left operand.
#[tactic(auto, using(crate::proofs::Turns::join_depth), unfolding(crate::specs::Exprs::operation, cx_cursor::specs::Reading::bind))]
fn operation<F: Fn(&mut Cursor<'_>, u32, Wanted) -> Result<Found, Fault>>(
    alloc: Global,
    cursor: &mut Cursor<'_>,
    depth: u32,
    below: &F,
    continuation: Continuation,
    left: ReadExpr,
) -> Result<ReadExpr, Fault>
    requires parts { IsBelow (F.pre below.now) (F.post below.now) depth }
    requires depth { depth < 2 ^ 31 }
    requires level { continuations.strength continuation < 2 ^ 31 }
    requires measured { left.depth ≡ expr_depth (expr_view left.tree) }
    ensures reads { Answers (λ r. expr_view r.tree) result cursor.new (reader.operation (readers depth) depth continuation (expr_view left.tree) cursor.old) }
    ensures depth { IfOk result (λ r. r.depth ≡ expr_depth (expr_view r.tree)) }
    ensures within { IfOk result (λ r. r.depth ≤ suc depth) }
{
    if depth < left.depth {
        return Err(cursor.no_tree());
    }
    let tail = read_tail(alloc, cursor, depth, below, continuation)?;
    let depth = left.depth.max(tail.depth) + 1;
    let node = join(left.tree, tail.tree.into_inner());
    Ok(expr_of(alloc, node, depth)?)
}

/// What continues an operand, as long as the level `least` allows.
#[tactic(auto, using(crate::proofs::Turns::climb_out, crate::proofs::Turns::climb_stop, crate::proofs::Turns::climb_goes), unfolding(cx_cursor::specs::Reading::bind))]
pub fn climb<F: Fn(&mut Cursor<'_>, u32, Wanted) -> Result<Found, Fault>>(
    alloc: Global,
    cursor: &mut Cursor<'_>,
    depth: u32,
    below: &F,
    least: u32,
    left: ReadExpr,
) -> Result<ReadExpr, Fault>
    requires parts { IsBelow (F.pre below.now) (F.post below.now) depth }
    requires depth { depth < 2 ^ 31 }
    requires measured { left.depth ≡ expr_depth (expr_view left.tree) }
    requires within { left.depth ≤ suc depth }
    ensures reads { Answers (λ r. expr_view r.tree) result cursor.new (reader.climb (readers depth) depth least (suc depth) (expr_view left.tree) cursor.old) }
    ensures depth { IfOk result (λ r. r.depth ≡ expr_depth (expr_view r.tree)) }
    ensures within { IfOk result (λ r. r.depth ≤ suc depth) }
{
    let mut left = left;
    for _turn in 0..depth + 1 {
        let continuation = continuation_of(cursor.peek());
        if !goes_on(least, continuation, level(left.tree.get())) {
            return Ok(left);
        }
        left = operation(alloc, cursor, depth, below, continuation, left)?;
    }
    Err(cursor.no_tree())
}

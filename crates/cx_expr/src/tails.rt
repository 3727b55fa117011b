//! What stands behind a left operand (ISO C99, 6.5.2 and 6.5.5 to 6.5.17).

ghost use Rattle.std.specs.Prelude.{◌≡◌, ◌≤◌, ◌<◌, ◌^◌, suc, map, max, IfOk};
ghost use Rattle.cx_cursor.specs.Reading.{Answers};
ghost use Rattle.cx_expr.specs.Exprs as reader;
ghost use Rattle.cx_expr.specs.Asked.{IsBelow};
ghost use Rattle.cx_expr.specs.Knot.{readers};
ghost use Rattle.cx_expr.specs.Tails.{join, tail_view, tail_depth};
ghost use Rattle.cx_cursor.specs.Lists as lists;
ghost use Rattle.cx_cursor.specs.Lists.{list_read};
ghost use Rattle.cx_words.specs.Continuations as continuations;
ghost use Rattle.cx_tree.specs.Depth.{exprs_depth};
ghost use Rattle.cx_tree.specs.Views.{expr_view, exprs};

use crate::below::expr;
use crate::wanted::{Found, Wanted};
use cr_base::{Boxed, Items, Memory, Name};
use cx_cursor::{Cursor, Fault, Listed, Measured, one_line, same_mark, two_lines};
use cx_lex::Punct;
use cx_tree::Expr;
use cx_words::Continuation;
use cx_words::level::{ASSIGNMENT, CONDITIONAL, EXPRESSION};
use std::alloc::Global;

/// What stands behind a left operand, without it.
#[derive(Drop)]
pub enum Tail {
    Index {
        index: Boxed<Expr>,
        lines: Items<u32>,
    },
    Call {
        args: Items<Expr>,
        lines: Items<u32>,
    },
    Dot {
        member: Name,
        lines: Items<u32>,
    },
    Arrow {
        member: Name,
        lines: Items<u32>,
    },
    Up {
        lines: Items<u32>,
    },
    Down {
        lines: Items<u32>,
    },
    Binary {
        op: Punct,
        right: Boxed<Expr>,
        lines: Items<u32>,
    },
    Cond {
        if_true: Boxed<Expr>,
        if_false: Boxed<Expr>,
        lines: Items<u32>,
    },
    Assign {
        op: Punct,
        right: Boxed<Expr>,
        lines: Items<u32>,
    },
    Comma {
        right: Boxed<Expr>,
        lines: Items<u32>,
    },
}

/// A tail that was read, and the depth of its deepest part.
pub type ReadTail = Measured<Boxed<Tail>>;

/// The left operand with what stands behind it.
pub fn join(left: Boxed<Expr>, tail: Tail) -> Expr
    ensures { expr_view result ≡ join (expr_view left) (tail_view tail) }
{
    match tail {
        Tail::Index { index, lines } => Expr::Index {
            of: left,
            index,
            lines,
        },
        Tail::Call { args, lines } => Expr::Call {
            of: left,
            args,
            lines,
        },
        Tail::Dot { member, lines } => Expr::Dot {
            of: left,
            member,
            lines,
        },
        Tail::Arrow { member, lines } => Expr::Arrow {
            of: left,
            member,
            lines,
        },
        Tail::Up { lines } => Expr::PostUp { of: left, lines },
        Tail::Down { lines } => Expr::PostDown { of: left, lines },
        Tail::Binary { op, right, lines } => Expr::Binary {
            left,
            op,
            right,
            lines,
        },
        Tail::Cond {
            if_true,
            if_false,
            lines,
        } => Expr::Cond {
            condition: left,
            if_true,
            if_false,
            lines,
        },
        Tail::Assign { op, right, lines } => Expr::Assign {
            left,
            op,
            right,
            lines,
        },
        Tail::Comma { right, lines } => Expr::Comma { left, right, lines },
    }
}

fn tail_of(alloc: Global, tail: Tail, depth: u32) -> Result<ReadTail, Memory>
    ensures tree { IfOk result (λ r. tail_view r.tree ≡ tail_view tail) }
    ensures deep { IfOk result (λ r. r.depth ≡ depth) }
{
    let tree = Boxed::new(alloc, tail)?;
    Ok(Measured { tree, depth })
}

// An index in brackets (6.5.2.1).
#[tactic(auto, unfolding(crate::specs::Exprs::indexes, cx_cursor::specs::Reading::bind))]
fn indexes<F: Fn(&mut Cursor<'_>, u32, Wanted) -> Result<Found, Fault>>(
    alloc: Global,
    cursor: &mut Cursor<'_>,
    depth: u32,
    below: &F,
) -> Result<ReadTail, Fault>
    requires parts { IsBelow (F.pre below.now) (F.post below.now) depth }
    requires depth { depth < 2 ^ 31 }
    ensures reads { Answers (λ r. tail_view r.tree) result cursor.new (reader.indexes (readers depth) cursor.old) }
    ensures depth { IfOk result (λ r. r.depth ≡ tail_depth (tail_view r.tree)) }
    ensures within { IfOk result (λ r. r.depth ≤ depth) }
{
    let first = cursor.mark(Punct::LeftBracket)?;
    let index = expr(cursor, depth, below, EXPRESSION)?;
    let last = cursor.mark(Punct::RightBracket)?;
    let lines = two_lines(alloc, first, last)?;
    let depth = index.depth;
    let index = index.tree;
    Ok(tail_of(alloc, Tail::Index { index, lines }, depth)?)
}

// A comma and the argument behind it.
#[tactic(auto, unfolding(cx_cursor::specs::Lists::taking, cx_cursor::specs::Lists::comma_item, cx_cursor::specs::Reading::bind))]
fn next_arg<F: Fn(&mut Cursor<'_>, u32, Wanted) -> Result<Found, Fault>>(
    alloc: Global,
    cursor: &mut Cursor<'_>,
    depth: u32,
    below: &F,
    args: Listed<Expr>,
) -> Result<Listed<Expr>, Fault>
    requires parts { IsBelow (F.pre below.now) (F.post below.now) depth }
    requires depth { depth < 2 ^ 31 }
    requires within { args.depth ≤ depth }
    requires measured { args.depth ≡ exprs_depth (exprs (map expr_view args.list)) }
    ensures reads { Answers (λ l. list_read (map expr_view l.list) l.lines) result cursor.new
        (lists.next_item ((readers depth).expr 2) (list_read (map expr_view args.list) args.lines) cursor.old) }
    ensures depth { IfOk result (λ l. l.depth ≡ exprs_depth (exprs (map expr_view l.list))) }
    ensures within { IfOk result (λ l. l.depth ≤ depth) }
{
    let mut args = args;
    args.push_line(cursor.mark(Punct::Comma)?)?;
    let one = expr(cursor, depth, below, ASSIGNMENT)?;
    args.push(one)?;
    Ok(args)
}

// The arguments behind the first, each behind a comma.
#[tactic(auto, using(cx_cursor::proofs::Turns::many_out, cx_cursor::proofs::Turns::many_stop, cx_cursor::proofs::Turns::many_goes), unfolding(cx_cursor::specs::Lists::many_ahead, cx_cursor::specs::Reading::bind))]
fn args_behind<F: Fn(&mut Cursor<'_>, u32, Wanted) -> Result<Found, Fault>>(
    alloc: Global,
    cursor: &mut Cursor<'_>,
    depth: u32,
    below: &F,
    args: Listed<Expr>,
) -> Result<Listed<Expr>, Fault>
    requires parts { IsBelow (F.pre below.now) (F.post below.now) depth }
    requires depth { depth < 2 ^ 31 }
    requires within { args.depth ≤ depth }
    requires measured { args.depth ≡ exprs_depth (exprs (map expr_view args.list)) }
    ensures reads { Answers (λ l. list_read (map expr_view l.list) l.lines) result cursor.new
        (lists.behind_commas ((readers depth).expr 2) (list_read (map expr_view args.list) args.lines) cursor.old) }
    ensures depth { IfOk result (λ l. l.depth ≡ exprs_depth (exprs (map expr_view l.list))) }
    ensures within { IfOk result (λ l. l.depth ≤ depth) }
{
    let mut args = args;
    for _turn in 0..cursor.turns() {
        if !cursor.sees(Punct::Comma) {
            return Ok(args);
        }
        args = next_arg(alloc, cursor, depth, below, args)?;
    }
    Err(cursor.no_tree())
}

// The arguments of a call, none where the list ends at once. `first` is the line of the parenthesis in front
// of them.
#[tactic(auto, unfolding(crate::specs::Exprs::args, crate::specs::Exprs::some_args, cx_cursor::specs::Reading::bind))]
fn args<F: Fn(&mut Cursor<'_>, u32, Wanted) -> Result<Found, Fault>>(
    alloc: Global,
    cursor: &mut Cursor<'_>,
    depth: u32,
    below: &F,
    first: u32,
) -> Result<Listed<Expr>, Fault>
    requires parts { IsBelow (F.pre below.now) (F.post below.now) depth }
    requires depth { depth < 2 ^ 31 }
    ensures reads { Answers (λ l. list_read (map expr_view l.list) l.lines) result cursor.new (reader.args (readers depth) first cursor.old) }
    ensures depth { IfOk result (λ l. l.depth ≡ exprs_depth (exprs (map expr_view l.list))) }
    ensures within { IfOk result (λ l. l.depth ≤ depth) }
{
    let mut args = Listed::new(alloc, one_line(alloc, first)?);
    if cursor.sees(Punct::RightParenthesis) {
        return Ok(args);
    }
    let one = expr(cursor, depth, below, ASSIGNMENT)?;
    args.push(one)?;
    args_behind(alloc, cursor, depth, below, args)
}

// The arguments of a call in their parentheses (6.5.2.2).
#[tactic(auto, unfolding(crate::specs::Exprs::calls, cx_cursor::specs::Reading::bind))]
fn calls<F: Fn(&mut Cursor<'_>, u32, Wanted) -> Result<Found, Fault>>(
    alloc: Global,
    cursor: &mut Cursor<'_>,
    depth: u32,
    below: &F,
) -> Result<ReadTail, Fault>
    requires parts { IsBelow (F.pre below.now) (F.post below.now) depth }
    requires depth { depth < 2 ^ 31 }
    ensures reads { Answers (λ r. tail_view r.tree) result cursor.new (reader.calls (readers depth) cursor.old) }
    ensures depth { IfOk result (λ r. r.depth ≡ tail_depth (tail_view r.tree)) }
    ensures within { IfOk result (λ r. r.depth ≤ depth) }
{
    let first = cursor.mark(Punct::LeftParenthesis)?;
    let mut list = args(alloc, cursor, depth, below, first)?;
    list.push_line(cursor.mark(Punct::RightParenthesis)?)?;
    let Listed { list, depth, lines } = list;
    Ok(tail_of(alloc, Tail::Call { args: list, lines }, depth)?)
}

fn picked(op: Punct, member: Name, lines: Items<u32>) -> Tail
    ensures { tail_view result ≡ reader.picked op member lines }
{
    if same_mark(op, Punct::Arrow) {
        Tail::Arrow { member, lines }
    } else {
        Tail::Dot { member, lines }
    }
}

// A member behind `.` or `->` (6.5.2.3).
#[tactic(auto, unfolding(crate::specs::Exprs::picks, cx_cursor::specs::Reading::bind))]
fn picks(alloc: Global, cursor: &mut Cursor<'_>) -> Result<ReadTail, Fault>
    ensures reads { Answers (λ r. tail_view r.tree) result cursor.new (reader.picks cursor.old) }
    ensures depth { IfOk result (λ r. r.depth ≡ tail_depth (tail_view r.tree)) }
    ensures within { IfOk result (λ r. r.depth ≡ 0) }
{
    let (op, first) = cursor.operator()?;
    let (member, last) = cursor.word()?;
    let lines = two_lines(alloc, first, last)?;
    Ok(tail_of(alloc, picked(op, member, lines), 0)?)
}

fn stepped(op: Punct, lines: Items<u32>) -> Tail
    ensures { tail_view result ≡ reader.stepped op lines }
{
    if same_mark(op, Punct::PlusPlus) {
        Tail::Up { lines }
    } else {
        Tail::Down { lines }
    }
}

// A postfix `++` or `--` (6.5.2.4).
#[tactic(auto, unfolding(crate::specs::Exprs::steps, cx_cursor::specs::Reading::bind))]
fn steps(alloc: Global, cursor: &mut Cursor<'_>) -> Result<ReadTail, Fault>
    ensures reads { Answers (λ r. tail_view r.tree) result cursor.new (reader.steps cursor.old) }
    ensures depth { IfOk result (λ r. r.depth ≡ tail_depth (tail_view r.tree)) }
    ensures within { IfOk result (λ r. r.depth ≡ 0) }
{
    let (op, line) = cursor.operator()?;
    let lines = one_line(alloc, line)?;
    Ok(tail_of(alloc, stepped(op, lines), 0)?)
}

// A binary operator of this level, and its right operand (6.5.5 to 6.5.14).
#[tactic(auto, unfolding(crate::specs::Exprs::operates, cx_cursor::specs::Reading::bind))]
fn operates<F: Fn(&mut Cursor<'_>, u32, Wanted) -> Result<Found, Fault>>(
    alloc: Global,
    cursor: &mut Cursor<'_>,
    depth: u32,
    below: &F,
    level: u32,
) -> Result<ReadTail, Fault>
    requires parts { IsBelow (F.pre below.now) (F.post below.now) depth }
    requires depth { depth < 2 ^ 31 }
    requires level { level < 2 ^ 31 }
    ensures reads { Answers (λ r. tail_view r.tree) result cursor.new (reader.operates (readers depth) level cursor.old) }
    ensures depth { IfOk result (λ r. r.depth ≡ tail_depth (tail_view r.tree)) }
    ensures within { IfOk result (λ r. r.depth ≤ depth) }
{
    let (op, line) = cursor.operator()?;
    let lines = one_line(alloc, line)?;
    let right = expr(cursor, depth, below, level + 1)?;
    let depth = right.depth;
    let right = right.tree;
    Ok(tail_of(alloc, Tail::Binary { op, right, lines }, depth)?)
}

// An assignment operator, and its right operand (6.5.16).
#[tactic(auto, unfolding(crate::specs::Exprs::assigns, cx_cursor::specs::Reading::bind))]
fn assigns<F: Fn(&mut Cursor<'_>, u32, Wanted) -> Result<Found, Fault>>(
    alloc: Global,
    cursor: &mut Cursor<'_>,
    depth: u32,
    below: &F,
) -> Result<ReadTail, Fault>
    requires parts { IsBelow (F.pre below.now) (F.post below.now) depth }
    requires depth { depth < 2 ^ 31 }
    ensures reads { Answers (λ r. tail_view r.tree) result cursor.new (reader.assigns (readers depth) cursor.old) }
    ensures depth { IfOk result (λ r. r.depth ≡ tail_depth (tail_view r.tree)) }
    ensures within { IfOk result (λ r. r.depth ≤ depth) }
{
    let (op, line) = cursor.operator()?;
    let lines = one_line(alloc, line)?;
    let right = expr(cursor, depth, below, ASSIGNMENT)?;
    let depth = right.depth;
    let right = right.tree;
    Ok(tail_of(alloc, Tail::Assign { op, right, lines }, depth)?)
}

// The second and the third operand of `?:` (6.5.15).
#[tactic(auto, unfolding(crate::specs::Exprs::chooses, cx_cursor::specs::Reading::bind))]
fn chooses<F: Fn(&mut Cursor<'_>, u32, Wanted) -> Result<Found, Fault>>(
    alloc: Global,
    cursor: &mut Cursor<'_>,
    depth: u32,
    below: &F,
) -> Result<ReadTail, Fault>
    requires parts { IsBelow (F.pre below.now) (F.post below.now) depth }
    requires depth { depth < 2 ^ 31 }
    ensures reads { Answers (λ r. tail_view r.tree) result cursor.new (reader.chooses (readers depth) cursor.old) }
    ensures depth { IfOk result (λ r. r.depth ≡ tail_depth (tail_view r.tree)) }
    ensures within { IfOk result (λ r. r.depth ≤ depth) }
{
    let first = cursor.mark(Punct::Question)?;
    let if_true = expr(cursor, depth, below, EXPRESSION)?;
    let lines = two_lines(alloc, first, cursor.mark(Punct::Colon)?)?;
    let if_false = expr(cursor, depth, below, CONDITIONAL)?;
    let depth = if_true.depth.max(if_false.depth);
    let choice = Tail::Cond {
        if_true: if_true.tree,
        if_false: if_false.tree,
        lines,
    };
    Ok(tail_of(alloc, choice, depth)?)
}

// A comma, and its right operand (6.5.17).
#[tactic(auto, unfolding(crate::specs::Exprs::commas, cx_cursor::specs::Reading::bind))]
fn commas<F: Fn(&mut Cursor<'_>, u32, Wanted) -> Result<Found, Fault>>(
    alloc: Global,
    cursor: &mut Cursor<'_>,
    depth: u32,
    below: &F,
) -> Result<ReadTail, Fault>
    requires parts { IsBelow (F.pre below.now) (F.post below.now) depth }
    requires depth { depth < 2 ^ 31 }
    ensures reads { Answers (λ r. tail_view r.tree) result cursor.new (reader.commas (readers depth) cursor.old) }
    ensures depth { IfOk result (λ r. r.depth ≡ tail_depth (tail_view r.tree)) }
    ensures within { IfOk result (λ r. r.depth ≤ depth) }
{
    let (_, line) = cursor.operator()?;
    let lines = one_line(alloc, line)?;
    let right = expr(cursor, depth, below, ASSIGNMENT)?;
    let depth = right.depth;
    let right = right.tree;
    Ok(tail_of(alloc, Tail::Comma { right, lines }, depth)?)
}

/// What continues a left operand.
pub fn read_tail<F: Fn(&mut Cursor<'_>, u32, Wanted) -> Result<Found, Fault>>(
    alloc: Global,
    cursor: &mut Cursor<'_>,
    depth: u32,
    below: &F,
    continuation: Continuation,
) -> Result<ReadTail, Fault>
    requires parts { IsBelow (F.pre below.now) (F.post below.now) depth }
    requires depth { depth < 2 ^ 31 }
    requires level { continuations.strength continuation < 2 ^ 31 }
    ensures reads { Answers (λ r. tail_view r.tree) result cursor.new (reader.tail (readers depth) continuation cursor.old) }
    ensures depth { IfOk result (λ r. r.depth ≡ tail_depth (tail_view r.tree)) }
    ensures within { IfOk result (λ r. r.depth ≤ depth) }
{
    match continuation {
        Continuation::Indexes => indexes(alloc, cursor, depth, below),
        Continuation::Calls => calls(alloc, cursor, depth, below),
        Continuation::Picks => picks(alloc, cursor),
        Continuation::Steps => steps(alloc, cursor),
        Continuation::Operates(level) => operates(alloc, cursor, depth, below, level),
        Continuation::Assigns => assigns(alloc, cursor, depth, below),
        Continuation::Chooses => chooses(alloc, cursor, depth, below),
        Continuation::Commas => commas(alloc, cursor, depth, below),
        Continuation::Nothing => Err(cursor.no_tree()),
    }
}

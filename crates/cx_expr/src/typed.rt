//! Type names in parentheses, and the expressions that begin with one (ISO C99, 6.5.2.5, 6.5.3.4 and 6.5.4).

ghost use Rattle.std.specs.Prelude.{◌≡◌, ◌≤◌, ◌<◌, ◌^◌, suc, IfOk, [], ◌∷◌};
ghost use Rattle.cx_cursor.specs.Reading.{Answers};
ghost use Rattle.cx_expr.specs.Exprs as reader;
ghost use Rattle.cx_expr.specs.Asked.{IsBelow};
ghost use Rattle.cx_expr.specs.Knot.{readers};
ghost use Rattle.cx_tree.specs.Depth.{expr_depth, type_name_depth};
ghost use Rattle.cx_tree.specs.Trees as tree;
ghost use Rattle.cx_tree.specs.Views.{expr_view, initialiser_list_view, type_name_view};

use crate::below::{expr, list, type_name};
use crate::climbing::climb;
use crate::nodes::{ReadExpr, expr_of};
use crate::primaries::paren;
use crate::wanted::{Found, Wanted};
use cr_base::{Boxed, Items, Memory};
use cx_cursor::{Cursor, Fault, one_line, two_lines};
use cx_lex::{Keyword, Punct};
use cx_tree::{Expr, TypeName};
use cx_words::level::{CAST, UNARY};
use cx_words::sees_type;
use std::alloc::Global;

// A type name in parentheses that was read, its depth, and the lines of the parentheses.
#[derive(Drop)]
struct ReadTyped {
    name: Boxed<TypeName>,
    depth: u32,
    lines: Items<u32>,
    ghost measured: { depth ≡ type_name_depth (type_name_view name) },
}

// A type name in parentheses.
#[tactic(auto, unfolding(crate::specs::Exprs::typed, cx_cursor::specs::Reading::bind))]
fn typed<F: Fn(&mut Cursor<'_>, u32, Wanted) -> Result<Found, Fault>>(
    alloc: Global,
    cursor: &mut Cursor<'_>,
    depth: u32,
    below: &F,
) -> Result<ReadTyped, Fault>
    requires parts { IsBelow (F.pre below.now) (F.post below.now) depth }
    requires depth { depth < 2 ^ 31 }
    ensures reads { Answers (λ t. reader.type_read (type_name_view t.name) t.lines) result cursor.new (reader.typed (readers depth) cursor.old) }
    ensures depth { IfOk result (λ t. t.depth ≡ type_name_depth (type_name_view t.name)) }
    ensures within { IfOk result (λ t. t.depth ≤ depth) }
{
    let first = cursor.mark(Punct::LeftParenthesis)?;
    let read = type_name(cursor, depth, below)?;
    let last = cursor.mark(Punct::RightParenthesis)?;
    let lines = two_lines(alloc, first, last)?;
    Ok(ReadTyped {
        name: read.tree,
        depth: read.depth,
        lines,
    })
}

// A compound literal (6.5.2.5), whose type name in parentheses was read.
#[tactic(auto, unfolding(crate::specs::Exprs::literal_of, cx_cursor::specs::Reading::bind))]
fn literal_of<F: Fn(&mut Cursor<'_>, u32, Wanted) -> Result<Found, Fault>>(
    alloc: Global,
    cursor: &mut Cursor<'_>,
    depth: u32,
    below: &F,
    typed: ReadTyped,
) -> Result<ReadExpr, Fault>
    requires parts { IsBelow (F.pre below.now) (F.post below.now) depth }
    requires depth { depth < 2 ^ 31 }
    requires within { typed.depth ≤ depth }
    ensures reads { Answers (λ r. expr_view r.tree) result cursor.new (reader.literal_of (readers depth) (type_name_view typed.name) typed.lines cursor.old) }
    ensures depth { IfOk result (λ r. r.depth ≡ expr_depth (expr_view r.tree)) }
    ensures within { IfOk result (λ r. r.depth ≤ suc depth) }
{
    let list = list(cursor, depth, below)?;
    let depth = typed.depth.max(list.depth) + 1;
    let literal = Expr::Literal {
        of: typed.name,
        list: list.tree,
        lines: typed.lines,
    };
    Ok(expr_of(alloc, literal, depth)?)
}

// A cast (6.5.4), whose type name in parentheses was read.
#[tactic(auto, unfolding(crate::specs::Exprs::cast_of, cx_cursor::specs::Reading::bind))]
fn cast_of<F: Fn(&mut Cursor<'_>, u32, Wanted) -> Result<Found, Fault>>(
    alloc: Global,
    cursor: &mut Cursor<'_>,
    depth: u32,
    below: &F,
    typed: ReadTyped,
) -> Result<ReadExpr, Fault>
    requires parts { IsBelow (F.pre below.now) (F.post below.now) depth }
    requires depth { depth < 2 ^ 31 }
    requires within { typed.depth ≤ depth }
    ensures reads { Answers (λ r. expr_view r.tree) result cursor.new (reader.cast_of (readers depth) (reader.type_read (type_name_view typed.name) typed.lines) cursor.old) }
    ensures depth { IfOk result (λ r. r.depth ≡ expr_depth (expr_view r.tree)) }
    ensures within { IfOk result (λ r. r.depth ≤ suc depth) }
{
    let on = expr(cursor, depth, below, CAST)?;
    let depth = typed.depth.max(on.depth) + 1;
    let cast = Expr::Cast {
        to: typed.name,
        on: on.tree,
        lines: typed.lines,
    };
    Ok(expr_of(alloc, cast, depth)?)
}

// What stands behind a type name in parentheses.
#[tactic(auto, unfolding(crate::specs::Exprs::behind_type))]
fn behind_type<F: Fn(&mut Cursor<'_>, u32, Wanted) -> Result<Found, Fault>>(
    alloc: Global,
    cursor: &mut Cursor<'_>,
    depth: u32,
    below: &F,
    least: u32,
    typed: ReadTyped,
) -> Result<ReadExpr, Fault>
    requires parts { IsBelow (F.pre below.now) (F.post below.now) depth }
    requires depth { depth < 2 ^ 31 }
    requires within { typed.depth ≤ depth }
    ensures reads { Answers (λ r. expr_view r.tree) result cursor.new (reader.behind_type (readers depth) least (reader.type_read (type_name_view typed.name) typed.lines) cursor.old) }
    ensures depth { IfOk result (λ r. r.depth ≡ expr_depth (expr_view r.tree)) }
    ensures within { IfOk result (λ r. r.depth ≤ suc depth) }
{
    if cursor.sees(Punct::LeftBrace) {
        return literal_of(alloc, cursor, depth, below, typed);
    }
    if least <= 14 {
        return cast_of(alloc, cursor, depth, below, typed);
    }
    Err(cursor.no_tree())
}

/// An expression that begins with a parenthesis.
#[tactic(auto, unfolding(crate::specs::Exprs::parenthesised, cx_cursor::specs::Reading::bind))]
pub fn parenthesised<F: Fn(&mut Cursor<'_>, u32, Wanted) -> Result<Found, Fault>>(
    alloc: Global,
    cursor: &mut Cursor<'_>,
    depth: u32,
    below: &F,
    least: u32,
) -> Result<ReadExpr, Fault>
    requires parts { IsBelow (F.pre below.now) (F.post below.now) depth }
    requires depth { depth < 2 ^ 31 }
    ensures reads { Answers (λ r. expr_view r.tree) result cursor.new (reader.parenthesised (readers depth) least cursor.old) }
    ensures depth { IfOk result (λ r. r.depth ≡ expr_depth (expr_view r.tree)) }
    ensures within { IfOk result (λ r. r.depth ≤ suc depth) }
{
    if !sees_type(cursor) {
        return paren(alloc, cursor, depth, below);
    }
    let typed = typed(alloc, cursor, depth, below)?;
    behind_type(alloc, cursor, depth, below, least, typed)
}

// A unary expression that begins with a compound literal, from behind its type name in parentheses on; at
// most `depth` nodes deep.
#[tactic(auto, using(crate::proofs::Turns::literal_none, crate::proofs::Turns::literal_some, crate::proofs::Shallow::shallower), unfolding(crate::specs::Exprs::literal_from, cx_cursor::specs::Reading::bind))]
fn literal<F: Fn(&mut Cursor<'_>, u32, Wanted) -> Result<Found, Fault>>(
    alloc: Global,
    cursor: &mut Cursor<'_>,
    depth: u32,
    below: &F,
    typed: ReadTyped,
) -> Result<ReadExpr, Fault>
    requires parts { IsBelow (F.pre below.now) (F.post below.now) depth }
    requires depth { depth < 2 ^ 31 }
    ensures reads { Answers (λ r. expr_view r.tree) result cursor.new ((readers depth).literal (type_name_view typed.name) typed.lines cursor.old) }
    ensures depth { IfOk result (λ r. r.depth ≡ expr_depth (expr_view r.tree)) }
    ensures within { IfOk result (λ r. r.depth ≤ depth) }
{
    if depth == 0 {
        return Err(cursor.no_tree());
    }
    if depth - 1 < typed.depth {
        return Err(cursor.no_tree());
    }
    let left = literal_of(alloc, cursor, depth - 1, below, typed)?;
    climb(alloc, cursor, depth - 1, below, 15, left)
}

// `sizeof` and the operand behind it (6.5.3.4).
fn sizeof_of(alloc: Global, line: u32, on: ReadExpr) -> Result<ReadExpr, Memory>
    requires { on.depth < 2 ^ 31 }
    ensures tree { IfOk result (λ r. expr_view r.tree ≡ tree.SizeofExpr (expr_view on.tree) (line ∷ [])) }
    ensures deep { IfOk result (λ r. r.depth ≡ suc on.depth) }
{
    let depth = on.depth + 1;
    let on = on.tree;
    let lines = one_line(alloc, line)?;
    expr_of(alloc, Expr::SizeofExpr { on, lines }, depth)
}

// `sizeof` of a type name in parentheses (6.5.3.4).
fn sizeof_type_of(alloc: Global, line: u32, typed: ReadTyped) -> Result<ReadExpr, Memory>
    requires { typed.depth < 2 ^ 31 }
    ensures tree { IfOk result (λ r. expr_view r.tree ≡ tree.SizeofType (type_name_view typed.name) (line ∷ typed.lines)) }
    ensures deep { IfOk result (λ r. r.depth ≡ suc typed.depth) }
{
    let mut lines = one_line(alloc, line)?;
    lines.append(typed.lines)?;
    let depth = typed.depth + 1;
    let of = typed.name;
    expr_of(alloc, Expr::SizeofType { of, lines }, depth)
}

// What stands behind `sizeof` and a type name in parentheses.
#[tactic(auto, unfolding(crate::specs::Exprs::sizeof_typed, cx_cursor::specs::Reading::bind))]
fn sizeof_typed<F: Fn(&mut Cursor<'_>, u32, Wanted) -> Result<Found, Fault>>(
    alloc: Global,
    cursor: &mut Cursor<'_>,
    depth: u32,
    below: &F,
    line: u32,
    typed: ReadTyped,
) -> Result<ReadExpr, Fault>
    requires parts { IsBelow (F.pre below.now) (F.post below.now) depth }
    requires depth { depth < 2 ^ 31 }
    requires within { typed.depth ≤ depth }
    ensures reads { Answers (λ r. expr_view r.tree) result cursor.new (reader.sizeof_typed (readers depth) line (reader.type_read (type_name_view typed.name) typed.lines) cursor.old) }
    ensures depth { IfOk result (λ r. r.depth ≡ expr_depth (expr_view r.tree)) }
    ensures within { IfOk result (λ r. r.depth ≤ suc depth) }
{
    if cursor.sees(Punct::LeftBrace) {
        let on = literal(alloc, cursor, depth, below, typed)?;
        return Ok(sizeof_of(alloc, line, on)?);
    }
    Ok(sizeof_type_of(alloc, line, typed)?)
}

#[tactic(auto, unfolding(crate::specs::Exprs::sizeof_behind, crate::specs::Exprs::sizeof_expr, cx_cursor::specs::Reading::bind))]
fn sizeof_behind<F: Fn(&mut Cursor<'_>, u32, Wanted) -> Result<Found, Fault>>(
    alloc: Global,
    cursor: &mut Cursor<'_>,
    depth: u32,
    below: &F,
    line: u32,
) -> Result<ReadExpr, Fault>
    requires parts { IsBelow (F.pre below.now) (F.post below.now) depth }
    requires depth { depth < 2 ^ 31 }
    ensures reads { Answers (λ r. expr_view r.tree) result cursor.new (reader.sizeof_behind (readers depth) line cursor.old) }
    ensures depth { IfOk result (λ r. r.depth ≡ expr_depth (expr_view r.tree)) }
    ensures within { IfOk result (λ r. r.depth ≤ suc depth) }
{
    if sees_type(cursor) {
        let typed = typed(alloc, cursor, depth, below)?;
        return sizeof_typed(alloc, cursor, depth, below, line, typed);
    }
    let on = expr(cursor, depth, below, UNARY)?;
    Ok(sizeof_of(alloc, line, on)?)
}

/// `sizeof` (6.5.3.4), whose operand is at most `depth` nodes deep.
#[tactic(auto, unfolding(crate::specs::Exprs::sizeof, cx_cursor::specs::Reading::bind))]
pub fn sizeof<F: Fn(&mut Cursor<'_>, u32, Wanted) -> Result<Found, Fault>>(
    alloc: Global,
    cursor: &mut Cursor<'_>,
    depth: u32,
    below: &F,
) -> Result<ReadExpr, Fault>
    requires parts { IsBelow (F.pre below.now) (F.post below.now) depth }
    requires depth { depth < 2 ^ 31 }
    ensures reads { Answers (λ r. expr_view r.tree) result cursor.new (reader.sizeof (readers depth) cursor.old) }
    ensures depth { IfOk result (λ r. r.depth ≡ expr_depth (expr_view r.tree)) }
    ensures within { IfOk result (λ r. r.depth ≤ suc depth) }
{
    let line = cursor.key(Keyword::Sizeof)?;
    sizeof_behind(alloc, cursor, depth, below, line)
}

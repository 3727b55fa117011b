//! The readers of all that may hold one another, at each depth (ISO C99, 6.5 to 6.7).

ghost use Rattle.std.specs.Prelude.{◌≡◌, ◌≤◌, ◌<◌, ◌^◌, ◌-◌, suc, map, IfOk};
ghost use Rattle.cx_cursor.specs.Reading.{Answers};
ghost use Rattle.cx_cursor.specs.Scopes.{bound};
ghost use Rattle.cx_expr.specs.Asked.{IsBelow, Tells};
ghost use Rattle.cx_expr.specs.Below.{declarator_read};
ghost use Rattle.cx_expr.specs.Initialisers as initialisers;
ghost use Rattle.cx_expr.specs.Knot.{above, readers};
ghost use Rattle.cx_expr.specs.Specifiers as specifiers;
ghost use Rattle.cx_expr.specs.Specifiers.{specs_read};
ghost use Rattle.cx_tree.specs.Depth as depths;
ghost use Rattle.cx_tree.specs.Views.{declarator_view, expr_view, initialiser_view, spec_view, specs as spec_trees};

use crate::declarators::declarator_from;
use crate::specifiers::{ReadSpecs, spec_from};
use crate::type_names::type_name_from;
use cx_cursor::{Cursor, Fault};
use cx_expr::{Found, ReadDeclarator, ReadExpr, ReadInitialiser, Wanted, expr_from, list_from};
use cx_words::Form;
use std::alloc::Global;

// What is asked for, whose parts are at most `depth` nodes deep.
fn found_above<F: Fn(&mut Cursor<'_>, u32, Wanted) -> Result<Found, Fault>>(
    alloc: Global,
    cursor: &mut Cursor<'_>,
    depth: u32,
    below: &F,
    wanted: Wanted,
) -> Result<Found, Fault>
    requires parts { IsBelow (F.pre below.now) (F.post below.now) depth }
    requires depth { depth < 2 ^ 31 }
    ensures { Tells (above (readers depth) depth) (suc depth) wanted cursor.old result cursor.new }
{
    Ok(match wanted {
        Wanted::Expr(least) => Found::Expr(expr_from(alloc, cursor, depth, below, least)?),
        Wanted::TypeName => Found::TypeName(type_name_from(alloc, cursor, depth, below)?),
        Wanted::Spec => Found::Spec(spec_from(alloc, cursor, depth, below)?),
        Wanted::Declarator(form) => {
            Found::Declarator(declarator_from(alloc, cursor, depth, below, form)?)
        }
        Wanted::List => Found::List(list_from(alloc, cursor, depth, below)?),
    })
}

// What is asked for, at most `depth` nodes deep.
#[cycle(knot)]
#[tactic(auto, using(crate::proofs::Depths::none_told, crate::proofs::Depths::above_told), unfolding(cx_expr::specs::Asked::IsBelow))]
fn read(alloc: Global, cursor: &mut Cursor<'_>, depth: u32, wanted: Wanted) -> Result<Found, Fault>
    requires { depth < 2 ^ 31 }
    ensures { Tells (readers depth) depth wanted cursor.old result cursor.new }
{
    if depth == 0 {
        return Err(cursor.no_tree());
    }
    let below = |cursor: &mut Cursor<'_>, most: u32, wanted: Wanted| -> Result<Found, Fault>
        requires within { most < depth }
        requires depth { depth < 2 ^ 31 }
        ensures { Tells (readers most) most wanted cursor.old result cursor.new }
    {
        // The clauses speak of it.
        let _ = &depth;
        read(alloc, cursor, most, wanted)
    };
    found_above(alloc, cursor, depth - 1, &below, wanted)
}

/// Reads an expression of the level `least` or above, at most `depth` nodes deep.
pub fn expr(
    alloc: Global,
    cursor: &mut Cursor<'_>,
    depth: u32,
    least: u32,
) -> Result<ReadExpr, Fault>
    requires { depth < 2 ^ 31 }
    ensures reads { Answers (λ r. expr_view r.tree) result cursor.new ((readers depth).expr least cursor.old) }
    ensures depth { IfOk result (λ r. r.depth ≡ depths.expr_depth (expr_view r.tree)) }
    ensures within { IfOk result (λ r. r.depth ≤ depth) }
{
    match read(alloc, cursor, depth, Wanted::Expr(least))? {
        Found::Expr(read) => Ok(read),
        _ => Err(cursor.no_tree()),
    }
}

/// Reads a declarator of this form that isn't missing, at most `depth` nodes deep.
pub fn declarator(
    alloc: Global,
    cursor: &mut Cursor<'_>,
    depth: u32,
    form: Form,
) -> Result<ReadDeclarator, Fault>
    requires { depth < 2 ^ 31 }
    ensures reads { Answers (λ r. declarator_read (declarator_view r.tree) (map bound r.own)) result cursor.new ((readers depth).declarator form cursor.old) }
    ensures within { IfOk result (λ r. r.depth ≤ depth) }
    ensures depth { IfOk result (λ r. r.depth ≡ depths.declarator_depth (declarator_view r.tree)) }
{
    match read(alloc, cursor, depth, Wanted::Declarator(form))? {
        Found::Declarator(read) => Ok(read),
        _ => Err(cursor.no_tree()),
    }
}

/// Reads one specifier or more, each at most `depth` nodes deep: of any declaration where `all`, or else of a
/// member or of a type name (6.7, 6.7.2.1).
#[tactic(auto, unfolding(cx_expr::specs::Asked::IsBelow))]
pub fn specs_from(
    alloc: Global,
    cursor: &mut Cursor<'_>,
    depth: u32,
    all: bool,
) -> Result<ReadSpecs, Fault>
    requires { depth < 2 ^ 31 }
    ensures reads { Answers (λ s. specs_read (map spec_view s.list) s.typed) result cursor.new (specifiers.specs_from (readers depth) all cursor.old) }
    ensures depth { IfOk result (λ s. s.depth ≡ depths.specs_depth (spec_trees (map spec_view s.list))) }
    ensures within { IfOk result (λ s. s.depth ≤ depth) }
{
    let below = |cursor: &mut Cursor<'_>, most: u32, wanted: Wanted| -> Result<Found, Fault>
        requires { most < 2 ^ 31 }
        ensures { Tells (readers most) most wanted cursor.old result cursor.new }
    { read(alloc, cursor, most, wanted) };
    crate::specifiers::specs_from(alloc, cursor, depth, &below, all)
}

/// Reads an initialiser, at most `depth` nodes deep (6.7.8).
#[tactic(auto, unfolding(cx_expr::specs::Asked::IsBelow))]
pub fn initialiser(
    alloc: Global,
    cursor: &mut Cursor<'_>,
    depth: u32,
) -> Result<ReadInitialiser, Fault>
    requires { depth < 2 ^ 31 }
    ensures reads { Answers (λ r. initialiser_view r.tree) result cursor.new (initialisers.initialiser (readers depth) cursor.old) }
    ensures depth { IfOk result (λ r. r.depth ≡ depths.initialiser_depth (initialiser_view r.tree)) }
    ensures within { IfOk result (λ r. r.depth ≤ depth) }
{
    let below = |cursor: &mut Cursor<'_>, most: u32, wanted: Wanted| -> Result<Found, Fault>
        requires { most < 2 ^ 31 }
        ensures { Tells (readers most) most wanted cursor.old result cursor.new }
    { read(alloc, cursor, most, wanted) };
    cx_expr::initialiser(alloc, cursor, depth, &below)
}

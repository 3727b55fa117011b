//! Reading the parts of what is read: `below` reads what is asked for, at most `depth` nodes deep.

ghost use Rattle.std.specs.Prelude.{◌≡◌, ◌≤◌, map, IfOk};
ghost use Rattle.cx_cursor.specs.Reading.{Answers};
ghost use Rattle.cx_cursor.specs.Scopes.{bound};
ghost use Rattle.cx_expr.specs.Asked.{IsBelow};
ghost use Rattle.cx_expr.specs.Below.{declarator_read};
ghost use Rattle.cx_expr.specs.Knot.{readers};
ghost use Rattle.cx_tree.specs.Depth as depths;
ghost use Rattle.cx_tree.specs.Views.{expr_view, type_name_view, spec_view, declarator_view, initialiser_list_view};

use crate::nodes::{ReadDeclarator, ReadExpr, ReadList, ReadSpec, ReadTypeName};
use crate::wanted::{Found, Wanted};
use cx_cursor::{Cursor, Fault};
use cx_words::Form;

/// An expression of the level `least` or above (ISO C99, 6.5).
#[tactic(auto, unfolding(crate::specs::Asked::IsBelow))]
pub fn expr<F: Fn(&mut Cursor<'_>, u32, Wanted) -> Result<Found, Fault>>(
    cursor: &mut Cursor<'_>,
    depth: u32,
    below: &F,
    least: u32,
) -> Result<ReadExpr, Fault>
    requires { IsBelow (F.pre below.now) (F.post below.now) depth }
    ensures reads { Answers (λ r. expr_view r.tree) result cursor.new ((readers depth).expr least cursor.old) }
    ensures depth { IfOk result (λ r. r.depth ≡ depths.expr_depth (expr_view r.tree)) }
    ensures within { IfOk result (λ r. r.depth ≤ depth) }
{
    match below(cursor, depth, Wanted::Expr(least))? {
        Found::Expr(read) => Ok(read),
        _ => Err(cursor.no_tree()),
    }
}

/// A type name (6.7.6).
#[tactic(auto, unfolding(crate::specs::Asked::IsBelow))]
pub fn type_name<F: Fn(&mut Cursor<'_>, u32, Wanted) -> Result<Found, Fault>>(
    cursor: &mut Cursor<'_>,
    depth: u32,
    below: &F,
) -> Result<ReadTypeName, Fault>
    requires { IsBelow (F.pre below.now) (F.post below.now) depth }
    ensures reads { Answers (λ r. type_name_view r.tree) result cursor.new ((readers depth).type_name cursor.old) }
    ensures depth { IfOk result (λ r. r.depth ≡ depths.type_name_depth (type_name_view r.tree)) }
    ensures within { IfOk result (λ r. r.depth ≤ depth) }
{
    match below(cursor, depth, Wanted::TypeName)? {
        Found::TypeName(read) => Ok(read),
        _ => Err(cursor.no_tree()),
    }
}

/// A specifier (6.7).
#[tactic(auto, unfolding(crate::specs::Asked::IsBelow))]
pub fn spec<F: Fn(&mut Cursor<'_>, u32, Wanted) -> Result<Found, Fault>>(
    cursor: &mut Cursor<'_>,
    depth: u32,
    below: &F,
) -> Result<ReadSpec, Fault>
    requires { IsBelow (F.pre below.now) (F.post below.now) depth }
    ensures reads { Answers (λ r. spec_view r.tree) result cursor.new ((readers depth).spec cursor.old) }
    ensures depth { IfOk result (λ r. r.depth ≡ depths.spec_depth (spec_view r.tree)) }
    ensures within { IfOk result (λ r. r.depth ≤ depth) }
{
    match below(cursor, depth, Wanted::Spec)? {
        Found::Spec(read) => Ok(read),
        _ => Err(cursor.no_tree()),
    }
}

/// A declarator of this form that isn't missing (6.7.5, 6.7.6).
#[tactic(auto, unfolding(crate::specs::Asked::IsBelow))]
pub fn declarator<F: Fn(&mut Cursor<'_>, u32, Wanted) -> Result<Found, Fault>>(
    cursor: &mut Cursor<'_>,
    depth: u32,
    below: &F,
    form: Form,
) -> Result<ReadDeclarator, Fault>
    requires { IsBelow (F.pre below.now) (F.post below.now) depth }
    ensures reads { Answers (λ r. declarator_read (declarator_view r.tree) (map bound r.own)) result cursor.new ((readers depth).declarator form cursor.old) }
    ensures depth { IfOk result (λ r. r.depth ≡ depths.declarator_depth (declarator_view r.tree)) }
    ensures within { IfOk result (λ r. r.depth ≤ depth) }
{
    match below(cursor, depth, Wanted::Declarator(form))? {
        Found::Declarator(read) => Ok(read),
        _ => Err(cursor.no_tree()),
    }
}

/// A list of initialisers in braces (6.7.8).
#[tactic(auto, unfolding(crate::specs::Asked::IsBelow))]
pub fn list<F: Fn(&mut Cursor<'_>, u32, Wanted) -> Result<Found, Fault>>(
    cursor: &mut Cursor<'_>,
    depth: u32,
    below: &F,
) -> Result<ReadList, Fault>
    requires { IsBelow (F.pre below.now) (F.post below.now) depth }
    ensures reads { Answers (λ r. initialiser_list_view r.tree) result cursor.new ((readers depth).list cursor.old) }
    ensures depth { IfOk result (λ r. r.depth ≡ depths.initialiser_list_depth (initialiser_list_view r.tree)) }
    ensures within { IfOk result (λ r. r.depth ≤ depth) }
{
    match below(cursor, depth, Wanted::List)? {
        Found::List(read) => Ok(read),
        _ => Err(cursor.no_tree()),
    }
}

//! Clauses of statements: what holds no statement (ISO C99, 6.8.3 to 6.8.6).
#![tactic(auto, unfolding(cx_rules::specs::Readings::check_chain, cx_rules::specs::Readings::check_gives, cx_rules::specs::Readings::check_here, cx_rules::specs::Readings::check_becomes))]

ghost use Rattle.std.specs.Prelude.{◌≡◌, option_map, IfOk};
ghost use Rattle.cx_context.specs.Checks.{Checks};
ghost use Rattle.cx_context.specs.Views.{scope_of};
ghost use Rattle.cx_core.specs.Views.{view_expr, view_stmt};
ghost use Rattle.cx_unit_walk.specs.Views.{view_for, view_tested, view_within};
ghost use Rattle.cx_unit_walk.specs.Walks as walks;
ghost use Rattle.cx_decl_steps.specs.Views.{view_meant};
ghost use Rattle.cx_operands.specs.Views.{view_operand};
ghost use Rattle.cx_rules.specs.UnitWalk.{as_meant};
ghost use Rattle.cx_stmt_steps.specs.Views.{view_site, view_stated};
ghost use Rattle.cx_tree.specs.Trees.{Return};
ghost use Rattle.cx_tree.specs.Views.{expr_view, first_view, option_expr as option_expr_tree};

use cr_base::{Boxed, Items, Memory, Stop};
use cx_context::Context;
use cx_core::{CoreExpr, CoreStmt, Ty};
use cx_declarations::{Meant, decl};
use cx_operands::Operand;
use cx_rules::SpecsPlace;
use cx_shapes::{expr_line, own_line};
use cx_stmt_steps::{
    Cases, ForBegun, Marks, Site, Stated, Tested, do_ended, dropped_seen, expression_ended,
    literals_since, return_seen, scope_begins, switch_begins,
};
use cx_tree::{Expr, ForFirst};
use cx_walk::{expr, option_expr};
use std::alloc::Global;

/// A `switch` that began: the promoted type of its expression, and the labels of the one around it (ISO C99, 6.8.4.2).
#[derive(Drop)]
pub(crate) struct Within {
    pub(crate) ty: Boxed<Ty>,
    pub(crate) around: Cases,
}

// An expression whose value isn't taken (6.8.3p2).
fn dropped_expr(context: &mut Context, e: &Expr) -> Result<Boxed<CoreExpr>, Stop>
    ensures { Checks view_expr result (scope_of context.new) (walks.dropped_walk (expr_view e.now) (scope_of context.old)) }
{
    let one = expr(context, e)?;
    dropped_seen(context, expr_line(e), one)
}

// One that may be missing.
fn dropped_option(
    context: &mut Context,
    e: &Option<Boxed<Expr>>,
) -> Result<Option<Boxed<CoreExpr>>, Stop>
    ensures { Checks (option_map view_expr) result (scope_of context.new) (walks.dropped_option (option_expr_tree (option_map expr_view e.now)) (scope_of context.old)) }
{
    match e {
        None => Ok(None),
        Some(one) => {
            let made = dropped_expr(context, one.get())?;
            Ok(Some(made))
        }
    }
}

/// An expression as a statement (ISO C99, 6.8.3).
pub(crate) fn expression(context: &mut Context, e: &Expr) -> Result<Stated, Stop>
    ensures { Checks view_stated result (scope_of context.new) (walks.expression_walk (expr_view e.now) (scope_of context.old)) }
{
    let literals = context.literal_count();
    let value = dropped_expr(context, e)?;
    expression_ended(context, literals, expr_line(e), value)
}

/// `return` (ISO C99, 6.8.6.4).
pub(crate) fn return_stmt(
    context: &mut Context,
    value: &Option<Boxed<Expr>>,
    here: Site<'_>,
    lines: &Items<u32>,
) -> Result<Stated, Stop>
    ensures { Checks view_stated result (scope_of context.new) (walks.stmt_walk (view_site here.entry) (Return (option_expr_tree (option_map expr_view value.now)) lines.now) (scope_of context.old)) }
{
    let literals = context.literal_count();
    let one = option_expr(context, value)?;
    return_seen(context, here, literals, own_line(lines), one)
}

/// A statement begins with the expression that controls it (ISO C99, 6.8.4, 6.8.5).
pub(crate) fn tested_begins(context: &mut Context, condition: &Expr) -> Result<Tested, Stop>
    ensures { Checks view_tested result (scope_of context.new) (walks.tested_begins (expr_view condition.now) (scope_of context.old)) }
{
    let marks = scope_begins(context);
    let literals = context.literal_count();
    let test = expr(context, condition)?;
    let literals = literals_since(context, literals)?;
    Ok(Tested {
        marks,
        test,
        literals,
    })
}

/// A `switch` begins behind the expression that controls it.
pub(crate) fn inside_switch(context: &mut Context, value: &Operand) -> Result<Within, Stop>
    ensures { Checks view_within result (scope_of context.new) (walks.switch_begins (view_operand value.now) (scope_of context.old)) }
{
    let (around, ty) = switch_begins(context, value)?;
    Ok(Within { ty, around })
}

/// The expression that controls a `do` statement stands behind its body (ISO C99, 6.8.5.2).
pub(crate) fn do_ends(
    context: &mut Context,
    marks: Marks,
    line: u32,
    condition: &Expr,
    body: Boxed<CoreStmt>,
) -> Result<Stated, Stop>
    ensures { Checks view_stated result (scope_of context.new) (walks.do_ends marks.count marks.begins line (expr_view condition.now) (view_stmt body) (scope_of context.old)) }
{
    let literals = context.literal_count();
    let test = expr(context, condition)?;
    let literals = literals_since(context, literals)?;
    let begun = Tested {
        marks,
        test,
        literals,
    };
    do_ended(context, begun, line, body)
}

/// The clauses of a `for` statement (ISO C99, 6.8.5.3).
pub(crate) fn for_begins(
    context: &mut Context,
    first: &ForFirst,
    second: &Option<Boxed<Expr>>,
    third: &Option<Boxed<Expr>>,
) -> Result<ForBegun, Stop>
    ensures { Checks view_for result (scope_of context.new) (walks.for_begins (first_view first.now) (option_expr_tree (option_map expr_view second.now)) (option_expr_tree (option_map expr_view third.now)) (scope_of context.old)) }
{
    let marks = scope_begins(context);
    let begun = first_clause(context, first)?;
    for_clauses(context, marks, begun, second, third)
}

// The first clause.
fn first_clause(context: &mut Context, first: &ForFirst) -> Result<Meant, Stop>
    ensures { Checks view_meant result (scope_of context.new) (walks.first_walk (first_view first.now) (scope_of context.old)) }
{
    match first {
        ForFirst::Value(value) => match value {
            None => Ok(Meant::new(context.alloc())),
            Some(one) => first_value(context, one.get()),
        },
        ForFirst::Declared(one) => decl(context, SpecsPlace::ForClause, one.get()),
    }
}

// An expression as the first clause.
fn first_value(context: &mut Context, value: &Expr) -> Result<Meant, Stop>
    ensures { Checks view_meant result (scope_of context.new) (walks.value_walk (expr_view value.now) (scope_of context.old)) }
{
    let one = expression(context, value)?;
    let all = as_meant(context.alloc(), one)?;
    Ok(all)
}

/// A statement with its objects in a list. Refused only for want of memory.
pub(crate) fn as_meant(alloc: Global, one: Stated) -> Result<Meant, Memory>
    ensures { IfOk result (λ all. view_meant all ≡ as_meant (view_stated one)) }
{
    let mut stmts = Items::new(alloc);
    stmts.push(one.stmt.into_inner())?;
    Ok(Meant {
        stmts,
        objects: one.objects,
    })
}

// The other clauses.
fn for_clauses(
    context: &mut Context,
    marks: Marks,
    begun: Meant,
    second: &Option<Boxed<Expr>>,
    third: &Option<Boxed<Expr>>,
) -> Result<ForBegun, Stop>
    ensures { Checks view_for result (scope_of context.new) (walks.for_clauses marks.count marks.begins (view_meant begun) (option_expr_tree (option_map expr_view second.now)) (option_expr_tree (option_map expr_view third.now)) (scope_of context.old)) }
{
    let literals = context.literal_count();
    let test = option_expr(context, second)?;
    let next = dropped_option(context, third)?;
    let literals = literals_since(context, literals)?;
    Ok(ForBegun {
        marks,
        first: begun.stmts,
        objects: begun.objects,
        test,
        next,
        literals,
    })
}

//! The walk over statements, which hold one another (ISO C99, 6.8).
#![tactic(auto, unfolding(cx_rules::specs::Readings::check_chain, cx_rules::specs::Readings::check_gives, cx_rules::specs::Readings::check_here, cx_rules::specs::Readings::check_becomes))]

ghost use Rattle.std.specs.Prelude.{map, option_map};
ghost use Rattle.cx_context.specs.Checks.{Checks};
ghost use Rattle.cx_context.specs.Views.{scope_of};
ghost use Rattle.cx_core.specs.Views.{otherwise_of, view_stmt};
ghost use Rattle.cx_unit_walk.specs.Views.{view_for, view_tested, view_within};
ghost use Rattle.cx_unit_walk.specs.Walks as walks;
ghost use Rattle.cx_decl_steps.specs.Views.{view_meant};
ghost use Rattle.cx_rules.specs.Lines.{own_line};
ghost use Rattle.cx_stmt_steps.specs.Views.{view_site, view_stated};
ghost use Rattle.cx_tree.specs.Trees.{Block, Do, Switch, While};
ghost use Rattle.cx_tree.specs.Views.{expr_view, first_view, item_view, items as item_trees, option_expr as option_expr_tree, option_stmt as option_stmt_tree, stmt_view};

use crate::clauses::{
    Within, as_meant, do_ends, expression, for_begins, inside_switch, return_stmt, tested_begins,
};
use cr_base::{Boxed, Items, Stop};
use cx_context::Context;
use cx_core::CoreStmt;
use cx_declarations::{Meant, decl};
use cx_rules::SpecsPlace;
use cx_shapes::own_line;
use cx_stmt_steps::{
    ForBegun, Site, Stated, Tested, as_block, block_ended, break_seen, case_seen, continue_seen,
    default_seen, for_ended, goto_seen, if_ended, label_seen, null_seen, scope_begins, scope_ends,
    switch_ended, while_ended,
};
use cx_tree::{BlockItem, Expr, ForFirst, Stmt};
use cx_walk::expr;

/// A statement (ISO C99, 6.8), by where it stands.
#[cycle(walk)]
pub(crate) fn stmt(context: &mut Context, one: &Stmt, here: Site<'_>) -> Result<Stated, Stop>
    ensures { Checks view_stated result (scope_of context.new) (walks.stmt_walk (view_site here.entry) (stmt_view one.now) (scope_of context.old)) }
{
    match one {
        Stmt::Label { .. } | Stmt::Case { .. } | Stmt::Default { .. } => labelled_form(
            context, one, here,
        ),
        Stmt::Block { items: list, lines } => block_form(context, list.as_slice(), here, lines),
        Stmt::Expr { expr: value, lines } => match value {
            None => null_seen(context, own_line(lines)),
            Some(e) => expression(context, e.get()),
        },
        Stmt::If { condition, .. } => if_form(context, one, here, condition.get()),
        Stmt::Switch { on, body, lines } => switch_form(context, body.get(), here, on.get(), lines),
        Stmt::While {
            condition,
            body,
            lines,
        } => while_form(context, body.get(), here, condition.get(), lines),
        Stmt::Do {
            body,
            condition,
            lines,
        } => do_form(context, body.get(), here, condition.get(), lines),
        Stmt::For {
            first,
            second,
            third,
            body,
            lines,
        } => for_form(context, body.get(), here, first, second, third, lines),
        Stmt::Goto { name, lines } => goto_seen(context, here, name, own_line(lines)),
        Stmt::Continue { lines } => continue_seen(context, here, own_line(lines)),
        Stmt::Break { lines } => break_seen(context, here, own_line(lines)),
        Stmt::Return { value, lines } => return_stmt(context, value, here, lines),
    }
}

// A statement with a label (6.8.1).
#[cycle(walk)]
fn labelled_form(context: &mut Context, e: &Stmt, here: Site<'_>) -> Result<Stated, Stop>
    ensures { Checks view_stated result (scope_of context.new) (walks.stmt_walk (view_site here.entry) (stmt_view e.now) (scope_of context.old)) }
{
    match e {
        Stmt::Label {
            name,
            stmt: inner,
            lines,
        } => {
            let one = stmt(context, inner.get(), here)?;
            label_seen(context, name, own_line(lines), one)
        }
        Stmt::Case {
            value,
            stmt: inner,
            lines,
        } => {
            let number = expr(context, value.get())?;
            let one = stmt(context, inner.get(), here)?;
            case_seen(context, here, own_line(lines), &number, one)
        }
        Stmt::Default { stmt: inner, lines } => {
            let one = stmt(context, inner.get(), here)?;
            default_seen(context, here, own_line(lines), one)
        }
        // No other form comes here.
        _ => Err(Stop::Memory),
    }
}

// A block (6.8.2).
#[cycle(walk)]
fn block_form(
    context: &mut Context,
    list: &[BlockItem],
    here: Site<'_>,
    lines: &Items<u32>,
) -> Result<Stated, Stop>
    ensures { Checks view_stated result (scope_of context.new) (walks.stmt_walk (view_site here.entry) (Block (item_trees (map item_view list.now)) lines.now) (scope_of context.old)) }
{
    let marks = scope_begins(context);
    let all = items(context, list, here)?;
    block_ended(context, marks, own_line(lines), all.stmts, all.objects)
}

// A branch or a body, which is a block of its own (6.8.4p3, 6.8.5p5).
#[cycle(walk)]
fn scoped(context: &mut Context, body: &Stmt, here: Site<'_>) -> Result<Boxed<CoreStmt>, Stop>
    ensures { Checks view_stmt result (scope_of context.new) (walks.scoped (walks.stmt_walk (view_site here.entry) (stmt_view body.now)) (scope_of context.old)) }
{
    let marks = scope_begins(context);
    let one = stmt(context, body, here)?;
    let made = as_block(context.alloc(), one)?;
    scope_ends(context, marks);
    Ok(made)
}

// `if` (6.8.4.1), with its condition.
#[cycle(walk)]
fn if_form(
    context: &mut Context,
    whole: &Stmt,
    here: Site<'_>,
    condition: &Expr,
) -> Result<Stated, Stop>
    ensures { Checks view_stated result (scope_of context.new) (walks.if_walk (view_site here.entry) (expr_view condition.now) (stmt_view whole.now) (scope_of context.old)) }
{
    let begun = tested_begins(context, condition)?;
    if_rest(context, whole, here, begun)
}

// The branches of `if`.
#[cycle(walk)]
fn if_rest(context: &mut Context, e: &Stmt, here: Site<'_>, begun: Tested) -> Result<Stated, Stop>
    ensures { Checks view_stated result (scope_of context.new) (walks.if_branches (view_site here.entry) (view_tested begun) (stmt_view e.now) (scope_of context.old)) }
{
    match e {
        Stmt::If {
            branch,
            otherwise,
            lines,
            ..
        } => {
            let one = scoped(context, branch.get(), here)?;
            let other = else_branch(context, otherwise, here)?;
            if_ended(context, begun, own_line(lines), one, other)
        }
        // No other form comes here.
        _ => Err(Stop::Memory),
    }
}

// The branch behind `else`, where there is one.
#[cycle(walk)]
fn else_branch(
    context: &mut Context,
    otherwise: &Option<Boxed<Stmt>>,
    here: Site<'_>,
) -> Result<Option<Boxed<CoreStmt>>, Stop>
    ensures { Checks (λ other. otherwise_of (option_map view_stmt other)) result (scope_of context.new) (walks.else_walk (view_site here.entry) (option_stmt_tree (option_map stmt_view otherwise.now)) (scope_of context.old)) }
{
    match otherwise {
        None => Ok(None),
        Some(inner) => {
            let one = scoped(context, inner.get(), here)?;
            Ok(Some(one))
        }
    }
}

// `switch` (6.8.4.2).
#[cycle(walk)]
fn switch_form(
    context: &mut Context,
    body: &Stmt,
    here: Site<'_>,
    on: &Expr,
    lines: &Items<u32>,
) -> Result<Stated, Stop>
    ensures { Checks view_stated result (scope_of context.new) (walks.stmt_walk (view_site here.entry) (Switch (expr_view on.now) (stmt_view body.now) lines.now) (scope_of context.old)) }
{
    let begun = tested_begins(context, on)?;
    switch_rest(context, body, here, begun, own_line(lines))
}

// A `switch` behind the expression that controls it.
#[cycle(walk)]
fn switch_rest(
    context: &mut Context,
    body: &Stmt,
    here: Site<'_>,
    begun: Tested,
    line: u32,
) -> Result<Stated, Stop>
    ensures { Checks view_stated result (scope_of context.new) (walks.switch_rest (view_site here.entry) (view_tested begun) (stmt_view body.now) line (scope_of context.old)) }
{
    let inner = inside_switch(context, &begun.test)?;
    switch_body(context, body, here, begun, inner, line)
}

// The body of a `switch`.
#[cycle(walk)]
fn switch_body(
    context: &mut Context,
    body: &Stmt,
    here: Site<'_>,
    begun: Tested,
    inner: Within,
    line: u32,
) -> Result<Stated, Stop>
    ensures { Checks view_stated result (scope_of context.new) (walks.switch_body (view_site here.entry) (view_tested begun) (view_within inner) (stmt_view body.now) line (scope_of context.old)) }
{
    let one = scoped(context, body, here.in_switch(inner.ty.get()))?;
    switch_ended(context, begun, line, inner.around, one)
}

// `while` (6.8.5.1).
#[cycle(walk)]
fn while_form(
    context: &mut Context,
    body: &Stmt,
    here: Site<'_>,
    condition: &Expr,
    lines: &Items<u32>,
) -> Result<Stated, Stop>
    ensures { Checks view_stated result (scope_of context.new) (walks.stmt_walk (view_site here.entry) (While (expr_view condition.now) (stmt_view body.now) lines.now) (scope_of context.old)) }
{
    let begun = tested_begins(context, condition)?;
    while_rest(context, body, here, begun, own_line(lines))
}

// The body of `while`.
#[cycle(walk)]
fn while_rest(
    context: &mut Context,
    body: &Stmt,
    here: Site<'_>,
    begun: Tested,
    line: u32,
) -> Result<Stated, Stop>
    ensures { Checks view_stated result (scope_of context.new) (walks.while_rest (view_site here.entry) (view_tested begun) (stmt_view body.now) line (scope_of context.old)) }
{
    let one = scoped(context, body, here.in_loop())?;
    while_ended(context, begun, line, one)
}

// `do` (6.8.5.2).
#[cycle(walk)]
fn do_form(
    context: &mut Context,
    body: &Stmt,
    here: Site<'_>,
    condition: &Expr,
    lines: &Items<u32>,
) -> Result<Stated, Stop>
    ensures { Checks view_stated result (scope_of context.new) (walks.stmt_walk (view_site here.entry) (Do (stmt_view body.now) (expr_view condition.now) lines.now) (scope_of context.old)) }
{
    let marks = scope_begins(context);
    let one = scoped(context, body, here.in_loop())?;
    do_ends(context, marks, own_line(lines), condition, one)
}

// `for` (6.8.5.3).
#[cycle(walk)]
fn for_form(
    context: &mut Context,
    body: &Stmt,
    here: Site<'_>,
    first: &ForFirst,
    second: &Option<Boxed<Expr>>,
    third: &Option<Boxed<Expr>>,
    lines: &Items<u32>,
) -> Result<Stated, Stop>
    ensures { Checks view_stated result (scope_of context.new) (walks.for_walk (view_site here.entry) (first_view first.now) (option_expr_tree (option_map expr_view second.now)) (option_expr_tree (option_map expr_view third.now)) (stmt_view body.now) (own_line lines.now) (scope_of context.old)) }
{
    let begun = for_begins(context, first, second, third)?;
    for_rest(context, body, here, begun, own_line(lines))
}

// The body of `for`.
#[cycle(walk)]
fn for_rest(
    context: &mut Context,
    body: &Stmt,
    here: Site<'_>,
    begun: ForBegun,
    line: u32,
) -> Result<Stated, Stop>
    ensures { Checks view_stated result (scope_of context.new) (walks.for_rest (view_site here.entry) (view_for begun) (stmt_view body.now) line (scope_of context.old)) }
{
    let one = scoped(context, body, here.in_loop())?;
    for_ended(context, begun, line, one)
}

/// The items of a block from the left (ISO C99, 6.8.2).
#[cycle(walk)]
pub(crate) fn items(
    context: &mut Context,
    list: &[BlockItem],
    here: Site<'_>,
) -> Result<Meant, Stop>
    ensures { Checks view_meant result (scope_of context.new) (walks.items_walk (view_site here.entry) (item_trees (map item_view list.now)) (scope_of context.old)) }
{
    let mut all = Meant::new(context.alloc());
    for one in list {
        let more = item(context, one, here)?;
        all.add(more)?;
    }
    Ok(all)
}

// An item of a block.
#[cycle(walk)]
fn item(context: &mut Context, one: &BlockItem, here: Site<'_>) -> Result<Meant, Stop>
    ensures { Checks view_meant result (scope_of context.new) (walks.item_walk (view_site here.entry) (item_view one.now) (scope_of context.old)) }
{
    match one {
        BlockItem::Statement(inner) => {
            let made = stmt(context, inner.get(), here)?;
            let all = as_meant(context.alloc(), made)?;
            Ok(all)
        }
        BlockItem::Declaration(declared) => decl(context, SpecsPlace::Block, declared.get()),
    }
}

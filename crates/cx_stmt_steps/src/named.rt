//! Labels of a function (ISO C99, 6.8.1).

ghost use Rattle.std.specs.Prelude.{◌≡◌, [], map, option_map, IfOk, OnOk};
ghost use Rattle.cx_context.specs.Checks.{Checks};
ghost use Rattle.cx_context.specs.Views.{scope_of};
ghost use Rattle.cx_core.specs.Trees.{label};
ghost use Rattle.cx_rules.specs.UnitWalk.{labelled, labels_of};
ghost use Rattle.cx_stmt_steps.specs.Changes.{with_label};
ghost use Rattle.cx_stmt_steps.specs.Labels.{labels_behind, else_labels_behind, item_labels_behind, items_labels_behind};
ghost use Rattle.cx_stmt_steps.specs.Steps as steps;
ghost use Rattle.cx_stmt_steps.specs.Views.{view_stated};
ghost use Rattle.cx_tree.specs.Views.{stmt_view, option_stmt as option_stmt_tree, item_view, items as item_trees};

use crate::forms::label_stmt;
use crate::labels::{add_label, labels_in};
use crate::stated::Stated;
use cr_base::{Boxed, Items, Memory, Name, Place, Stop};
use cx_context::Context;
use cx_stmt_breaks::label_rule;
use cx_tree::{BlockItem, Stmt};
use std::alloc::Global;

/// The labels that stand in a statement. Refused only for want of memory.
pub fn labels_of(alloc: Global, stmt: &Stmt) -> Result<Items<Name>, Memory>
    ensures { IfOk result (λ labels. labels ≡ labels_of (stmt_view stmt.now)) }
{
    let mut found = Items::new(alloc);
    add_labels(stmt, &mut found)?;
    Ok(found)
}

// Adds the labels that stand in a statement.
#[cycle(labels)]
fn add_labels(stmt: &Stmt, found: &mut Items<Name>) -> Result<(), Memory>
    ensures { OnOk result (found.new ≡ labels_behind found.old (stmt_view stmt.now)) }
{
    match stmt {
        Stmt::Label {
            name,
            stmt: inner,
            ..
        } => {
            let own = name.copy()?;
            found.push(own)?;
            add_labels(inner.get(), found)
        }
        Stmt::Case { stmt: inner, .. } => add_labels(inner.get(), found),
        Stmt::Default { stmt: inner, .. } => add_labels(inner.get(), found),
        Stmt::Block { items, .. } => add_items_labels(items.as_slice(), found),
        Stmt::If {
            branch,
            otherwise,
            ..
        } => {
            add_labels(branch.get(), found)?;
            add_else_labels(otherwise, found)
        }
        Stmt::Switch { body, .. } => add_labels(body.get(), found),
        Stmt::While { body, .. } => add_labels(body.get(), found),
        Stmt::Do { body, .. } => add_labels(body.get(), found),
        Stmt::For { body, .. } => add_labels(body.get(), found),
        Stmt::Expr { .. }
        | Stmt::Goto { .. }
        | Stmt::Continue { .. }
        | Stmt::Break { .. }
        | Stmt::Return { .. } => Ok(()),
    }
}

#[cycle(labels)]
fn add_else_labels(otherwise: &Option<Boxed<Stmt>>, found: &mut Items<Name>) -> Result<(), Memory>
    ensures { OnOk result (found.new ≡ else_labels_behind found.old (option_stmt_tree (option_map stmt_view otherwise.now))) }
{
    match otherwise {
        None => Ok(()),
        Some(inner) => add_labels(inner.get(), found),
    }
}

// Adds the labels that stand in the items of a block.
#[cycle(labels)]
fn add_items_labels(items: &[BlockItem], found: &mut Items<Name>) -> Result<(), Memory>
    ensures { OnOk result (found.new ≡ items_labels_behind found.old (item_trees (map item_view items.now))) }
{
    for one in items {
        add_item_labels(one, found)?;
    }
    Ok(())
}

#[cycle(labels)]
fn add_item_labels(one: &BlockItem, found: &mut Items<Name>) -> Result<(), Memory>
    ensures { OnOk result (found.new ≡ item_labels_behind found.old (item_view one.now)) }
{
    match one {
        BlockItem::Statement(inner) => add_labels(inner.get(), found),
        BlockItem::Declaration(_) => Ok(()),
    }
}

/// A label (ISO C99, 6.8.1).
pub fn label_seen(
    context: &mut Context,
    name: &Name,
    line: u32,
    inner: Stated,
) -> Result<Stated, Stop>
    ensures { Checks view_stated result (scope_of context.new) (steps.label_seen name.now line (view_stated inner) (scope_of context.old)) }
{
    let before = labels_so_far(context);
    if let Some(rule) = label_rule(name, before) {
        return Err(context.refused(rule, line));
    }
    let at = context.at_line(line);
    let made = label_of(context.alloc(), at, name, inner)?;
    label_added(context, name)?;
    Ok(made)
}

fn labels_so_far(context: &Context) -> &[Name]
    ensures { result.now ≡ (scope_of context.now).body.labels }
{
    labels_in(context.scope())
}

fn label_of(alloc: Global, at: Place, name: &Name, inner: Stated) -> Result<Stated, Memory>
    ensures { IfOk result (λ made. view_stated made ≡ labelled at (label name.now) (view_stated inner)) }
{
    let own = name.copy()?;
    let stmt = label_stmt(alloc, at, own, inner.stmt)?;
    Ok(Stated {
        stmt,
        objects: inner.objects,
    })
}

fn label_added(context: &mut Context, name: &Name) -> Result<(), Memory>
    ensures { OnOk result (scope_of context.new ≡ with_label name.now (scope_of context.old)) }
{
    let own = name.copy()?;
    add_label(&mut context.scope, own)?;
    Ok(())
}

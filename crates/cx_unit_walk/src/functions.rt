//! Definitions of functions, and the external declarations of a unit (ISO C99, 6.9).
#![tactic(auto, unfolding(cx_rules::specs::Readings::check_chain, cx_rules::specs::Readings::check_gives, cx_rules::specs::Readings::check_here, cx_rules::specs::Readings::check_becomes))]

ghost use Rattle.std.specs.Prelude.{◌≡◌, map, IfOk};
ghost use Rattle.cx_context.specs.Checks.{Checks};
ghost use Rattle.cx_context.specs.Views.{scope_of};
ghost use Rattle.cx_core.specs.Trees.{block, stmt};
ghost use Rattle.cx_core.specs.Views.{view_function_type, view_stmt, view_type};
ghost use Rattle.cx_unit_walk.specs.Functions.{given_by, in_function, result_in};
ghost use Rattle.cx_unit_walk.specs.Walks as walks;
ghost use Rattle.cx_decl_steps.specs.Views.{view_head, view_meant};
ghost use Rattle.cx_rules.specs.UnitWalk.{stmts_of};
ghost use Rattle.cx_stmt_steps.specs.Views.{view_site};
ghost use Rattle.cx_tree.specs.Views.{definition_view, external_view, item_view, items as item_trees, stmt_view};

use crate::statements::{items, stmt};
use cr_base::{Boxed, Memory, Name, Place, Stop};
use cx_context::Context;
use cx_core::{Basic, CoreStmt, FunctionTy, Ty, TyForm};
use cx_declarations::{Head, Meant, body_ended, decl, definition_begins};
use cx_rules::SpecsPlace;
use cx_shapes::own_line;
use cx_stmt_steps::{Site, as_block, block_stmt, labels_of};
use cx_tree::{BlockItem, Definition, External, Stmt};
use std::alloc::Global;

/// The external declarations of a unit, in text order (ISO C99, 6.9).
pub fn externals(context: &mut Context, list: &[External]) -> Result<(), Stop>
    ensures { Checks (λ (_ : Unit {0}). tt) result (scope_of context.new) (walks.externals_walk (map external_view list.now) (scope_of context.old)) }
{
    for one in list {
        external(context, one)?;
    }
    Ok(())
}

fn external(context: &mut Context, one: &External) -> Result<(), Stop>
    ensures { Checks (λ (_ : Unit {0}). tt) result (scope_of context.new) (walks.external_walk (external_view one.now) (scope_of context.old)) }
{
    match one {
        External::Function(defined) => definition(context, defined.get()),
        External::Declaration(declared) => {
            let _meant = decl(context, SpecsPlace::File, declared.get())?;
            Ok(())
        }
    }
}

// The definition of a function (6.9.1).
#[tactic(auto, using(crate::proofs::Heads::definition_walk_is), unfolding(cx_rules::specs::Readings::check_chain, cx_rules::specs::Readings::check_gives, cx_rules::specs::Readings::check_here, cx_rules::specs::Readings::check_becomes))]
fn definition(context: &mut Context, one: &Definition) -> Result<(), Stop>
    ensures { Checks (λ (_ : Unit {0}). tt) result (scope_of context.new) (walks.definition_walk (definition_view one.now) (scope_of context.old)) }
{
    let head = definition_begins(context, one.specs.as_slice(), one.declarator.get())?;
    definition_rest(context, one.body.get(), head)
}

// A definition behind its head.
fn definition_rest(context: &mut Context, body: &Stmt, head: Head) -> Result<(), Stop>
    ensures { Checks (λ (_ : Unit {0}). tt) result (scope_of context.new) (walks.definition_rest (stmt_view body.now) (view_head head) (scope_of context.old)) }
{
    let made = function_body(context, body, &head)?;
    body_ended(context, head, made)
}

// The body of a function: a block, whose scope is that of the parameters (6.2.1p4).
fn function_body(context: &mut Context, body: &Stmt, head: &Head) -> Result<Boxed<CoreStmt>, Stop>
    ensures { Checks view_stmt result (scope_of context.new) (walks.body_walk (view_head head.now) (stmt_view body.now) (scope_of context.old)) }
{
    let labels = labels_of(context.alloc(), body)?;
    let result_ty = result_of(context.alloc(), head.ty.get())?;
    body_in(context, body, result_ty.get(), labels.as_slice())
}

// What a function type gives; no other type comes here. Refused only for want of memory.
fn result_of(alloc: Global, t: &Ty) -> Result<Boxed<Ty>, Memory>
    ensures { IfOk result (λ made. view_type made ≡ result_in (view_type t.now)) }
{
    match &t.form {
        TyForm::Function(held) => given_by(alloc, held.get()),
        TyForm::Void
        | TyForm::Basic(_)
        | TyForm::Enum(_)
        | TyForm::Pointer(_)
        | TyForm::Array(_, _)
        | TyForm::Record(_) => Boxed::new(alloc, Ty::basic(Basic::Int)),
    }
}

#[tactic(auto, using(crate::proofs::Heads::given_view))]
fn given_by(alloc: Global, held: &FunctionTy) -> Result<Boxed<Ty>, Memory>
    ensures { IfOk result (λ made. view_type made ≡ given_by (view_function_type held.now)) }
{
    held.result_ty.copy(alloc)
}

// The body of a function with a result of a type, and with these labels.
fn body_in<'a>(
    context: &mut Context,
    body: &Stmt,
    result_ty: &'a Ty,
    labels: &'a [Name],
) -> Result<Boxed<CoreStmt>, Stop>
    ensures { Checks view_stmt result (scope_of context.new) (walks.body_at (in_function (view_type result_ty.now) labels.now) (stmt_view body.now) (scope_of context.old)) }
{
    let here = Site {
        result_ty,
        labels,
        in_loop: false,
        switch_ty: None,
    };
    body_at(context, body, here)
}

// The body of a function, by where it stands.
fn body_at(context: &mut Context, body: &Stmt, here: Site<'_>) -> Result<Boxed<CoreStmt>, Stop>
    ensures { Checks view_stmt result (scope_of context.new) (walks.body_at (view_site here.entry) (stmt_view body.now) (scope_of context.old)) }
{
    match body {
        Stmt::Block { items: list, lines } => block_body(
            context,
            list.as_slice(),
            here,
            own_line(lines),
        ),
        Stmt::Label { .. }
        | Stmt::Case { .. }
        | Stmt::Default { .. }
        | Stmt::Expr { .. }
        | Stmt::If { .. }
        | Stmt::Switch { .. }
        | Stmt::While { .. }
        | Stmt::Do { .. }
        | Stmt::For { .. }
        | Stmt::Goto { .. }
        | Stmt::Continue { .. }
        | Stmt::Break { .. }
        | Stmt::Return { .. } => other_body(context, body, here),
    }
}

fn block_body(
    context: &mut Context,
    list: &[BlockItem],
    here: Site<'_>,
    line: u32,
) -> Result<Boxed<CoreStmt>, Stop>
    ensures { Checks view_stmt result (scope_of context.new) (walks.block_body (view_site here.entry) line (item_trees (map item_view list.now)) (scope_of context.old)) }
{
    let all = items(context, list, here)?;
    let made = body_stmt(context.alloc(), context.at_line(line), all)?;
    Ok(made)
}

// A statement that is no block, as a body. No definition has one.
fn other_body(context: &mut Context, body: &Stmt, here: Site<'_>) -> Result<Boxed<CoreStmt>, Stop>
    ensures { Checks view_stmt result (scope_of context.new) (walks.other_body (view_site here.entry) (stmt_view body.now) (scope_of context.old)) }
{
    let one = stmt(context, body, here)?;
    let made = as_block(context.alloc(), one)?;
    Ok(made)
}

fn body_stmt(alloc: Global, place: Place, all: Meant) -> Result<Boxed<CoreStmt>, Memory>
    ensures { IfOk result (λ made. view_stmt made ≡ stmt place (view_meant all).objects (block (stmts_of (view_meant all).stmts))) }
{
    block_stmt(alloc, place, all.objects, all.stmts)
}

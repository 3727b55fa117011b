//! Jumps (ISO C99, 6.8.6).

ghost use Rattle.std.specs.Prelude.{◌≡◌, ◌||◌, [], None, Some, is_some, map, option_map, IfOk};
ghost use Rattle.cx_context.specs.Checks.{Checks};
ghost use Rattle.cx_context.specs.Views.{scope_of};
ghost use Rattle.cx_core.specs.Trees.{break, continue, goto, returns};
ghost use Rattle.cx_core.specs.Views.{view_type, view_types};
ghost use Rattle.cx_operands.specs.Views.{view_operand};
ghost use Rattle.cx_rules.specs.Operands.{fitted, value_of};
ghost use Rattle.cx_rules.specs.UnitWalk.{stated};
ghost use Rattle.cx_stmt_steps.specs.Steps as steps;
ghost use Rattle.cx_stmt_steps.specs.Views.{view_site, view_stated};

use crate::forms::{break_stmt, continue_stmt, goto_stmt, return_stmt};
use crate::literals::literals_since;
use crate::site::Site;
use crate::stated::Stated;
use cr_base::{Items, Memory, Name, Place, Stop};
use cx_context::Context;
use cx_core::{Ty, Types};
use cx_operands::Operand;
use cx_operators::fitted_value;
use cx_stmt_breaks::{goto_rule, jump_rule, return_rule};
use std::alloc::Global;

/// `goto` (ISO C99, 6.8.6.1).
pub fn goto_seen(context: &Context, here: Site<'_>, name: &Name, line: u32) -> Result<Stated, Stop>
    ensures { Checks view_stated result (scope_of context.now) (steps.goto_seen (view_site here.entry) name.now line (scope_of context.now)) }
{
    if let Some(rule) = goto_rule(name, here.labels) {
        return Err(context.refused(rule, line));
    }
    let at = context.at_line(line);
    let made = goto_of(context.alloc(), at, name)?;
    Ok(made)
}

fn goto_of(alloc: Global, at: Place, name: &Name) -> Result<Stated, Memory>
    ensures { IfOk result (λ made. view_stated made ≡ stated at (goto name.now) []) }
{
    let own = name.copy()?;
    let stmt = goto_stmt(alloc, at, own)?;
    Ok(Stated {
        stmt,
        objects: Items::new(alloc),
    })
}

/// `continue` (ISO C99, 6.8.6.2).
pub fn continue_seen(context: &Context, here: Site<'_>, line: u32) -> Result<Stated, Stop>
    ensures { Checks view_stated result (scope_of context.now) (steps.jump_seen line (view_site here.entry).in_loop continue (scope_of context.now)) }
{
    let is_inside = here.in_loop;
    if let Some(rule) = jump_rule(is_inside) {
        return Err(context.refused(rule, line));
    }
    let at = context.at_line(line);
    let made = continue_of(context.alloc(), at)?;
    Ok(made)
}

fn continue_of(alloc: Global, at: Place) -> Result<Stated, Memory>
    ensures { IfOk result (λ made. view_stated made ≡ stated at continue []) }
{
    let stmt = continue_stmt(alloc, at)?;
    Ok(Stated {
        stmt,
        objects: Items::new(alloc),
    })
}

/// `break` (ISO C99, 6.8.6.3).
pub fn break_seen(context: &Context, here: Site<'_>, line: u32) -> Result<Stated, Stop>
    ensures { Checks view_stated result (scope_of context.now) (steps.jump_seen line ((view_site here.entry).in_loop || is_some (view_site here.entry).in_switch) break (scope_of context.now)) }
{
    let is_inside = here.may_break();
    if let Some(rule) = jump_rule(is_inside) {
        return Err(context.refused(rule, line));
    }
    let at = context.at_line(line);
    let made = break_of(context.alloc(), at)?;
    Ok(made)
}

fn break_of(alloc: Global, at: Place) -> Result<Stated, Memory>
    ensures { IfOk result (λ made. view_stated made ≡ stated at break []) }
{
    let stmt = break_stmt(alloc, at)?;
    Ok(Stated {
        stmt,
        objects: Items::new(alloc),
    })
}

/// `return`, before whose value there were so many literals (ISO C99, 6.8.6.4).
pub fn return_seen(
    context: &Context,
    here: Site<'_>,
    literals: u64,
    line: u32,
    value: Option<Operand>,
) -> Result<Stated, Stop>
    ensures { Checks view_stated result (scope_of context.now) (steps.return_seen (view_site here.entry) literals line (option_map view_operand value) (scope_of context.now)) }
{
    match value {
        None => nothing_returned(context, here, literals, line),
        Some(one) => value_returned(context, here, literals, line, one),
    }
}

// `return` without a value.
fn nothing_returned(
    context: &Context,
    here: Site<'_>,
    _literals: u64,
    line: u32,
) -> Result<Stated, Stop>
    ensures { Checks view_stated result (scope_of context.now) (steps.return_seen (view_site here.entry) _literals line None (scope_of context.now)) }
{
    let known = context.known();
    if let Some(rule) = return_rule(known, here.result_ty, None) {
        return Err(context.refused(rule, line));
    }
    let at = context.at_line(line);
    let made = empty_return(context.alloc(), at)?;
    Ok(made)
}

fn empty_return(alloc: Global, at: Place) -> Result<Stated, Memory>
    ensures { IfOk result (λ made. view_stated made ≡ stated at (returns None) []) }
{
    let stmt = return_stmt(alloc, at, None)?;
    Ok(Stated {
        stmt,
        objects: Items::new(alloc),
    })
}

// `return` with a value.
fn value_returned(
    context: &Context,
    here: Site<'_>,
    literals: u64,
    line: u32,
    value: Operand,
) -> Result<Stated, Stop>
    ensures { Checks view_stated result (scope_of context.now) (steps.return_seen (view_site here.entry) literals line (Some (view_operand value)) (scope_of context.now)) }
{
    let known = context.known();
    if let Some(rule) = return_rule(known, here.result_ty, Some(&value)) {
        return Err(context.refused(rule, line));
    }
    let at = context.at_line(line);
    let objects = literals_since(context, literals)?;
    let made = return_of(
        context.alloc(),
        known.types,
        at,
        here.result_ty,
        value,
        objects,
    )?;
    Ok(made)
}

fn return_of(
    alloc: Global,
    types: &Types,
    at: Place,
    result_ty: &Ty,
    value: Operand,
    objects: Items<u32>,
) -> Result<Stated, Memory>
    ensures { IfOk result (λ made. view_stated made ≡
        stated at (returns (Some (fitted (view_types types.now) (view_type result_ty.now) (value_of (view_operand value))))) objects) }
{
    let value = fitted_value(alloc, types, result_ty, value)?;
    let stmt = return_stmt(alloc, at, Some(value))?;
    Ok(Stated { stmt, objects })
}

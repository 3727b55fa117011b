//! Expression statements and controlling expressions (ISO C99, 6.8.3, 6.8.4, 6.8.5).

ghost use Rattle.std.specs.Prelude.{◌≡◌, IfOk, Some};
ghost use Rattle.cx_context.specs.Checks.{Checks};
ghost use Rattle.cx_context.specs.Views.{scope_of};
ghost use Rattle.cx_core.specs.Views.{view_expr};
ghost use Rattle.cx_operands.specs.Views.{view_operand};
ghost use Rattle.cx_rules.specs.Operands.{dropped, value_of};
ghost use Rattle.cx_stmt_steps.specs.Steps as steps;
ghost use Rattle.cx_stmt_steps.specs.Views.{view_stated};

use crate::forms::{expression_stmt, null_stmt};
use crate::literals::literals_since;
use crate::stated::Stated;
use cr_base::{Boxed, Items, Memory, Stop};
use cx_context::Context;
use cx_core::CoreExpr;
use cx_operands::Operand;
use cx_stmt_breaks::{controls_rule, dropped_rule};
use cx_values::{dropped, value_of};
use std::alloc::Global;

/// The null statement (ISO C99, 6.8.3p3).
#[tactic(auto, unfolding(cx_rules::specs::Readings::check_chain, cx_rules::specs::Readings::check_here, cx_rules::specs::Readings::check_gives))]
pub fn null_seen(context: &Context, line: u32) -> Result<Stated, Stop>
    ensures { Checks view_stated result (scope_of context.now) (steps.null_seen line (scope_of context.now)) }
{
    let stmt = null_stmt(context.alloc(), context.at_line(line))?;
    Ok(Stated {
        stmt,
        objects: Items::new(context.alloc()),
    })
}

/// An expression whose value isn't taken (ISO C99, 6.8.3p2).
pub fn dropped_seen(context: &Context, line: u32, value: Operand) -> Result<Boxed<CoreExpr>, Stop>
    ensures { Checks view_expr result (scope_of context.now) (steps.dropped_seen line (view_operand value) (scope_of context.now)) }
{
    let known = context.known();
    if let Some(rule) = dropped_rule(known, &value) {
        return Err(context.refused(rule, line));
    }
    let made = dropped_value(context.alloc(), value)?;
    Ok(made)
}

fn dropped_value(alloc: Global, value: Operand) -> Result<Boxed<CoreExpr>, Memory>
    ensures { IfOk result (λ made. view_expr made ≡ dropped (value_of (view_operand value))) }
{
    let value = value_of(alloc, value)?;
    dropped(alloc, value)
}

/// An expression statement has ended, before which there were so many literals (ISO C99, 6.8.3).
#[tactic(auto, unfolding(cx_rules::specs::Readings::check_chain, cx_rules::specs::Readings::check_here, cx_rules::specs::Readings::check_gives))]
pub fn expression_ended(
    context: &Context,
    literals: u64,
    line: u32,
    value: Boxed<CoreExpr>,
) -> Result<Stated, Stop>
    ensures { Checks view_stated result (scope_of context.now) (steps.expression_ended literals line (view_expr value) (scope_of context.now)) }
{
    let objects = literals_since(context, literals)?;
    let stmt = expression_stmt(context.alloc(), context.at_line(line), value)?;
    Ok(Stated { stmt, objects })
}

/// The expression that controls `if` or a loop (ISO C99, 6.8.4.1p1, 6.8.5p2).
pub fn controls_seen(context: &Context, line: u32, value: &Operand) -> Result<(), Stop>
    ensures { Checks (λ (_ : Unit {0}). tt) result (scope_of context.now) (steps.controls_seen line (view_operand value.now) (scope_of context.now)) }
{
    let known = context.known();
    if let Some(rule) = controls_rule(known, value) {
        return Err(context.refused(rule, line));
    }
    Ok(())
}

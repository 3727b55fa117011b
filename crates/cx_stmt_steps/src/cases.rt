//! `switch`, and its labels (ISO C99, 6.8.1, 6.8.4.2).

ghost use Rattle.std.specs.Prelude.{◌≡◌, [], false, option_map, IfOk, OnOk};
ghost use Rattle.cx_context.specs.Checks.{Checks};
ghost use Rattle.cx_context.specs.Views.{scope_of};
ghost use Rattle.cx_core.specs.Trees.{case, default};
ghost use Rattle.cx_core.specs.Views.{view_expr, view_stmt, view_type, view_types};
ghost use Rattle.cx_operands.specs.Views.{view_operand};
ghost use Rattle.cx_rules.specs.Operands.{promoted_type};
ghost use Rattle.cx_rules.specs.UnitWalk.{case_number, labelled};
ghost use Rattle.cx_stmt_steps.specs.CaseNumbers.{case_for};
ghost use Rattle.cx_stmt_steps.specs.Changes.{with_case, with_cases, with_default};
ghost use Rattle.cx_stmt_steps.specs.Steps as steps;
ghost use Rattle.cx_stmt_steps.specs.Views.{view_site, view_stated};

use crate::ends::Tested;
use crate::forms::{case_stmt, default_stmt, switch_stmt};
use crate::labels::{
    Cases, add_case, begin_switch, cases_in, end_switch, has_default, set_default,
};
use crate::marks::whole_ended;
use crate::site::Site;
use crate::stated::Stated;
use cr_base::{Boxed, Int, Memory, Place, Stop};
use cx_context::Context;
use cx_core::{CoreExpr, CoreStmt, Ty, Types};
use cx_operands::Operand;
use cx_operators::{promoted_ty, promoted_value};
use cx_stmt_breaks::{case_rule, case_value, default_rule, switch_rule};
use std::alloc::Global;

/// A `case` label (ISO C99, 6.8.1, 6.8.4.2p3).
#[tactic(auto, using(crate::proofs::CaseNumbers::case_is), unfolding(cx_rules::specs::Readings::check_chain, cx_rules::specs::Readings::check_here))]
pub fn case_seen(
    context: &mut Context,
    here: Site<'_>,
    line: u32,
    value: &Operand,
    inner: Stated,
) -> Result<Stated, Stop>
    ensures { Checks view_stated result (scope_of context.new) (steps.case_seen (view_site here.entry) line (view_operand value.now) (view_stated inner) (scope_of context.old)) }
{
    case_stated(context, here, line, value, inner)
}

// A `case` label with its value.
fn case_stated(
    context: &mut Context,
    here: Site<'_>,
    line: u32,
    value: &Operand,
    inner: Stated,
) -> Result<Stated, Stop>
    ensures { Checks view_stated result (scope_of context.new) (steps.case_as (view_site here.entry) line (view_operand value.now) (view_stated inner) (scope_of context.old)
        (case_for (scope_of context.old).types (view_site here.entry).in_switch (view_operand value.now)) (scope_of context.old)) }
{
    let known = context.known();
    let before = cases_so_far(context);
    if let Some(rule) = case_rule(known, here.switch_ty, value, before) {
        return Err(context.refused(rule, line));
    }
    let number = number_for(known.types, here.switch_ty, value);
    let at = context.at_line(line);
    let made = case_of(context.alloc(), at, number, inner)?;
    case_added(context, number)?;
    Ok(made)
}

fn cases_so_far(context: &Context) -> &[Int]
    ensures { result.now ≡ (scope_of context.now).body.cases }
{
    cases_in(context.scope())
}

// The value of a `case` label in a `switch` of a type, and 0 where it has none.
fn number_for(types: &Types, switch_ty: Option<&Ty>, value: &Operand) -> Int
    ensures { result ≡ case_number (case_for (view_types types.now) (option_map (λ t. view_type t.now) switch_ty.entry) (view_operand value.now)) }
{
    match switch_ty {
        None => 0,
        Some(t) => or_zero(case_value(types, t, value)),
    }
}

fn or_zero(value: Option<Int>) -> Int
    ensures { result ≡ case_number value }
{
    match value {
        None => 0,
        Some(number) => number,
    }
}

fn case_of(alloc: Global, at: Place, number: Int, inner: Stated) -> Result<Stated, Memory>
    ensures { IfOk result (λ made. view_stated made ≡ labelled at (case number) (view_stated inner)) }
{
    let stmt = case_stmt(alloc, at, number, inner.stmt)?;
    Ok(Stated {
        stmt,
        objects: inner.objects,
    })
}

fn case_added(context: &mut Context, number: Int) -> Result<(), Memory>
    ensures { OnOk result (scope_of context.new ≡ with_case number (scope_of context.old)) }
{
    add_case(&mut context.scope, number)?;
    Ok(())
}

/// A `default` label (ISO C99, 6.8.1, 6.8.4.2p3).
pub fn default_seen(
    context: &mut Context,
    here: Site<'_>,
    line: u32,
    inner: Stated,
) -> Result<Stated, Stop>
    ensures { Checks view_stated result (scope_of context.new) (steps.default_seen (view_site here.entry) line (view_stated inner) (scope_of context.old)) }
{
    let before = had_default(context);
    if let Some(rule) = default_rule(here.switch_ty, before) {
        return Err(context.refused(rule, line));
    }
    let at = context.at_line(line);
    let made = default_of(context.alloc(), at, inner)?;
    default_added(context);
    Ok(made)
}

fn had_default(context: &Context) -> bool
    ensures { result ≡ (scope_of context.now).body.has_default }
{
    has_default(context.scope())
}

fn default_of(alloc: Global, at: Place, inner: Stated) -> Result<Stated, Memory>
    ensures { IfOk result (λ made. view_stated made ≡ labelled at default (view_stated inner)) }
{
    let stmt = default_stmt(alloc, at, inner.stmt)?;
    Ok(Stated {
        stmt,
        objects: inner.objects,
    })
}

fn default_added(context: &mut Context)
    ensures { scope_of context.new ≡ with_default (scope_of context.old) }
{
    set_default(&mut context.scope);
}

/// A `switch` begins: gives the labels of the one around it, and the promoted type of its expression (ISO C99, 6.8.4.2p5).
pub fn switch_begins(context: &mut Context, value: &Operand) -> Result<(Cases, Boxed<Ty>), Memory>
    ensures scope { OnOk result (scope_of context.new ≡ with_cases [] false (scope_of context.old)) }
    ensures values { IfOk result (λ made. made.0.values ≡ (scope_of context.old).body.cases) }
    ensures has_default { IfOk result (λ made. made.0.has_default ≡ (scope_of context.old).body.has_default) }
    ensures promoted { IfOk result (λ made. view_type made.1 ≡ promoted_type (scope_of context.old).types (view_operand value.now)) }
{
    let ty = promoted_ty(context.alloc(), context.scope().types(), value)?;
    let around = begin_switch(&mut context.scope);
    Ok((around, ty))
}

// The expression that controls a `switch` (ISO C99, 6.8.4.2p1).
fn switch_seen(
    context: &mut Context,
    line: u32,
    around: Cases,
    value: Operand,
) -> Result<Boxed<CoreExpr>, Stop>
    ensures { Checks view_expr result (scope_of context.new) (steps.switch_seen line around.values around.has_default (view_operand value) (scope_of context.old)) }
{
    let known = context.known();
    if let Some(rule) = switch_rule(known, &value) {
        return Err(context.refused(rule, line));
    }
    let made = promoted_value(context.alloc(), known.types, value)?;
    labels_again(context, around);
    Ok(made)
}

fn labels_again(context: &mut Context, around: Cases)
    ensures { scope_of context.new ≡ with_cases around.values around.has_default (scope_of context.old) }
{
    end_switch(&mut context.scope, around);
}

/// A `switch` has ended (ISO C99, 6.8.4.2).
#[tactic(auto, unfolding(cx_rules::specs::Readings::check_chain, cx_rules::specs::Readings::check_here, cx_rules::specs::Readings::check_gives, cx_rules::specs::Readings::check_becomes))]
pub fn switch_ended(
    context: &mut Context,
    begun: Tested,
    line: u32,
    around: Cases,
    body: Boxed<CoreStmt>,
) -> Result<Stated, Stop>
    ensures { Checks view_stated result (scope_of context.new) (steps.switch_ended begun.marks.count begun.marks.begins (view_operand begun.test) begun.literals line around.values around.has_default (view_stmt body) (scope_of context.old)) }
{
    let value = switch_seen(context, line, around, begun.test)?;
    let at = context.at_line(line);
    let stmt = switch_stmt(context.alloc(), at, begun.literals, value, body)?;
    Ok(whole_ended(context, begun.marks, stmt))
}

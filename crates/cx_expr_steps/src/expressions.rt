//! Nodes of expressions (ISO C99, 6.5).

ghost use Rattle.std.specs.Prelude.{◌≡◌, map, IfOk, None, Some, option_map};
ghost use Rattle.cr_base.specs.declared.refusal.Place.{Place as TextPlace};
ghost use Rattle.cx_context.specs.Checks.{Checks};
ghost use Rattle.cx_context.specs.Views.{scope_of};
ghost use Rattle.cx_core.specs.Views.{view_type};
ghost use Rattle.cx_operands.specs.Views.{view_operand};
ghost use Rattle.cx_rules.specs.Lines.{expr_line};
ghost use Rattle.cx_rules.specs.Meanings.{deref_meaning};
ghost use Rattle.cx_rules.specs.Operands.{value_of};
ghost use Rattle.cx_rules.specs.Pieces.{takes_address, follows, computes, tests_both, tests_either, operates, unary_of, binary_of, assignment_of, calls_by_name};
ghost use Rattle.cx_expr_steps.specs.Steps as steps;
ghost use Rattle.cx_expr_steps.specs.Views.{view_unary, view_binary};
ghost use Rattle.cx_tree.specs.Views.{expr_view};

use crate::marks::{Binary, Unary, assignment_of, binary_of, unary_of};
use cr_base::{Int, Items, Memory, Name, Place, Stop};
use cx_breaks::{
    address_rule, arrow_rule, assign_by_rule, assign_rule, binary_rule, cast_rule, comma_rule,
    cond_rule, deref_rule, dot_rule, index_rule, sizeof_type_rule, step_rule, tests_rule,
    unary_rule,
};
use cx_context::Context;
use cx_core::{Op1, Op2, Ty};
use cx_lex::{Punct, Ty0};
use cx_nodes::{
    address_meaning, arrow_meaning, cast_meaning, cond_meaning, deref_meaning, dot_meaning,
    index_meaning, int_meaning, number_meaning, size_meaning,
};
use cx_operands::Operand;
use cx_operators::{
    and_meaning, assign_by_meaning, assign_meaning, binary_meaning, comma_meaning, or_meaning,
    step_meaning, unary_meaning,
};
use cx_tree::Expr;
use cx_values::value_of;

/// An integer constant (ISO C99, 6.4.4.1).
#[tactic(auto, unfolding(cx_rules::specs::Readings::check_chain, cx_rules::specs::Readings::check_here, cx_rules::specs::Readings::check_gives))]
pub fn number_seen(context: &Context, value: u64, ty: Ty0, line: u32) -> Result<Operand, Stop>
    ensures { Checks view_operand result (scope_of context.now) (steps.number_seen value ty line (scope_of context.now)) }
{
    let made = number_meaning(context.alloc(), context.at_line(line), value, ty)?;
    Ok(made)
}

/// A character constant (ISO C99, 6.4.4.4).
#[tactic(auto, unfolding(cx_rules::specs::Readings::check_chain, cx_rules::specs::Readings::check_here, cx_rules::specs::Readings::check_gives))]
pub fn letter_seen(context: &Context, value: i32, line: u32) -> Result<Operand, Stop>
    ensures { Checks view_operand result (scope_of context.now) (steps.letter_seen value line (scope_of context.now)) }
{
    let made = int_meaning(context.alloc(), context.at_line(line), Int::from(value))?;
    Ok(made)
}

fn deref_of(context: &Context, at: Place, of: Operand) -> Result<Operand, Memory>
    ensures { IfOk result (λ made. view_operand made ≡ deref_meaning at (value_of (view_operand of))) }
{
    let value = value_of(context.alloc(), of)?;
    deref_meaning(context.alloc(), at, value)
}

/// A unary operator (ISO C99, 6.5.3.2, 6.5.3.3).
pub fn unary_seen(context: &Context, line: u32, op: Punct, on: Operand) -> Result<Operand, Stop>
    ensures { Checks view_operand result (scope_of context.now) (steps.unary_seen line (unary_of op) (view_operand on) (scope_of context.now)) }
{
    match unary_of(op) {
        Unary::TakesAddress => address_seen(context, line, on),
        Unary::Follows => deref_seen(context, line, on),
        Unary::Computes(op) => compute_seen(context, line, op, on),
    }
}

/// A binary operator (ISO C99, 6.5.5 to 6.5.14).
pub fn binary_seen(
    context: &Context,
    line: u32,
    op: Punct,
    left: Operand,
    right: Operand,
) -> Result<Operand, Stop>
    ensures { Checks view_operand result (scope_of context.now) (steps.binary_seen line (binary_of op) (view_operand left) (view_operand right) (scope_of context.now)) }
{
    match binary_of(op) {
        Binary::TestsBoth => and_seen(context, line, left, right),
        Binary::TestsEither => or_seen(context, line, left, right),
        Binary::Operates(op) => operate_seen(context, line, op, left, right),
    }
}

/// An assignment (ISO C99, 6.5.16).
pub fn assign_seen(
    context: &Context,
    line: u32,
    op: Punct,
    target: Operand,
    value: Operand,
) -> Result<Operand, Stop>
    ensures { Checks view_operand result (scope_of context.now) (steps.assign_seen line (assignment_of op) (view_operand target) (view_operand value) (scope_of context.now)) }
{
    match assignment_of(op) {
        None => store_seen(context, line, target, value),
        Some(op) => store_by_seen(context, line, op, target, value),
    }
}

/// An element (ISO C99, 6.5.2.1).
pub fn index_seen(
    context: &Context,
    line: u32,
    of: Operand,
    index: Operand,
) -> Result<Operand, Stop>
    ensures { Checks view_operand result (scope_of context.now) (steps.index_seen line (view_operand of) (view_operand index) (scope_of context.now)) }
{
    let known = context.known();
    if let Some(rule) = index_rule(known, &of, &index) {
        return Err(context.refused(rule, line));
    }
    let at = context.at_line(line);
    let made = index_meaning(context.alloc(), known, at, of, index)?;
    Ok(made)
}

// A member (ISO C99, 6.5.2.3).
pub(crate) fn member_of(
    context: &Context,
    line: u32,
    of: Operand,
    name: &[u8],
) -> Result<Operand, Stop>
    ensures { Checks view_operand result (scope_of context.now) (steps.dot_seen line (view_operand of) name.now (scope_of context.now)) }
{
    let known = context.known();
    if let Some(rule) = dot_rule(known, &of, name) {
        return Err(context.refused(rule, line));
    }
    let at = context.at_line(line);
    let made = dot_meaning(context.alloc(), known, at, of, name)?;
    Ok(made)
}

// A member of what a pointer points to (ISO C99, 6.5.2.3).
pub(crate) fn member_behind(
    context: &Context,
    line: u32,
    of: Operand,
    name: &[u8],
) -> Result<Operand, Stop>
    ensures { Checks view_operand result (scope_of context.now) (steps.arrow_seen line (view_operand of) name.now (scope_of context.now)) }
{
    let known = context.known();
    if let Some(rule) = arrow_rule(known, &of, name) {
        return Err(context.refused(rule, line));
    }
    let at = context.at_line(line);
    let made = arrow_meaning(context.alloc(), known, at, of, name)?;
    Ok(made)
}

/// `++` or `--` (ISO C99, 6.5.2.4, 6.5.3.1).
pub fn step_seen(
    context: &Context,
    line: u32,
    up: bool,
    post: bool,
    on: Operand,
) -> Result<Operand, Stop>
    ensures { Checks view_operand result (scope_of context.now) (steps.step_seen line up post (view_operand on) (scope_of context.now)) }
{
    let known = context.known();
    if let Some(rule) = step_rule(known, &on) {
        return Err(context.refused(rule, line));
    }
    let at = context.at_line(line);
    let made = step_meaning(context.alloc(), at, up, post, on)?;
    Ok(made)
}

// The address of an operand (ISO C99, 6.5.3.2).
fn address_seen(context: &Context, line: u32, of: Operand) -> Result<Operand, Stop>
    ensures { Checks view_operand result (scope_of context.now) (steps.unary_seen line takes_address (view_operand of) (scope_of context.now)) }
{
    let known = context.known();
    if let Some(rule) = address_rule(&of) {
        return Err(context.refused(rule, line));
    }
    let at = context.at_line(line);
    let made = address_meaning(context.alloc(), at, of)?;
    Ok(made)
}

// What a pointer points to (ISO C99, 6.5.3.2).
fn deref_seen(context: &Context, line: u32, of: Operand) -> Result<Operand, Stop>
    ensures { Checks view_operand result (scope_of context.now) (steps.unary_seen line follows (view_operand of) (scope_of context.now)) }
{
    let known = context.known();
    if let Some(rule) = deref_rule(known, &of) {
        return Err(context.refused(rule, line));
    }
    let at = context.at_line(line);
    let made = deref_of(context, at, of)?;
    Ok(made)
}

// An operator that computes (ISO C99, 6.5.3.3).
fn compute_seen(context: &Context, line: u32, op: Op1, on: Operand) -> Result<Operand, Stop>
    ensures { Checks view_operand result (scope_of context.now) (steps.unary_seen line (computes op) (view_operand on) (scope_of context.now)) }
{
    let known = context.known();
    if let Some(rule) = unary_rule(known, op, &on) {
        return Err(context.refused(rule, line));
    }
    let at = context.at_line(line);
    let made = unary_meaning(context.alloc(), known.types, at, op, on)?;
    Ok(made)
}

// `sizeof` of a type (ISO C99, 6.5.3.4).
pub(crate) fn size_of_type(context: &Context, line: u32, of: &Ty) -> Result<Operand, Stop>
    ensures { Checks view_operand result (scope_of context.now) (steps.sizeof_type_seen line (view_type of.now) (scope_of context.now)) }
{
    let known = context.known();
    if let Some(rule) = sizeof_type_rule(known, of) {
        return Err(context.refused(rule, line));
    }
    let at = context.at_line(line);
    let made = size_meaning(context.alloc(), known, at, of)?;
    Ok(made)
}

// A cast (ISO C99, 6.5.4).
pub(crate) fn cast_to(context: &Context, line: u32, to: &Ty, on: Operand) -> Result<Operand, Stop>
    ensures { Checks view_operand result (scope_of context.now) (steps.cast_seen line (view_type to.now) (view_operand on) (scope_of context.now)) }
{
    let known = context.known();
    if let Some(rule) = cast_rule(known, to, &on) {
        return Err(context.refused(rule, line));
    }
    let at = context.at_line(line);
    let made = cast_meaning(context.alloc(), known.types, at, to, on)?;
    Ok(made)
}

// `&&` (ISO C99, 6.5.13).
fn and_seen(context: &Context, line: u32, left: Operand, right: Operand) -> Result<Operand, Stop>
    ensures { Checks view_operand result (scope_of context.now) (steps.binary_seen line tests_both (view_operand left) (view_operand right) (scope_of context.now)) }
{
    let known = context.known();
    if let Some(rule) = tests_rule(known, &left, &right) {
        return Err(context.refused(rule, line));
    }
    let at = context.at_line(line);
    let made = and_meaning(context.alloc(), at, left, right)?;
    Ok(made)
}

// `||` (ISO C99, 6.5.14).
fn or_seen(context: &Context, line: u32, left: Operand, right: Operand) -> Result<Operand, Stop>
    ensures { Checks view_operand result (scope_of context.now) (steps.binary_seen line tests_either (view_operand left) (view_operand right) (scope_of context.now)) }
{
    let known = context.known();
    if let Some(rule) = tests_rule(known, &left, &right) {
        return Err(context.refused(rule, line));
    }
    let at = context.at_line(line);
    let made = or_meaning(context.alloc(), at, left, right)?;
    Ok(made)
}

// An operator whose operands are both evaluated (ISO C99, 6.5.5 to 6.5.12).
fn operate_seen(
    context: &Context,
    line: u32,
    op: Op2,
    left: Operand,
    right: Operand,
) -> Result<Operand, Stop>
    ensures { Checks view_operand result (scope_of context.now) (steps.binary_seen line (operates op) (view_operand left) (view_operand right) (scope_of context.now)) }
{
    let known = context.known();
    if let Some(rule) = binary_rule(known, op, &left, &right) {
        return Err(context.refused(rule, line));
    }
    let at = context.at_line(line);
    let made = binary_meaning(context.alloc(), known, at, op, left, right)?;
    Ok(made)
}

/// `?:` (ISO C99, 6.5.15).
pub fn cond_seen(
    context: &Context,
    line: u32,
    test: Operand,
    first: Operand,
    second: Operand,
) -> Result<Operand, Stop>
    ensures { Checks view_operand result (scope_of context.now) (steps.cond_seen line (view_operand test) (view_operand first) (view_operand second) (scope_of context.now)) }
{
    let known = context.known();
    if let Some(rule) = cond_rule(known, &test, &first, &second) {
        return Err(context.refused(rule, line));
    }
    let at = context.at_line(line);
    let made = cond_meaning(context.alloc(), known.types, at, test, first, second)?;
    Ok(made)
}

// A simple assignment (ISO C99, 6.5.16.1).
fn store_seen(
    context: &Context,
    line: u32,
    target: Operand,
    value: Operand,
) -> Result<Operand, Stop>
    ensures { Checks view_operand result (scope_of context.now) (steps.assign_seen line None (view_operand target) (view_operand value) (scope_of context.now)) }
{
    let known = context.known();
    if let Some(rule) = assign_rule(known, &target, &value) {
        return Err(context.refused(rule, line));
    }
    let at = context.at_line(line);
    let made = assign_meaning(context.alloc(), known.types, at, target, value)?;
    Ok(made)
}

// A compound assignment (ISO C99, 6.5.16.2).
fn store_by_seen(
    context: &Context,
    line: u32,
    op: Op2,
    target: Operand,
    value: Operand,
) -> Result<Operand, Stop>
    ensures { Checks view_operand result (scope_of context.now) (steps.assign_seen line (Some op) (view_operand target) (view_operand value) (scope_of context.now)) }
{
    let known = context.known();
    if let Some(rule) = assign_by_rule(known, op, &target, &value) {
        return Err(context.refused(rule, line));
    }
    let at = context.at_line(line);
    let made = assign_by_meaning(context.alloc(), known, at, op, target, value)?;
    Ok(made)
}

/// The comma operator (ISO C99, 6.5.17).
pub fn comma_seen(
    context: &Context,
    line: u32,
    first: Operand,
    second: Operand,
) -> Result<Operand, Stop>
    ensures { Checks view_operand result (scope_of context.now) (steps.comma_seen line (view_operand first) (view_operand second) (scope_of context.now)) }
{
    let known = context.known();
    if let Some(rule) = comma_rule(known, &first, &second) {
        return Err(context.refused(rule, line));
    }
    let at = context.at_line(line);
    let made = comma_meaning(context.alloc(), at, first, second)?;
    Ok(made)
}

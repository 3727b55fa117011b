//! Designators (ISO C99, 6.7.8p6, p7).

ghost use Rattle.std.specs.Prelude.{◌≡◌, ℕ, is_some, option_map, IfOk};
ghost use Rattle.cx_breaks.specs.Placed.{placed};
ghost use Rattle.cx_context.specs.Checks.{Checks};
ghost use Rattle.cx_context.specs.Views.{scope_of};
ghost use Rattle.cx_init_steps.specs.Steps as steps;
ghost use Rattle.cx_operands.specs.Views.{view_operand};
ghost use Rattle.cx_parts.specs.Views.{view_at};
ghost use Rattle.cx_rules.specs.Initial.{element_at};
ghost use Rattle.cx_rules.specs.Nodes.{element_node};
ghost use Rattle.cx_rules.specs.Operands.{constant_of, value_of};
ghost use Rattle.cx_rules.specs.Rules.{rule_at};

use cr_base::{Memory, Name, Rule, Stop};
use cx_context::Context;
use cx_operands::{Operand, operand_constant};
use cx_parts::{At, element_at, member_at};
use cx_stmt_breaks::{designated_rule, element_rule};

// The element with the index that an operand is.
fn element_of(context: &Context, at: Option<&At>, index: &Operand) -> Result<Option<At>, Memory>
    ensures { IfOk result (λ made. option_map view_at made ≡ element_at (scope_of context.now).types (option_map (λ one. view_at one.now) at.entry) (constant_of (scope_of context.now).types (value_of (view_operand index.now)))) }
{
    let known = context.known();
    element_at(
        context.alloc(),
        known,
        at,
        operand_constant(known.types, index),
    )
}

fn is_there(at: &Option<At>) -> bool
    ensures { result ≡ is_some (option_map view_at at.now) }
{
    at.is_some()
}

fn element_rule_at(context: &Context, index: &Operand, found: &Option<At>) -> Option<Rule>
    ensures { (line : ℕ) → result ≡ rule_at (placed (scope_of context.now).types (scope_of context.now) line (element_node (view_operand index.now) (is_some (option_map view_at found.now)))) }
{
    element_rule(context.known(), index, is_there(found))
}

/// An index in a designator, which leads to an element of a part.
pub fn element_seen(
    context: &Context,
    line: u32,
    at: &Option<At>,
    index: Operand,
) -> Result<Option<At>, Stop>
    ensures { Checks (option_map view_at) result (scope_of context.now) (steps.element_seen line (option_map view_at at.now) (view_operand index) (scope_of context.now)) }
{
    let found = element_of(context, at.as_ref(), &index)?;
    if let Some(rule) = element_rule_at(context, &index, &found) {
        return Err(context.refused(rule, line));
    }
    Ok(found)
}

/// A member's name in a designator, which leads to a member of a part.
pub fn member_designated(
    context: &Context,
    line: u32,
    at: &Option<At>,
    name: &Name,
) -> Result<Option<At>, Stop>
    ensures { Checks (option_map view_at) result (scope_of context.now) (steps.member_designated line (option_map view_at at.now) name.now (scope_of context.now)) }
{
    let found = member_at(context.alloc(), context.known(), at.as_ref(), name.bytes())?;
    if let Some(rule) = designated_rule(is_there(&found)) {
        return Err(context.refused(rule, line));
    }
    Ok(found)
}

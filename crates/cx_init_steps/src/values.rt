//! Values in initialisers (ISO C99, 6.7.8p11, p13).

ghost use Rattle.std.specs.Prelude.{option_map, map};
ghost use Rattle.cx_context.specs.Checks.{Checks};
ghost use Rattle.cx_context.specs.Views.{scope_of};
ghost use Rattle.cx_init.specs.Views.{view_filling, view_target};
ghost use Rattle.cx_init_steps.specs.Steps as steps;
ghost use Rattle.cx_operands.specs.Views.{view_operand};
ghost use Rattle.cx_parts.specs.Views.{view_at};

use crate::landed::{landed, value_rule};
use cr_base::Stop;
use cx_context::Context;
use cx_init::{Filling, Target, fill_value, value_at, whole_at};
use cx_operands::Operand;
use cx_parts::At;

// A value that lands there.
fn value_given_at(
    context: &Context,
    line: u32,
    target: &Target,
    at: Option<&At>,
    value: Operand,
    filling: &mut Filling,
) -> Result<(), Stop>
    ensures { Checks (λ _. view_filling filling.new) result (scope_of context.now) (steps.value_given_at line (view_target target.now) (view_filling filling.old) (view_operand value)
        (scope_of context.now) (option_map (λ one. view_at one.now) at.entry) (scope_of context.now)) }
{
    if let Some(rule) = value_rule(context, target, &value, at) {
        return Err(context.refused(rule, line));
    }
    fill_value(context.alloc(), context.known(), target, at, value, filling)?;
    Ok(())
}

/// A value that is given for a part.
pub fn value_given(
    context: &Context,
    line: u32,
    target: &Target,
    at: &Option<At>,
    value: Operand,
    filling: &mut Filling,
) -> Result<(), Stop>
    ensures { Checks (λ _. view_filling filling.new) result (scope_of context.now) (steps.value_given line (view_target target.now) (option_map view_at at.now) (view_filling filling.old) (view_operand value) (scope_of context.now)) }
{
    let found = landed(context, &value, at.as_ref())?;
    value_given_at(context, line, target, found.as_ref(), value, filling)
}

fn whole_value(
    context: &Context,
    line: u32,
    target: &Target,
    at: Option<&At>,
    value: Operand,
) -> Result<Filling, Stop>
    ensures { Checks view_filling result (scope_of context.now) (steps.whole_value_at line (view_target target.now) (view_operand value) (option_map (λ one. view_at one.now) at.entry)
        (scope_of context.now) (scope_of context.now)) }
{
    if let Some(rule) = value_rule(context, target, &value, at) {
        return Err(context.refused(rule, line));
    }
    let known = context.known();
    let stored = value_at(context.alloc(), known.types, target, value, at)?;
    Ok(Filling { stored, next: None })
}

/// A value that isn't in braces, for a whole object.
pub fn whole_given(
    context: &Context,
    line: u32,
    target: &Target,
    value: Operand,
) -> Result<Filling, Stop>
    ensures { Checks view_filling result (scope_of context.now) (steps.whole_given line (view_target target.now) (view_operand value) (scope_of context.now)) }
{
    let at = whole_at(context.alloc(), target)?;
    whole_value(context, line, target, at.as_ref(), value)
}

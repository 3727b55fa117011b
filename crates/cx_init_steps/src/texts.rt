//! String literals in initialisers (ISO C99, 6.7.8p14).

ghost use Rattle.std.specs.Prelude.{option_map};
ghost use Rattle.cx_context.specs.Checks.{Checks};
ghost use Rattle.cx_context.specs.Views.{scope_of};
ghost use Rattle.cx_init.specs.Views.{view_filling, view_target};
ghost use Rattle.cx_init_steps.specs.Steps as steps;
ghost use Rattle.cx_parts.specs.Views.{view_at};

use crate::landed::{is_array_at, text_landed, text_rule};
use crate::values::{value_given, whole_given};
use cr_base::{Name, Stop};
use cx_context::Context;
use cx_expr_steps::text_seen;
use cx_init::{Filling, Target, fill_text, is_text_target, text_at, whole_at};
use cx_parts::At;
use cx_scope::joined_bytes;

// A string literal that fills an array of characters there; its bytes have the zero byte at their end.
fn text_given_at(
    context: &mut Context,
    line: u32,
    target: &Target,
    at: Option<&At>,
    bytes: &[u8],
    filling: &mut Filling,
) -> Result<(), Stop>
    ensures { Checks (λ _. view_filling filling.new) result (scope_of context.new) (steps.text_given_at line (view_target target.now) (view_filling filling.old) bytes.now
        (scope_of context.old) (option_map (λ one. view_at one.now) at.entry) (scope_of context.old)) }
{
    if let Some(rule) = text_rule(context, bytes, at) {
        return Err(context.refused(rule, line));
    }
    let place = context.at_line(line);
    fill_text(
        context.alloc(),
        context.known(),
        target,
        at,
        place,
        bytes,
        filling,
    )?;
    context.count_object()?;
    Ok(())
}

/// A string literal that is given for a part: it fills an array of characters, or is a value like another.
pub fn text_given(
    context: &mut Context,
    line: u32,
    target: &Target,
    at: &Option<At>,
    parts: &[Name],
    filling: &mut Filling,
) -> Result<(), Stop>
    ensures { Checks (λ _. view_filling filling.new) result (scope_of context.new) (steps.text_given line (view_target target.now) (option_map view_at at.now) (view_filling filling.old) parts.now (scope_of context.old)) }
{
    let found = text_landed(context, at.as_ref())?;
    if is_array_at(found.as_ref()) {
        let joined = joined_bytes(context.alloc(), parts)?;
        let bytes = joined.bytes();
        return text_given_at(context, line, target, found.as_ref(), bytes, filling);
    }
    text_as_value(context, line, target, at, parts, filling)
}

// A string literal that is a value like another.
#[tactic(auto, unfolding(cx_rules::specs::Readings::check_chain))]
fn text_as_value(
    context: &mut Context,
    line: u32,
    target: &Target,
    at: &Option<At>,
    parts: &[Name],
    filling: &mut Filling,
) -> Result<(), Stop>
    ensures { Checks (λ _. view_filling filling.new) result (scope_of context.new) (steps.text_as_value line (view_target target.now) (option_map view_at at.now) (view_filling filling.old) parts.now (scope_of context.old)) }
{
    let value = text_seen(context, parts, line)?;
    value_given(context, line, target, at, value, filling)
}

// A string literal for a whole array of characters.
fn whole_text_at(
    context: &mut Context,
    line: u32,
    target: &Target,
    at: Option<&At>,
    bytes: &[u8],
) -> Result<Filling, Stop>
    ensures { Checks view_filling result (scope_of context.new) (steps.whole_text_at line (view_target target.now) bytes.now
        (scope_of context.old) (option_map (λ one. view_at one.now) at.entry) (scope_of context.old)) }
{
    if let Some(rule) = text_rule(context, bytes, at) {
        return Err(context.refused(rule, line));
    }
    let place = context.at_line(line);
    let stored = text_at(context.alloc(), context.known(), target, place, bytes, at)?;
    context.count_object()?;
    Ok(Filling { stored, next: None })
}

/// A string literal that isn't in braces, for a whole object.
pub fn whole_text(
    context: &mut Context,
    line: u32,
    target: &Target,
    parts: &[Name],
) -> Result<Filling, Stop>
    ensures { Checks view_filling result (scope_of context.new) (steps.whole_text line (view_target target.now) parts.now (scope_of context.old)) }
{
    if is_text_target(target) {
        let joined = joined_bytes(context.alloc(), parts)?;
        let bytes = joined.bytes();
        let at = whole_at(context.alloc(), target)?;
        return whole_text_at(context, line, target, at.as_ref(), bytes);
    }
    whole_text_as_value(context, line, target, parts)
}

#[tactic(auto, unfolding(cx_rules::specs::Readings::check_chain))]
fn whole_text_as_value(
    context: &mut Context,
    line: u32,
    target: &Target,
    parts: &[Name],
) -> Result<Filling, Stop>
    ensures { Checks view_filling result (scope_of context.new) (steps.whole_text_as_value line (view_target target.now) parts.now (scope_of context.old)) }
{
    let value = text_seen(context, parts, line)?;
    whole_given(context, line, target, value)
}

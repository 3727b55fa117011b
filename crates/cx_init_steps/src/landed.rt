//! Where values and string literals land, and the rules that they break there (ISO C99, 6.7.8p2, p4, p11 to p14).

ghost use Rattle.std.specs.Prelude.{◌≡◌, ℕ, is_some, IfOk, option_map, Some};
ghost use Rattle.cx_breaks.specs.Placed.{placed};
ghost use Rattle.cx_context.specs.Views.{scope_of};
ghost use Rattle.cx_init.specs.Views.{view_target};
ghost use Rattle.cx_operands.specs.Views.{view_operand};
ghost use Rattle.cx_parts.specs.Views.{view_at};
ghost use Rattle.cx_rules.specs.Nodes.{given_node};
ghost use Rattle.cx_rules.specs.Pieces.{landed, text_landed, is_array_at, value_facts, text_facts};
ghost use Rattle.cx_rules.specs.Rules.{rule_at};
ghost use Rattle.cx_stmt_breaks.specs.Facts.{given_facts};

use cr_base::{Memory, Rule};
use cx_context::Context;
use cx_init::{Target, assignable_at, fits_text, may_initialise};
use cx_kinds::is_character_array;
use cx_operands::{Operand, value_type};
use cx_parts::{At, Kind, landed_at};
use cx_stmt_breaks::{Given, given_rule};

/// What a value lands at that is given for a part. Refused only for want of memory.
pub(crate) fn landed(
    context: &Context,
    value: &Operand,
    at: Option<&At>,
) -> Result<Option<At>, Memory>
    ensures { IfOk result (λ made. option_map view_at made ≡ landed (scope_of context.now).types (view_operand value.now) (option_map (λ one. view_at one.now) at.entry)) }
{
    match at {
        None => Ok(None),
        Some(at) => landed_at(
            context.alloc(),
            context.known(),
            Kind::Value(value_type(value)),
            at,
        ),
    }
}

/// What a string literal lands at. Refused only for want of memory.
pub(crate) fn text_landed(context: &Context, at: Option<&At>) -> Result<Option<At>, Memory>
    ensures { IfOk result (λ made. option_map view_at made ≡ text_landed (scope_of context.now).types (option_map (λ one. view_at one.now) at.entry)) }
{
    match at {
        None => Ok(None),
        Some(at) => landed_at(context.alloc(), context.known(), Kind::Text, at),
    }
}

/// Whether it is an array of characters.
pub(crate) fn is_array_at(at: Option<&At>) -> bool
    ensures { result ≡ is_array_at (option_map (λ one. view_at one.now) at.entry) }
{
    match at {
        None => false,
        Some(at) => is_character_array(at.ty.get()),
    }
}

fn is_there(at: Option<&At>) -> bool
    ensures { result ≡ is_some (option_map (λ one. view_at one.now) at.entry) }
{
    at.is_some()
}

// A value and what it lands at.
fn value_facts(context: &Context, target: &Target, value: &Operand, at: Option<&At>) -> Given
    ensures { given_facts (Some (view_operand value.now)) result ≡ value_facts (scope_of context.now) (view_target target.now) (view_operand value.now) (option_map (λ one. view_at one.now) at.entry) }
{
    let known = context.known();
    Given {
        has_place: is_there(at),
        is_assignable: assignable_at(known.types, value, at),
        is_constant: may_initialise(context.scope(), target.is_static, value),
    }
}

/// The rule that a value breaks that lands there.
pub(crate) fn value_rule(
    context: &Context,
    target: &Target,
    value: &Operand,
    at: Option<&At>,
) -> Option<Rule>
    ensures { (line : ℕ) → result ≡ rule_at (placed (scope_of context.now).types (scope_of context.now) line
        (given_node (value_facts (scope_of context.now) (view_target target.now) (view_operand value.now) (option_map (λ one. view_at one.now) at.entry)))) }
{
    let given = value_facts(context, target, value, at);
    given_rule(context.known(), Some(value), given)
}

// A string literal and what it lands at.
fn text_facts(bytes: &[u8], at: Option<&At>) -> Given
    ensures { given_facts None result ≡ text_facts bytes.now (option_map (λ one. view_at one.now) at.entry) }
{
    Given {
        has_place: fits_text(bytes, at),
        is_assignable: true,
        is_constant: true,
    }
}

/// The rule that a string literal breaks that lands there.
pub(crate) fn text_rule(context: &Context, bytes: &[u8], at: Option<&At>) -> Option<Rule>
    ensures { (line : ℕ) → result ≡ rule_at (placed (scope_of context.now).types (scope_of context.now) line
        (given_node (text_facts bytes.now (option_map (λ one. view_at one.now) at.entry)))) }
{
    let given = text_facts(bytes, at);
    given_rule(context.known(), None, given)
}

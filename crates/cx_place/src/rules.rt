//! The rules that parts break (ISO C99, 6.7.8p2, p3, p11).

ghost use Rattle.std.specs.Prelude.{◌≡◌, option_map};
ghost use Rattle.cx_core.specs.Views.{view_types};
ghost use Rattle.cx_operands.specs.Views.{view_operand};
ghost use Rattle.cx_parts.specs.Views.{view_at};
ghost use Rattle.cx_place.specs.Placing.{rule_of_part, value_rule, text_rule};

use cr_base::Rule;
use cx_core::Types;
use cx_init::{assignable_at, fits_text};
use cx_operands::Operand;
use cx_parts::At;

/// A part that has no place breaks K21, and one at whose place what is given may not be assigned K12.
pub(crate) fn rule_of_part(has_place: bool, is_assignable: bool) -> Option<Rule>
    ensures { result ≡ rule_of_part has_place is_assignable }
{
    if !has_place {
        return Some(Rule::K21);
    }
    if is_assignable { None } else { Some(Rule::K12) }
}

/// The rule that a value breaks that lands there.
pub(crate) fn value_rule(types: &Types, value: &Operand, at: Option<&At>) -> Option<Rule>
    ensures { result ≡ value_rule (view_types types.now) (view_operand value.now) (option_map (λ one. view_at one.now) at.entry) }
{
    rule_of_part(at.is_some(), assignable_at(types, value, at))
}

/// The rule that a string literal breaks that lands there.
pub(crate) fn text_rule(bytes: &[u8], at: Option<&At>) -> Option<Rule>
    ensures { result ≡ text_rule bytes.now (option_map (λ one. view_at one.now) at.entry) }
{
    rule_of_part(fits_text(bytes, at), true)
}

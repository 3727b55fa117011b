//! Values and string literals that are given for parts (ISO C99, 6.7.8p11, p13, p14).

ghost use Rattle.std.specs.Prelude.{◌≡◌, option_map, OnOk};
ghost use Rattle.cx_init.specs.Views.{view_target};
ghost use Rattle.cx_kinds.specs.Known.{IsKnown, types_in};
ghost use Rattle.cx_operands.specs.Views.{view_operand};
ghost use Rattle.cx_parts.specs.Views.{view_at};
ghost use Rattle.cx_place.specs.Placing.{value_given, value_placed, text_given, text_placed};
ghost use Rattle.cx_place.specs.Views.{view_placing};

use crate::landed::{is_array_at, landed, text_landed};
use crate::operands::text_operand;
use crate::placing::Placing;
use crate::rules::{text_rule, value_rule};
use cr_base::{Memory, Place};
use cx_init::{Target, fill_text, fill_value};
use cx_kinds::Known;
use cx_operands::Operand;
use cx_parts::At;
use std::alloc::Global;

// A value that lands at a part.
fn value_placed(
    alloc: Global,
    known: Known,
    target: &Target,
    value: Operand,
    placing: &mut Placing,
    at: Option<&At>,
) -> Result<(), Memory>
    requires { IsKnown known }
    ensures { OnOk result (view_placing placing.new ≡ value_placed (types_in known.entry) (view_target target.now) (view_operand value) (view_placing placing.old) (option_map (λ one. view_at one.now) at.entry)) }
{
    let rule = value_rule(known.types, &value, at);
    fill_value(alloc, known, target, at, value, &mut placing.filling)?;
    placing.rules.push(rule)
}

/// A value that is given for a part. Refused only for want of memory.
pub(crate) fn value_given(
    alloc: Global,
    known: Known,
    target: &Target,
    at: Option<&At>,
    value: Operand,
    placing: &mut Placing,
) -> Result<(), Memory>
    requires { IsKnown known }
    ensures { OnOk result (view_placing placing.new ≡ value_given (types_in known.entry) (view_target target.now) (option_map (λ one. view_at one.now) at.entry) (view_operand value) (view_placing placing.old)) }
{
    let found = landed(alloc, known, &value, at)?;
    value_placed(alloc, known, target, value, placing, found.as_ref())
}

// A string literal that fills the array of characters at which it lands.
fn text_placed(
    alloc: Global,
    known: Known,
    target: &Target,
    bytes: &[u8],
    place: Place,
    placing: &mut Placing,
    at: Option<&At>,
) -> Result<(), Memory>
    requires { IsKnown known }
    ensures { OnOk result (view_placing placing.new ≡ text_placed (types_in known.entry) (view_target target.now) bytes.now place (view_placing placing.old) (option_map (λ one. view_at one.now) at.entry)) }
{
    fill_text(alloc, known, target, at, place, bytes, &mut placing.filling)?;
    placing.rules.push(text_rule(bytes, at))
}

/// A string literal that is given for a part: it fills an array of characters, or is a value like another. Refused only for want of
/// memory.
pub(crate) fn text_given(
    alloc: Global,
    known: Known,
    target: &Target,
    at: Option<&At>,
    bytes: &[u8],
    number: u32,
    place: Place,
    placing: &mut Placing,
) -> Result<(), Memory>
    requires { IsKnown known }
    ensures { OnOk result (view_placing placing.new ≡ text_given (types_in known.entry) (view_target target.now) (option_map (λ one. view_at one.now) at.entry) bytes.now number place (view_placing placing.old)) }
{
    let found = text_landed(alloc, known, at)?;
    if is_array_at(found.as_ref()) {
        return text_placed(alloc, known, target, bytes, place, placing, found.as_ref());
    }
    let value = text_operand(alloc, bytes, number, place)?;
    value_given(alloc, known, target, at, value, placing)
}

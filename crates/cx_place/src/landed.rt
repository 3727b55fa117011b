//! Where values and string literals land (ISO C99, 6.7.8p13, p14, p20).

ghost use Rattle.std.specs.Prelude.{◌≡◌, option_map, IfOk};
ghost use Rattle.cx_kinds.specs.Known.{IsKnown, types_in};
ghost use Rattle.cx_operands.specs.Views.{view_operand};
ghost use Rattle.cx_parts.specs.Views.{view_at};
ghost use Rattle.cx_rules.specs.Pieces.{landed, text_landed, is_array_at};

use cr_base::Memory;
use cx_kinds::{Known, is_character_array};
use cx_operands::{Operand, value_type};
use cx_parts::{At, Kind, landed_at};
use std::alloc::Global;

/// What a value lands at that is given for a part. Refused only for want of memory.
pub(crate) fn landed(
    alloc: Global,
    known: Known,
    value: &Operand,
    at: Option<&At>,
) -> Result<Option<At>, Memory>
    requires { IsKnown known }
    ensures { IfOk result (λ made. option_map view_at made ≡ landed (types_in known.entry) (view_operand value.now) (option_map (λ one. view_at one.now) at.entry)) }
{
    match at {
        None => Ok(None),
        Some(at) => landed_at(alloc, known, Kind::Value(value_type(value)), at),
    }
}

/// What a string literal lands at. Refused only for want of memory.
pub(crate) fn text_landed(
    alloc: Global,
    known: Known,
    at: Option<&At>,
) -> Result<Option<At>, Memory>
    requires { IsKnown known }
    ensures { IfOk result (λ made. option_map view_at made ≡ text_landed (types_in known.entry) (option_map (λ one. view_at one.now) at.entry)) }
{
    match at {
        None => Ok(None),
        Some(at) => landed_at(alloc, known, Kind::Text, at),
    }
}

/// Whether it is an array of characters.
pub(crate) fn is_array_at(at: Option<&At>) -> bool
    ensures { result ≡ is_array_at (option_map (λ one. view_at one.now) at.entry) }
{
    match at {
        None => false,
        Some(at) => is_character_array(at.ty.get()),
    }
}

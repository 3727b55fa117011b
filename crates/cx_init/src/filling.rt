//! More is stored in an object, and the next value stands behind it (ISO C99, 6.7.8p17, p19).

ghost use Rattle.std.specs.Prelude.{◌≡◌, ◌++◌, map, option_map, IfOk, OnOk};
ghost use Rattle.cx_core.specs.Views.{view_types};
ghost use Rattle.cx_init.specs.Views.{view_stored, view_filling, view_target};
ghost use Rattle.cx_kinds.specs.Known.{IsKnown, types_in};
ghost use Rattle.cx_operands.specs.Views.{view_operand};
ghost use Rattle.cx_parts.specs.Views.{view_at};
ghost use Rattle.cx_rules.specs.Pieces.{filled, from_whole, next_of, outside, text_stored_at, value_stored, with_more};

use crate::stored::{Filling, Target, value_stored};
use crate::taken::drop_within;
use crate::targets::from_whole;
use crate::texts::text_stored;
use crate::values::StoredValues;
use cr_base::{Items, Memory, Place};
use cx_core::Types;
use cx_kinds::Known;
use cx_operands::Operand;
use cx_parts::{At, next_at};
use std::alloc::Global;

/// More is stored in a part of what the innermost list is for: it takes away what was stored there, and the next value stands behind the
/// part. Refused only for want of memory.
pub fn fill(
    alloc: Global,
    known: Known,
    target: &Target,
    at: Option<&At>,
    more: StoredValues,
    filling: &mut Filling,
) -> Result<(), Memory>
    requires { IsKnown known }
    ensures { OnOk result (view_filling filling.new ≡ filled (types_in known.entry) (view_target target.now) (option_map (λ one. view_at one.now) at.entry) (map view_stored more) (view_filling filling.old)) }
{
    let next = next_of(alloc, known, &target.base, at)?;
    add(alloc, &target.base, at, more, &mut filling.stored)?;
    filling.next = next;
    Ok(())
}

fn next_of(
    alloc: Global,
    known: Known,
    base: &Option<At>,
    at: Option<&At>,
) -> Result<Option<At>, Memory>
    requires { IsKnown known }
    ensures { IfOk result (λ made. option_map view_at made ≡ next_of (types_in known.entry) (option_map view_at base.now) (option_map (λ one. view_at one.now) at.entry)) }
{
    let Some(base) = base else {
        return Ok(None);
    };
    match at {
        None => Ok(None),
        Some(at) => next_at(alloc, known, base.ty.get(), at),
    }
}

fn add(
    alloc: Global,
    base: &Option<At>,
    at: Option<&At>,
    more: StoredValues,
    stored: &mut StoredValues,
) -> Result<(), Memory>
    ensures { OnOk result (map view_stored stored.new ≡ with_more (from_whole (option_map view_at base.now) (option_map (λ one. view_at one.now) at.entry)) (map view_stored more) (map view_stored stored.old)) }
{
    if more.is_empty() {
        return Ok(());
    }
    empty_part(alloc, base, at, stored)?;
    stored.append(more)
}

// What was stored in a part goes.
fn empty_part(
    alloc: Global,
    base: &Option<At>,
    at: Option<&At>,
    stored: &mut StoredValues,
) -> Result<(), Memory>
    ensures { OnOk result (map view_stored stored.new ≡ outside (from_whole (option_map view_at base.now) (option_map (λ one. view_at one.now) at.entry)) (map view_stored stored.old)) }
{
    let Some(base) = base else {
        return Ok(());
    };
    let Some(at) = at else {
        return Ok(());
    };
    let path = joined(alloc, base.path.as_slice(), at.path.as_slice())?;
    drop_within(alloc, path.as_slice(), stored)?;
    Ok(())
}

fn joined(alloc: Global, first: &[u64], second: &[u64]) -> Result<Items<u64>, Memory>
    ensures { IfOk result (λ made. made ≡ first.now ++ second.now) }
{
    let mut path = Items::from_slice(alloc, first)?;
    let more = Items::from_slice(alloc, second)?;
    path.append(more)?;
    Ok(path)
}

/// The value of an operand is stored at a part of what the innermost list is for, and the next value stands behind it. Refused only for
/// want of memory.
pub fn fill_value(
    alloc: Global,
    known: Known,
    target: &Target,
    at: Option<&At>,
    value: Operand,
    filling: &mut Filling,
) -> Result<(), Memory>
    requires { IsKnown known }
    ensures { OnOk result (view_filling filling.new ≡ filled (types_in known.entry) (view_target target.now) (option_map (λ one. view_at one.now) at.entry)
        (value_stored (types_in known.entry) (view_target target.now) (view_operand value) (option_map (λ one. view_at one.now) at.entry)) (view_filling filling.old)) }
{
    let more = value_at(alloc, known.types, target, value, at)?;
    fill(alloc, known, target, at, more, filling)
}

/// What the value of an operand stores at a part of what the innermost list is for. Refused only for want of memory.
pub fn value_at(
    alloc: Global,
    types: &Types,
    target: &Target,
    value: Operand,
    at: Option<&At>,
) -> Result<StoredValues, Memory>
    ensures { IfOk result (λ made. map view_stored made ≡ value_stored (view_types types.now) (view_target target.now) (view_operand value) (option_map (λ one. view_at one.now) at.entry)) }
{
    let place = whole_place(alloc, &target.base, at)?;
    value_stored(alloc, types, value, place)
}

/// A string literal is stored in the array of characters at a part of what the innermost list is for, and the next value stands behind it;
/// its bytes have the zero byte at their end. Refused only for want of memory.
pub fn fill_text(
    alloc: Global,
    known: Known,
    target: &Target,
    at: Option<&At>,
    place: Place,
    bytes: &[u8],
    filling: &mut Filling,
) -> Result<(), Memory>
    requires { IsKnown known }
    ensures { OnOk result (view_filling filling.new ≡ filled (types_in known.entry) (view_target target.now) (option_map (λ one. view_at one.now) at.entry)
        (text_stored_at (types_in known.entry) place (view_target target.now) bytes.now (option_map (λ one. view_at one.now) at.entry)) (view_filling filling.old)) }
{
    let more = text_at(alloc, known, target, place, bytes, at)?;
    fill(alloc, known, target, at, more, filling)
}

/// What a string literal stores in the array of characters at a part of what the innermost list is for. Refused only for want of memory.
pub fn text_at(
    alloc: Global,
    known: Known,
    target: &Target,
    place: Place,
    bytes: &[u8],
    at: Option<&At>,
) -> Result<StoredValues, Memory>
    requires { IsKnown known }
    ensures { IfOk result (λ made. map view_stored made ≡ text_stored_at (types_in known.entry) place (view_target target.now) bytes.now (option_map (λ one. view_at one.now) at.entry)) }
{
    let whole = whole_place(alloc, &target.base, at)?;
    text_stored(alloc, known, place, bytes, whole)
}

// A part of what the innermost list is for, by its path from the whole object.
pub(crate) fn whole_place(
    alloc: Global,
    base: &Option<At>,
    at: Option<&At>,
) -> Result<Option<At>, Memory>
    ensures { IfOk result (λ made. option_map view_at made ≡ from_whole (option_map view_at base.now) (option_map (λ one. view_at one.now) at.entry)) }
{
    let copied = copy_at(alloc, at)?;
    from_whole(alloc, base, copied)
}

/// A part, copied. Refused only for want of memory.
pub(crate) fn copy_at(alloc: Global, at: Option<&At>) -> Result<Option<At>, Memory>
    ensures { IfOk result (λ made. option_map view_at made ≡ option_map (λ one. view_at one.now) at.entry) }
{
    match at {
        None => Ok(None),
        Some(at) => {
            let path = Items::from_slice(alloc, at.path.as_slice())?;
            let ty = at.ty.get().copy(alloc)?;
            Ok(Some(At { path, ty }))
        }
    }
}

//! What initialisers are for: whole objects, and parts of them (ISO C99, 6.7.8p11 to p18).

ghost use Rattle.std.specs.Prelude.{◌≡◌, ◌||◌, if◌then◌else◌, false, None, Some, map, option_map, IfOk, OnOk};
ghost use Rattle.cx_init.specs.Views.{view_stored, view_filling, view_target};
ghost use Rattle.cx_kinds.specs.Known.{IsKnown, types_in};
ghost use Rattle.cx_parts.specs.Views.{view_at};
ghost use Rattle.cx_rules.specs.Initial.{first_at};
ghost use Rattle.cx_rules.specs.Pieces.{from_whole, inside, base_is_text, target_at, whole_at, whole_target, object_of_type, begins_at, outside};
ghost use Rattle.cx_rules.specs.Types.{is_void, is_function};
ghost use Rattle.cx_core.specs.Views.{view_type};
ghost use Rattle.std.specs.Option.{option_and_then};

use crate::filling::{copy_at, whole_place};
use crate::stored::{Filling, Target};
use crate::taken::drop_within;
use crate::values::StoredValues;
use cr_base::{Items, Memory};
use cx_core::Ty;
use cx_kinds::{Known, is_character_array, is_function, is_void};
use cx_parts::{At, first_at, whole_of};
use std::alloc::Global;

// A part of what the innermost list is for, by its path from the whole object.
pub(crate) fn from_whole(
    alloc: Global,
    base: &Option<At>,
    at: Option<At>,
) -> Result<Option<At>, Memory>
    ensures { IfOk result (λ made. option_map view_at made ≡ from_whole (option_map view_at base.now) (option_map view_at at)) }
{
    let Some(base) = base else {
        return Ok(None);
    };
    match at {
        None => Ok(None),
        Some(at) => {
            let made = inside(alloc, base, at)?;
            Ok(Some(made))
        }
    }
}

fn inside(alloc: Global, base: &At, at: At) -> Result<At, Memory>
    ensures { IfOk result (λ made. view_at made ≡ inside (view_at base.now) (view_at at)) }
{
    let mut path = Items::from_slice(alloc, base.path.as_slice())?;
    path.append(at.path)?;
    Ok(At { path, ty: at.ty })
}

/// What a list in braces is for that is given for a part. Refused only for want of memory.
pub fn part_target(alloc: Global, target: &Target, at: Option<&At>) -> Result<Target, Memory>
    ensures { IfOk result (λ made. view_target made ≡ target_at (view_target target.now) (option_map (λ one. view_at one.now) at.entry)) }
{
    let base = whole_place(alloc, &target.base, at)?;
    Ok(Target {
        is_static: target.is_static,
        base,
    })
}

/// The whole of what the innermost list in braces is for, where there is such a part: where designators lead from (ISO C99, 6.7.8p18),
/// and where a value that isn't in braces stands. Refused only for want of memory.
pub fn whole_at(alloc: Global, target: &Target) -> Result<Option<At>, Memory>
    ensures { IfOk result (λ made. option_map view_at made ≡ whole_at (view_target target.now)) }
{
    match &target.base {
        None => Ok(None),
        Some(base) => {
            let ty = base.ty.get().copy(alloc)?;
            Ok(Some(whole_of(alloc, ty)))
        }
    }
}

/// The part behind the value before, copied, where there is one (ISO C99, 6.7.8p17). Refused only for want of memory.
pub fn next_at(alloc: Global, filling: &Filling) -> Result<Option<At>, Memory>
    ensures { IfOk result (λ made. option_map view_at made ≡ (view_filling filling.now).next) }
{
    copy_at(alloc, filling.next.as_ref())
}

/// Whether it is an array of characters, which a string literal fills (ISO C99, 6.7.8p14).
pub fn is_text_target(target: &Target) -> bool
    ensures { result ≡ base_is_text (view_target target.now).base }
{
    match &target.base {
        None => false,
        Some(base) => is_character_array(base.ty.get()),
    }
}

// What was stored in what the list is for goes (6.7.8p19).
fn empty_base(alloc: Global, target: &Target, stored: &mut StoredValues) -> Result<(), Memory>
    ensures { OnOk result (map view_stored stored.new ≡ outside (view_target target.now).base (map view_stored stored.old)) }
{
    match &target.base {
        None => Ok(()),
        Some(base) => {
            drop_within(alloc, base.path.as_slice(), stored)?;
            Ok(())
        }
    }
}

/// A list in braces begins: what was stored in what it is for goes, and its first value stands at the first part. Refused only for want
/// of memory.
pub fn begin_list(
    alloc: Global,
    known: Known,
    target: &Target,
    stored: StoredValues,
) -> Result<Filling, Memory>
    requires { IsKnown known }
    ensures { IfOk result (λ made. view_filling made ≡ begins_at (types_in known.entry) (view_target target.now) (outside (view_target target.now).base (map view_stored stored))) }
{
    let mut stored = stored;
    empty_base(alloc, target, &mut stored)?;
    let next = first_in(alloc, known, &target.base)?;
    Ok(Filling { stored, next })
}

fn first_in(alloc: Global, known: Known, base: &Option<At>) -> Result<Option<At>, Memory>
    requires { IsKnown known }
    ensures { IfOk result (λ made. option_map view_at made ≡ option_and_then (λ one. first_at (types_in known.entry) one.type) (option_map view_at base.now)) }
{
    match base {
        None => Ok(None),
        Some(base) => first_at(alloc, known, base.ty.get()),
    }
}

/// The same of a list that holds one string literal for an array of characters: that stands for the whole array (ISO C99, 6.7.8p14).
/// Refused only for want of memory.
pub fn list_at_text(alloc: Global, target: &Target, stored: StoredValues) -> Result<Filling, Memory>
    ensures { IfOk result (λ made. view_filling made ≡ record { stored = outside (view_target target.now).base (map view_stored stored); next = whole_at (view_target target.now) }) }
{
    let mut stored = stored;
    empty_base(alloc, target, &mut stored)?;
    let next = whole_at(alloc, target)?;
    Ok(Filling { stored, next })
}

/// What the list of a compound literal is for: an object of its type, which is no function and not `void` (ISO C99, 6.5.2.5p1). Refused
/// only for want of memory.
pub fn object_target(alloc: Global, is_static: bool, t: &Ty) -> Result<Target, Memory>
    ensures { IfOk result (λ made. view_target made ≡ object_of_type is_static (view_type t.now)) }
{
    let base = object_base(alloc, t)?;
    Ok(Target { is_static, base })
}

fn object_base(alloc: Global, t: &Ty) -> Result<Option<At>, Memory>
    ensures { IfOk result (λ made. option_map view_at made ≡ (whole_target false (if is_void (view_type t.now) || is_function (view_type t.now) then None else Some (view_type t.now))).base) }
{
    if is_void(t) || is_function(t) {
        return Ok(None);
    }
    let ty = t.copy(alloc)?;
    Ok(Some(whole_of(alloc, ty)))
}

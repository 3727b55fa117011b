//! Places in an object that is initialised (ISO C99, 6.7.8p11, p17).

ghost use Rattle.std.specs.Prelude.{◌≡◌, [], ◌∷◌, Some, IfOk, option_map};
ghost use Rattle.cx_core.specs.Views.{view_type};
ghost use Rattle.cx_core.specs.Trees.{form_of_type};
ghost use Rattle.cx_kinds.specs.Known.{IsKnown, types_in};
ghost use Rattle.cx_parts.specs.Views.{view_at, view_kind};
ghost use Rattle.cx_rules.specs.Initial.{is_aggregate, whole_of, type_by, at_path, at_within, first_path, one_step, first_at, next_at, landed_at};

use crate::at::At;
use crate::following::following;
use crate::landing::{Kind, landing};
use crate::parts::{first_part, part_type};
use cr_base::{Boxed, Items, Memory};
use cx_core::{Ty, TyForm};
use cx_kinds::Known;
use std::alloc::Global;

/// The whole of an object of a type.
pub fn whole_of(alloc: Global, ty: Boxed<Ty>) -> At
    ensures { view_at result ≡ whole_of (view_type ty) }
{
    At {
        path: Items::new(alloc),
        ty,
    }
}

// The type of the part of an object of a type to which a path leads.
fn type_by<'a>(known: Known<'a>, t: &'a Ty, path: &[u64]) -> Option<&'a Ty>
    requires { IsKnown known }
    ensures { option_map (λ one. view_type one.now) result ≡ type_by (types_in known.entry) (Some (view_type t.now)) path.now }
{
    let Some((index, rest)) = path.split_first() else {
        return Some(t);
    };
    let Some(part) = part_type(known, t, *index) else {
        return None;
    };
    type_by(known, part, rest)
}

fn at_path(alloc: Global, known: Known, t: &Ty, path: Items<u64>) -> Result<Option<At>, Memory>
    requires { IsKnown known }
    ensures { IfOk result (λ made. option_map view_at made ≡ at_path (types_in known.entry) (view_type t.now) path) }
{
    match type_by(known, t, path.as_slice()) {
        None => Ok(None),
        Some(found) => {
            let ty = found.copy(alloc)?;
            Ok(Some(At { path, ty }))
        }
    }
}

/// A part of a part, by its path from there, or None where there is none. Refused only for want of memory.
pub fn within(alloc: Global, known: Known, at: &At, path: &[u64]) -> Result<Option<At>, Memory>
    requires { IsKnown known }
    ensures { IfOk result (λ made. option_map view_at made ≡ at_within (types_in known.entry) (view_at at.now) path.now) }
{
    match type_by(known, at.ty.get(), path) {
        None => Ok(None),
        Some(found) => {
            let mut whole = Items::from_slice(alloc, at.path.as_slice())?;
            let more = Items::from_slice(alloc, path)?;
            whole.append(more)?;
            let ty = found.copy(alloc)?;
            Ok(Some(At { path: whole, ty }))
        }
    }
}

fn is_aggregate(t: &Ty) -> bool
    ensures { result ≡ is_aggregate (form_of_type (view_type t.now)) }
{
    matches!(t.form, TyForm::Array(_, _) | TyForm::Record(_))
}

fn one_step(alloc: Global, index: Option<u64>) -> Result<Option<Items<u64>>, Memory>
    ensures { IfOk result (λ made. made ≡ one_step index) }
{
    match index {
        None => Ok(None),
        Some(index) => {
            let mut path = Items::new(alloc);
            path.push(index)?;
            Ok(Some(path))
        }
    }
}

fn first_path(alloc: Global, known: Known, t: &Ty) -> Result<Option<Items<u64>>, Memory>
    requires { IsKnown known }
    ensures { IfOk result (λ made. made ≡ first_path (types_in known.entry) (view_type t.now)) }
{
    if is_aggregate(t) {
        one_step(alloc, first_part(known, t))
    } else {
        Ok(Some(Items::new(alloc)))
    }
}

/// Where the first value of a list in braces stands: a scalar takes it itself (ISO C99, 6.7.8p11). None where there is no place for
/// one. Refused only for want of memory.
pub fn first_at(alloc: Global, known: Known, t: &Ty) -> Result<Option<At>, Memory>
    requires { IsKnown known }
    ensures { IfOk result (λ made. option_map view_at made ≡ first_at (types_in known.entry) (view_type t.now)) }
{
    match first_path(alloc, known, t)? {
        None => Ok(None),
        Some(path) => at_path(alloc, known, t, path),
    }
}

/// Where the next value stands behind a part of an object of a type, or None where there is no place for one (ISO C99, 6.7.8p17).
/// Refused only for want of memory.
pub fn next_at(alloc: Global, known: Known, t: &Ty, at: &At) -> Result<Option<At>, Memory>
    requires { IsKnown known }
    ensures { IfOk result (λ made. option_map view_at made ≡ next_at (types_in known.entry) (view_type t.now) (view_at at.now)) }
{
    match following(alloc, known, t, at.path.as_slice())? {
        None => Ok(None),
        Some(path) => at_path(alloc, known, t, path),
    }
}

/// Where something lands that is given for a part: the part itself, or the first scalar in it (ISO C99, 6.7.8p13, p14, p20). None
/// where it has no place. Refused only for want of memory.
pub fn landed_at(alloc: Global, known: Known, kind: Kind<'_>, at: &At) -> Result<Option<At>, Memory>
    requires { IsKnown known }
    ensures { IfOk result (λ made. option_map view_at made ≡ landed_at (types_in known.entry) (view_kind kind.entry) (view_at at.now)) }
{
    match landing(alloc, known.types, kind, at.ty.get())? {
        None => Ok(None),
        Some(path) => within(alloc, known, at, path.as_slice()),
    }
}

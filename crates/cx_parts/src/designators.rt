//! Where designators lead (ISO C99, 6.7.8p6, p7, p18).

ghost use Rattle.std.specs.Prelude.{◌≡◌, IfOk, map, option_map};
ghost use Rattle.cx_core.specs.Views.{view_type, view_types, view_member};
ghost use Rattle.cx_kinds.specs.Known.{IsKnown, types_in};
ghost use Rattle.cx_parts.specs.Designators.{below, index_below};
ghost use Rattle.cx_parts.specs.Views.{view_at};
ghost use Rattle.cx_rules.specs.Initial.{element_at, index_in, member_at, is_called, called_from, members_by};

use crate::at::At;
use crate::parts::{bound_of, members_of};
use crate::places::within;
use cr_base::{Int, Memory, Name};
use cx_core::{Member, Ty, TyForm, Types};
use cx_kinds::{Known, record_of};
use std::alloc::Global;

/// The element of a part that a designator names, or None where there is none: by an index that isn't negative, in an array that has
/// so many elements (ISO C99, 6.7.8p6). Refused only for want of memory.
pub fn element_at(
    alloc: Global,
    known: Known,
    at: Option<&At>,
    index: Option<Int>,
) -> Result<Option<At>, Memory>
    requires { IsKnown known }
    ensures { IfOk result (λ made. option_map view_at made ≡ element_at (types_in known.entry) (option_map (λ one. view_at one.now) at.entry) index) }
{
    let Some(at) = at else {
        return Ok(None);
    };
    let Some(index) = index else {
        return Ok(None);
    };
    indexed(alloc, known, at, index)
}

#[tactic(auto, using(crate::proofs::Indexes::index_below_is, crate::proofs::Indexes::no_index_below))]
fn indexed(alloc: Global, known: Known, at: &At, index: Int) -> Result<Option<At>, Memory>
    requires { IsKnown known }
    ensures { IfOk result (λ made. option_map view_at made ≡ index_in (types_in known.entry) (view_at at.now) index) }
{
    match index_below(known, at.ty.get(), index) {
        None => Ok(None),
        Some(index) => within(alloc, known, at, &[index]),
    }
}

// An index of an array that has such an element.
fn index_below(known: Known, t: &Ty, index: Int) -> Option<u64>
    requires { IsKnown known }
    ensures { result ≡ index_below (types_in known.entry) (view_type t.now) index }
{
    match &t.form {
        TyForm::Array(element, length) => below(bound_of(known, element.get(), *length), index),
        TyForm::Void
        | TyForm::Basic(_)
        | TyForm::Enum(_)
        | TyForm::Pointer(_)
        | TyForm::Record(_)
        | TyForm::Function(_) => None,
    }
}

fn below(bound: u64, index: Int) -> Option<u64>
    ensures { result ≡ below bound index }
{
    if index < 0 || index >= Int::from(bound) {
        return None;
    }
    Some(index as u64)
}

/// The member of a part that a designator names, or None where there is none (ISO C99, 6.7.8p7). Refused only for want of memory.
pub fn member_at(
    alloc: Global,
    known: Known,
    at: Option<&At>,
    name: &[u8],
) -> Result<Option<At>, Memory>
    requires { IsKnown known }
    ensures { IfOk result (λ made. option_map view_at made ≡ member_at (types_in known.entry) (option_map (λ one. view_at one.now) at.entry) name.now) }
{
    let Some(at) = at else {
        return Ok(None);
    };
    match called(known.types, record_of(at.ty.get()), name) {
        None => Ok(None),
        Some(index) => within(alloc, known, at, &[index]),
    }
}

fn called(types: &Types, number: Option<u32>, name: &[u8]) -> Option<u64>
    ensures { result ≡ called_from 0 name.now (members_by (view_types types.now) number) }
{
    match number {
        None => None,
        Some(number) => index_called(members_of(types, number), name),
    }
}

// The number of the first member that has a name.
fn index_called(members: &[Member], name: &[u8]) -> Option<u64>
    ensures { result ≡ called_from 0 name.now (map view_member members.now) }
{
    for (index, member) in members.iter().enumerate() {
        if is_called(&member.name, name) {
            return Some(index as u64);
        }
    }
    None
}

fn is_called(found: &Option<Name>, name: &[u8]) -> bool
    ensures { result ≡ is_called name.now found.now }
{
    match found {
        None => false,
        Some(other) => other.bytes() == name,
    }
}

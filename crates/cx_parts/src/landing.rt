//! Where a value lands that is given for a part of an object (ISO C99, 6.7.8p13, p14, p20).

ghost use Rattle.std.specs.Prelude.{◌≡◌, ◌++◌, IfOk, map, option_map, slice_get};
ghost use Rattle.cx_core.specs.Views.{view_type, view_types, view_member};
ghost use Rattle.cx_operands.specs.Views.{view_value_type};
ghost use Rattle.cx_parts.specs.Landing.{zeros, innermost, inner_lands, is_numbered};
ghost use Rattle.cx_parts.specs.Views.{view_kind};
ghost use Rattle.cx_rules.specs.Initial.{landing, lands_in, record_lands, in_member, stays, of_type};
ghost use Rattle.cx_rules.specs.Types.{record_of};

use crate::parts::{first_named, members_of};
use cr_base::{Items, Memory};
use cx_core::{Member, Ty, TyForm, Types};
use cx_kinds::{completed_count, is_character_array, record_of};
use cx_operands::ValueTy;
use std::alloc::Global;

/// What is given for a part of an object.
#[derive(Clone, Copy)]
pub enum Kind<'a> {
    /// A string literal.
    Text,
    /// A value of a type.
    Value(ValueTy<'a>),
}

/// The path of the first part of an object of a type that something given is for: the object itself, or the first scalar in it;
/// None where there is no such part. Refused only for want of memory.
#[tactic(auto, using(crate::proofs::Landings::landing_by))]
pub(crate) fn landing(
    alloc: Global,
    types: &Types,
    kind: Kind<'_>,
    t: &Ty,
) -> Result<Option<Items<u64>>, Memory>
    ensures { IfOk result (λ made. made ≡ landing (view_types types.now) (view_kind kind.entry) (view_type t.now)) }
{
    lands_in(
        alloc,
        types,
        completed_count(types.records.as_slice()),
        kind,
        t,
    )
}

// The same, where records hold each other at most so deep.
#[cycle(landing)]
#[tactic(auto, using(crate::proofs::Landings::lands_by))]
fn lands_in(
    alloc: Global,
    types: &Types,
    depth: usize,
    kind: Kind<'_>,
    t: &Ty,
) -> Result<Option<Items<u64>>, Memory>
    ensures { IfOk result (λ made. made ≡ lands_in (record_lands (view_types types.now) (view_kind kind.entry) depth) (view_types types.now) (view_kind kind.entry) (view_type t.now)) }
{
    let front = zeros(alloc, types, kind, t)?;
    let inner = innermost(types, kind, t);
    let found = inner_lands(alloc, types, depth, kind, inner)?;
    behind(front, found)
}

// Where something lands that is given for what is no array, or stays there.
#[cycle(landing)]
fn inner_lands(
    alloc: Global,
    types: &Types,
    depth: usize,
    kind: Kind<'_>,
    t: &Ty,
) -> Result<Option<Items<u64>>, Memory>
    ensures { IfOk result (λ made. made ≡ inner_lands (record_lands (view_types types.now) (view_kind kind.entry) depth) (stays (view_types types.now) (view_kind kind.entry) (view_type t.now)) (view_type t.now)) }
{
    if stays(types, kind, t) {
        return Ok(Some(Items::new(alloc)));
    }
    match record_of(t) {
        None => Ok(Some(Items::new(alloc))),
        Some(number) => record_lands(alloc, types, depth, kind, number),
    }
}

// Where it lands in the first member of a record that has a name.
#[cycle(landing)]
fn record_lands(
    alloc: Global,
    types: &Types,
    depth: usize,
    kind: Kind<'_>,
    number: u32,
) -> Result<Option<Items<u64>>, Memory>
    ensures { IfOk result (λ made. made ≡ record_lands (view_types types.now) (view_kind kind.entry) depth number) }
{
    if depth == 0 {
        return Ok(None);
    }
    let members = members_of(types, number);
    match first_named(members) {
        None => Ok(None),
        Some(index) => member_lands(alloc, types, depth - 1, kind, members, index),
    }
}

// Where it lands in the member with an index.
#[cycle(landing)]
fn member_lands(
    alloc: Global,
    types: &Types,
    depth: usize,
    kind: Kind<'_>,
    members: &[Member],
    index: u64,
) -> Result<Option<Items<u64>>, Memory>
    ensures { IfOk result (λ made. made ≡ in_member (lands_in (record_lands (view_types types.now) (view_kind kind.entry) depth) (view_types types.now) (view_kind kind.entry)) index (slice_get (map view_member members.now) index)) }
{
    let Some(one) = members.get(index as usize) else {
        return Ok(None);
    };
    let found = lands_in(alloc, types, depth, kind, &one.ty)?;
    let mut front = Items::new(alloc);
    front.push(index)?;
    behind(front, found)
}

// A path behind another, where there is one.
fn behind(mut front: Items<u64>, path: Option<Items<u64>>) -> Result<Option<Items<u64>>, Memory>
    ensures { IfOk result (λ made. made ≡ option_map (λ rest. front ++ rest) path) }
{
    match path {
        None => Ok(None),
        Some(rest) => {
            front.append(rest)?;
            Ok(Some(front))
        }
    }
}

// The first elements of arrays of arrays that lead to what is no array, or at which what is given stays.
fn zeros(alloc: Global, types: &Types, kind: Kind<'_>, t: &Ty) -> Result<Items<u64>, Memory>
    ensures { IfOk result (λ made. made ≡ zeros (view_types types.now) (view_kind kind.entry) (view_type t.now)) }
{
    if stays(types, kind, t) {
        return Ok(Items::new(alloc));
    }
    match &t.form {
        TyForm::Array(element, _) => {
            let mut made = Items::new(alloc);
            made.push(0)?;
            let rest = zeros(alloc, types, kind, element.get())?;
            made.append(rest)?;
            Ok(made)
        }
        _ => Ok(Items::new(alloc)),
    }
}

// What they lead to.
fn innermost<'a>(types: &Types, kind: Kind<'_>, t: &'a Ty) -> &'a Ty
    ensures { view_type result.now ≡ innermost (view_types types.now) (view_kind kind.entry) (view_type t.now) }
{
    if stays(types, kind, t) {
        return t;
    }
    match &t.form {
        TyForm::Array(element, _) => innermost(types, kind, element.get()),
        _ => t,
    }
}

// Whether what is given initialises an object of a type as a whole: a string literal an array of characters, and a value a
// structure or union of its type.
fn stays(types: &Types, kind: Kind<'_>, t: &Ty) -> bool
    ensures { result ≡ stays (view_types types.now) (view_kind kind.entry) (view_type t.now) }
{
    match kind {
        Kind::Text => is_character_array(t),
        Kind::Value(value) => is_of_record(types, t, value),
    }
}

#[tactic(auto, using(crate::proofs::Landings::of_record, crate::proofs::Landings::of_none))]
fn is_of_record(_types: &Types, t: &Ty, value: ValueTy<'_>) -> bool
    ensures { result ≡ stays (view_types _types.now) (of_type (view_value_type value.entry)) (view_type t.now) }
{
    match record_of(t) {
        None => false,
        Some(number) => is_numbered(number, value),
    }
}

fn is_numbered(number: u32, value: ValueTy<'_>) -> bool
    ensures { result ≡ is_numbered number (record_of (view_value_type value.entry)) }
{
    match value.record() {
        None => false,
        Some(other) => number == other,
    }
}

//! The puts of an initialiser, and the object that it leaves (ISO C99, 6.7.8p19 to p22).

ghost use Rattle.std.specs.Prelude.{◌≡◌, ◌++◌, [], map, Some, option_map, IfOk, OnOk};
ghost use Rattle.cx_core.specs.Trees.{form_of_type, array, record_type};
ghost use Rattle.cx_core.specs.ValidTypes.{part_at, direct_part, spot_of, within};
ghost use Rattle.cx_core.specs.Views.{view_type, view_put};
ghost use Rattle.cx_init.specs.Parts.{after_one, completed_by, has_index, least_from, part_from, put_before, put_of, puts_listed, view_part};
ghost use Rattle.cx_init.specs.Views.{view_stored, view_filled};
ghost use Rattle.cx_kinds.specs.Known.{IsKnown, types_in};
ghost use Rattle.cx_rules.specs.Pieces.{filled_object};

use crate::order::kept_in_order;
use crate::stored::Stored;
use crate::values::StoredValues;
use cr_base::{Boxed, Items, Memory, Spot};
use cx_core::{Put, Ty, TyForm};
use cx_kinds::{Known, record_at, size_of};
use std::alloc::Global;

/// What an initialiser leaves of the object that it is for.
#[derive(Drop)]
pub struct Filled {
    /// The type of the object; an array without length has got one (ISO C99, 6.7.8p22).
    pub ty: Boxed<Ty>,
    /// What is stored, in the order of the places.
    pub puts: Items<Put>,
}

// A part of an object: where it stands, and its type.
#[derive(Clone, Copy)]
pub(crate) struct Part<'a> {
    pub(crate) spot: Spot,
    pub(crate) ty: &'a Ty,
}

#[tactic(auto, using(crate::proofs::PartsLaws::element_by))]
fn element_at<'a>(
    known: Known<'a>,
    element: &'a Ty,
    length: Option<u64>,
    index: u64,
) -> Result<Option<Part<'a>>, Memory>
    requires { IsKnown known }
    ensures { IfOk result (λ found. option_map view_part found ≡ direct_part (types_in known.entry) index (array (view_type element.now) length)) }
{
    if !has_index(length, index) {
        return Ok(None);
    }
    let Some(size) = size_of(known, element) else {
        return Ok(None);
    };
    let Some(byte) = index.checked_mul(size) else {
        return Err(Memory);
    };
    Ok(Some(part_from(element, byte)))
}

// A part that begins with a byte.
fn part_from(t: &Ty, byte: u64) -> Part<'_>
    ensures { view_part result ≡ part_from (view_type t.now) byte }
{
    Part {
        spot: Spot {
            byte,
            bit: 0,
            width: 0,
        },
        ty: t,
    }
}

fn has_index(length: Option<u64>, index: u64) -> bool
    ensures { result ≡ has_index length index }
{
    match length {
        None => false,
        Some(length) => index < length,
    }
}

fn member_part<'a>(known: Known<'a>, number: u32, index: u64) -> Option<Part<'a>>
    requires { IsKnown known }
    ensures { option_map view_part result ≡ direct_part (types_in known.entry) index (record_type number) }
{
    let Some(one) = record_at(known.types, number) else {
        return None;
    };
    let Some(member) = one.members.get(index as usize) else {
        return None;
    };
    let Some(spot) = spot_of(known, number, index) else {
        return None;
    };
    Some(Part {
        spot,
        ty: &member.ty,
    })
}

#[tactic(auto, using(cx_pairs::proofs::Spots::same_spot))]
fn spot_of(known: Known, number: u32, index: u64) -> Option<Spot>
    requires { IsKnown known }
    ensures { result ≡ spot_of (types_in known.entry) (record_type number) index }
{
    known.layouts.spot(number, index as usize)
}

// The element or the member with a number.
fn direct_part<'a>(known: Known<'a>, t: &'a Ty, index: u64) -> Result<Option<Part<'a>>, Memory>
    requires { IsKnown known }
    ensures { IfOk result (λ found. option_map view_part found ≡ direct_part (types_in known.entry) index (form_of_type (view_type t.now))) }
{
    match &t.form {
        TyForm::Array(element, length) => element_at(known, element.get(), *length, index),
        TyForm::Record(number) => Ok(member_part(known, *number, index)),
        TyForm::Void
        | TyForm::Basic(_)
        | TyForm::Enum(_)
        | TyForm::Pointer(_)
        | TyForm::Function(_) => Ok(None),
    }
}

// A part of a part.
fn within<'a>(outer: Part<'a>, inner: Part<'a>) -> Result<Option<Part<'a>>, Memory>
    ensures { IfOk result (λ found. option_map view_part found ≡ Some (within (view_part outer.entry) (view_part inner.entry))) }
{
    let Some(byte) = outer.spot.byte.checked_add(inner.spot.byte) else {
        return Err(Memory);
    };
    let Some(bit) = outer.spot.bit.checked_add(inner.spot.bit) else {
        return Err(Memory);
    };
    let Some(width) = outer.spot.width.checked_add(inner.spot.width) else {
        return Err(Memory);
    };
    Ok(Some(Part {
        spot: Spot { byte, bit, width },
        ty: inner.ty,
    }))
}

// The part to which a path leads.
fn part_at<'a>(known: Known<'a>, t: &'a Ty, path: &[u64]) -> Result<Option<Part<'a>>, Memory>
    requires { IsKnown known }
    ensures { IfOk result (λ found. option_map view_part found ≡ part_at (types_in known.entry) path.now (view_type t.now)) }
{
    let Some((index, rest)) = path.split_first() else {
        return Ok(Some(part_from(t, 0)));
    };
    let Some(outer) = direct_part(known, t, *index)? else {
        return Ok(None);
    };
    match part_at(known, outer.ty, rest)? {
        None => Ok(None),
        Some(inner) => within(outer, inner),
    }
}

// One value as a put, where its path leads to a part.
fn put_of(alloc: Global, known: Known, t: &Ty, one: Stored) -> Result<Option<Put>, Memory>
    requires { IsKnown known }
    ensures { IfOk result (λ made. option_map view_put made ≡ put_of (view_stored one) (part_at (types_in known.entry) one.path (view_type t.now))) }
{
    match part_at(known, t, one.path.as_slice())? {
        None => Ok(None),
        Some(part) => {
            let ty = part.ty.copy(alloc)?;
            Ok(Some(Put {
                spot: part.spot,
                ty: ty.into_inner(),
                value: one.value,
            }))
        }
    }
}

#[tactic(auto, using(crate::proofs::PartsLaws::listed_last))]
fn puts_listed(
    alloc: Global,
    known: Known,
    t: &Ty,
    sorted: Items<Stored>,
) -> Result<Items<Put>, Memory>
    requires { IsKnown known }
    ensures { IfOk result (λ made. map view_put made ≡ puts_listed (types_in known.entry) (view_type t.now) (map view_stored sorted)) }
{
    let mut puts = Items::new(alloc);
    for one in sorted.into_vec() {
        let found = put_of(alloc, known, t, one)?;
        push_found(&mut puts, found)?;
    }
    Ok(puts)
}

fn push_found(puts: &mut Items<Put>, found: Option<Put>) -> Result<(), Memory>
    ensures { OnOk result (map view_put puts.new ≡ map view_put puts.old ++ put_before (option_map view_put found) []) }
{
    match found {
        None => Ok(()),
        Some(put) => puts.push(put),
    }
}

// One more than the greatest number of an element in which something is stored; a number that is too large counts as memory.
fn least_length(stored: &[Stored]) -> Result<u64, Memory>
    ensures { IfOk result (λ length. length ≡ least_from 0 (map view_stored stored.now)) }
{
    let mut least = 0;
    for one in stored {
        least = after_one(one.path.as_slice(), least)?;
    }
    Ok(least)
}

fn after_one(path: &[u64], least: u64) -> Result<u64, Memory>
    ensures { IfOk result (λ length. length ≡ after_one path.now least) }
{
    let Some(index) = path.first() else {
        return Ok(least);
    };
    let Some(length) = index.checked_add(1) else {
        return Err(Memory);
    };
    Ok(length.max(least))
}

// An array without length gets this one.
fn completed(alloc: Global, ty: Boxed<Ty>, least: u64) -> Result<Boxed<Ty>, Memory>
    ensures { IfOk result (λ made. view_type made ≡ completed_by least (view_type ty)) }
{
    let Ty { form, is_const } = ty.into_inner();
    match form {
        TyForm::Array(element, None) => Boxed::new(
            alloc,
            Ty {
                form: TyForm::Array(element, Some(least)),
                is_const,
            },
        ),
        form => Boxed::new(alloc, Ty { form, is_const }),
    }
}

/// What an initialiser leaves of an object of a type, by what it stored in it (ISO C99, 6.7.8p19 to p22). Refused only for want of
/// memory.
#[tactic(auto, using(crate::proofs::PartsLaws::filled_by))]
pub fn filled_object(
    alloc: Global,
    known: Known,
    ty: Boxed<Ty>,
    stored: StoredValues,
) -> Result<Filled, Memory>
    requires { IsKnown known }
    ensures { IfOk result (λ made. view_filled made ≡ filled_object (types_in known.entry) (view_type ty) (map view_stored stored)) }
{
    let least = least_length(stored.as_slice())?;
    let sorted = kept_in_order(alloc, known, ty.get(), stored.into_items())?;
    let ty = completed(alloc, ty, least)?;
    let puts = puts_listed(alloc, known, ty.get(), sorted)?;
    Ok(Filled { ty, puts })
}

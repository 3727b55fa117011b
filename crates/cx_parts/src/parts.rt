//! Elements and members by their numbers (ISO C99, 6.7.8p6, p17).

ghost use Rattle.std.specs.Prelude.{◌≡◌, ◌≤◌, ◌<◌, ◌+◌, if◌then◌else◌, map, drop, length, IfSome, None, Some, option_map, slice_get};
ghost use Rattle.cx_core.specs.Views.{view_type, view_types, view_member};
ghost use Rattle.cx_kinds.specs.Known.{IsKnown, types_in};
ghost use Rattle.cx_parts.specs.Designators.{bound_of};
ghost use Rattle.cx_rules.specs.Initial.{part_type, first_part, next_part, has_element, most_elements, first_named, behind, members_of, record_at, is_union_of, is_union_type};

use cx_core::{Member, Ty, TyForm, Types};
use cx_kinds::{Known, record_at, size_of};

// No element of an array without length ends past so many bytes.
const MOST_BYTES: u64 = 9_223_372_036_854_775_808;

/// The type of the element or the member of a type with a number, or None where there is none.
pub fn part_type<'a>(known: Known<'a>, t: &'a Ty, index: u64) -> Option<&'a Ty>
    requires { IsKnown known }
    ensures { option_map (λ one. view_type one.now) result ≡ part_type (types_in known.entry) (view_type t.now) index }
{
    match &t.form {
        TyForm::Array(element, length) => element_type(known, element.get(), *length, index),
        TyForm::Record(number) => member_type(known.types, *number, index),
        TyForm::Void
        | TyForm::Basic(_)
        | TyForm::Enum(_)
        | TyForm::Pointer(_)
        | TyForm::Function(_) => None,
    }
}

fn element_type<'a>(
    known: Known<'a>,
    element: &'a Ty,
    length: Option<u64>,
    index: u64,
) -> Option<&'a Ty>
    requires { IsKnown known }
    ensures { option_map (λ one. view_type one.now) result ≡ (if has_element (types_in known.entry) (view_type element.now) length index then Some (view_type element.now) else None) }
{
    if has_element(known, element, length, index) {
        Some(element)
    } else {
        None
    }
}

/// Whether an array has an element with a number (ISO C99, 6.7.8p6, p22).
#[tactic(auto, using(crate::proofs::Indexes::has_element_is))]
pub fn has_element(known: Known, element: &Ty, length: Option<u64>, index: u64) -> bool
    requires { IsKnown known }
    ensures { result ≡ has_element (types_in known.entry) (view_type element.now) length index }
{
    index < bound_of(known, element, length)
}

/// How many elements an array has, or may have where its length isn't known (ISO C99, 6.7.8p22).
pub(crate) fn bound_of(known: Known, element: &Ty, length: Option<u64>) -> u64
    requires { IsKnown known }
    ensures { result ≡ bound_of (types_in known.entry) (view_type element.now) length }
{
    match length {
        None => most_elements(size_of(known, element)),
        Some(length) => length,
    }
}

// How many elements of a size an array without length may have.
fn most_elements(size: Option<u64>) -> u64
    ensures { result ≡ most_elements size }
{
    match size {
        None => 0,
        Some(0) => 0,
        Some(size) => MOST_BYTES / size,
    }
}

fn member_type(types: &Types, number: u32, index: u64) -> Option<&Ty>
    ensures { option_map (λ one. view_type one.now) result ≡ option_map (λ one. one.type) (slice_get (members_of (record_at (view_types types.now) number)) index) }
{
    let members = members_of(types, number);
    let one = members.get(index as usize)?;
    Some(&one.ty)
}

// The members of a structure or union, of which an incomplete one has none.
pub(crate) fn members_of(types: &Types, number: u32) -> &[Member]
    ensures { map view_member result.now ≡ members_of (record_at (view_types types.now) number) }
{
    match record_at(types, number) {
        None => &[],
        Some(one) => one.members.as_slice(),
    }
}

// Whether a record is a union.
fn is_union_at(types: &Types, number: u32) -> bool
    ensures { result ≡ is_union_of (record_at (view_types types.now) number) }
{
    match record_at(types, number) {
        None => false,
        Some(one) => one.is_union,
    }
}

/// Whether it is a completed union type (ISO C99, 6.7.2.1).
pub fn is_union_type(types: &Types, t: &Ty) -> bool
    ensures { result ≡ is_union_type (view_types types.now) (view_type t.now) }
{
    match &t.form {
        TyForm::Record(number) => is_union_at(types, *number),
        TyForm::Void
        | TyForm::Basic(_)
        | TyForm::Enum(_)
        | TyForm::Pointer(_)
        | TyForm::Array(_, _)
        | TyForm::Function(_) => false,
    }
}

// The number of the first member that has a name.
pub(crate) fn first_named(members: &[Member]) -> Option<u64>
    ensures number { result ≡ first_named 0 (map view_member members.now) }
    ensures within { IfSome result (λ index. index < length members.now) }
{
    for (index, member) in members.iter().enumerate() {
        if member.name.is_some() {
            return Some(index as u64);
        }
    }
    None
}

// The number of the first member that has a name, from one on.
fn named_behind(members: &[Member], from: usize) -> Option<u64>
    requires { from ≤ length members.now }
    ensures { result ≡ first_named from (behind from (map view_member members.now)) }
{
    let Some(offset) = first_named(those_from(members, from)) else {
        return None;
    };
    Some(from as u64 + offset)
}

fn those_from(members: &[Member], from: usize) -> &[Member]
    requires { from ≤ length members.now }
    ensures { result.now ≡ drop from members.now }
{
    &members[from..]
}

/// The first part of an array, a structure or a union, or None where it has none (ISO C99, 6.7.8p17).
pub(crate) fn first_part(known: Known, t: &Ty) -> Option<u64>
    requires { IsKnown known }
    ensures { result ≡ first_part (types_in known.entry) (view_type t.now) }
{
    match &t.form {
        TyForm::Array(element, length) => first_element(known, element.get(), *length),
        TyForm::Record(number) => first_named(members_of(known.types, *number)),
        TyForm::Void
        | TyForm::Basic(_)
        | TyForm::Enum(_)
        | TyForm::Pointer(_)
        | TyForm::Function(_) => None,
    }
}

fn first_element(known: Known, element: &Ty, length: Option<u64>) -> Option<u64>
    requires { IsKnown known }
    ensures { result ≡ (if has_element (types_in known.entry) (view_type element.now) length 0 then Some 0 else None) }
{
    if has_element(known, element, length, 0) {
        Some(0)
    } else {
        None
    }
}

/// The part behind one; of a union only the first is initialised in turn (ISO C99, 6.7.8p17).
pub(crate) fn next_part(known: Known, t: &Ty, index: u64) -> Option<u64>
    requires { IsKnown known }
    ensures { result ≡ next_part (types_in known.entry) (view_type t.now) index }
{
    match &t.form {
        TyForm::Array(element, length) => next_element(known, element.get(), *length, index),
        TyForm::Record(number) => next_member(known.types, *number, index),
        TyForm::Void
        | TyForm::Basic(_)
        | TyForm::Enum(_)
        | TyForm::Pointer(_)
        | TyForm::Function(_) => None,
    }
}

fn next_element(known: Known, element: &Ty, length: Option<u64>, index: u64) -> Option<u64>
    requires { IsKnown known }
    ensures { result ≡ (if has_element (types_in known.entry) (view_type element.now) length (index + 1) then Some (index + 1) else None) }
{
    let Some(next) = index.checked_add(1) else {
        return None;
    };
    if has_element(known, element, length, next) {
        Some(next)
    } else {
        None
    }
}

fn next_member(types: &Types, number: u32, index: u64) -> Option<u64>
    ensures { result ≡ (if is_union_of (record_at (view_types types.now) number) then None else first_named (index + 1) (behind (index + 1) (members_of (record_at (view_types types.now) number)))) }
{
    if is_union_at(types, number) {
        return None;
    }
    let members = members_of(types, number);
    let from = index as usize;
    if from >= members.len() {
        return None;
    }
    named_behind(members, from + 1)
}

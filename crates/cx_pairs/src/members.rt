//! Members of structures and unions by their names (ISO C99, 6.5.2.3).

ghost use Rattle.std.specs.Prelude.{◌≡◌, map, option_map, slice_get, Some};
ghost use Rattle.cx_core.specs.Trees.{record_type};
ghost use Rattle.cx_core.specs.ValidTypes.{spot_of};
ghost use Rattle.cx_core.specs.Views.{view_type, view_member};
ghost use Rattle.cx_kinds.specs.Known.{IsKnown, types_in};
ghost use Rattle.cx_pairs.specs.Members.{view_found};
ghost use Rattle.cx_rules.specs.Meanings.{find_member, found_at, found_as, is_named, named_from, members_in};

use cr_base::{Name, Spot};
use cx_core::{Member, Ty, TyForm};
use cx_kinds::{Known, record_at};

/// A member of a structure or union that has a name.
#[derive(Clone, Copy)]
pub struct FoundMember<'a> {
    /// Its number in text order, from 0.
    pub index: usize,
    pub ty: &'a Ty,
    /// Where it stands.
    pub spot: Spot,
}

/// The member of a structure or union type that has a name, or None where there is none (ISO C99, 6.5.2.3p1).
pub fn find_member<'a>(known: Known<'a>, t: &Ty, name: &[u8]) -> Option<FoundMember<'a>>
    requires { IsKnown known }
    ensures { option_map view_found result ≡ find_member (types_in known.entry) (view_type t.now) name.now }
{
    match &t.form {
        TyForm::Record(number) => member_of(known, *number, name),
        _ => None,
    }
}

fn member_of<'a>(known: Known<'a>, number: u32, name: &[u8]) -> Option<FoundMember<'a>>
    requires { IsKnown known }
    ensures { option_map view_found result ≡ found_at (types_in known.entry) (record_type number) (named_from 0 name.now (members_in (types_in known.entry) (Some number))) }
{
    let Some(one) = record_at(known.types, number) else {
        return None;
    };
    let members = one.members.as_slice();
    let Some(index) = index_of(members, name) else {
        return None;
    };
    member_at(known, number, members, index)
}

// The member with an index of a record with these members.
fn member_at<'a>(
    known: Known<'a>,
    number: u32,
    members: &'a [Member],
    index: usize,
) -> Option<FoundMember<'a>>
    requires { IsKnown known }
    ensures { option_map view_found result ≡ found_as index (slice_get (map view_member members.now) index) (spot_of (types_in known.entry) (record_type number) index) }
{
    let Some(member) = members.get(index) else {
        return None;
    };
    let Some(spot) = spot_of(known, number, index) else {
        return None;
    };
    Some(FoundMember {
        index,
        ty: &member.ty,
        spot,
    })
}

#[tactic(auto, using(crate::proofs::Spots::same_spot))]
fn spot_of(known: Known, number: u32, index: usize) -> Option<Spot>
    requires { IsKnown known }
    ensures { result ≡ spot_of (types_in known.entry) (record_type number) index }
{
    known.layouts.spot(number, index)
}

// The index of the first member with a name.
fn index_of(members: &[Member], name: &[u8]) -> Option<usize>
    ensures { result ≡ named_from 0 name.now (map view_member members.now) }
{
    for (index, member) in members.iter().enumerate() {
        if is_named(&member.name, name) {
            return Some(index);
        }
    }
    None
}

fn is_named(name: &Option<Name>, wanted: &[u8]) -> bool
    ensures { result ≡ is_named wanted.now name.now }
{
    match name {
        None => false,
        Some(name) => name.bytes() == wanted,
    }
}

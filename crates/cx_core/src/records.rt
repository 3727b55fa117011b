ghost use Rattle.std.specs.Prelude.{◌≡◌, map, IfOk, slice_get, option_map};
ghost use Rattle.std.specs.List.{count_by};
ghost use Rattle.std.specs.Option.{option_copied, option_flatten};
ghost use Rattle.cx_core.specs.Compatible.{names_agree, widths_agree, named_as, are_alike, tags_agree};
ghost use Rattle.cx_core.specs.Needed.{needed_members, needed_in_order, each, needed_partner, needed_by_one, needed_in_some_order, needed_by_members, needed_contents, needed_by_pair, gathered, answer};
ghost use Rattle.cx_core.specs.Views.{view_types, view_member, view_record, view_tag};

use crate::compatibility::RecordPair;
use crate::meets::{meet_in_basic, of_two_units, types_meet};
use crate::ty::{Member, RecordTag, RecordTy, Types};
use cr_base::{Items, Memory, Name};

// Whether two records are of two units and can be compatible; the pairs of other records that have to be so are
// put behind the others.
pub(crate) fn pair_meets(
    types: &Types,
    pair: RecordPair,
    pairs: &mut Items<RecordPair>,
) -> Result<bool, Memory>
    ensures { IfOk result (λ found. answer found pairs.new ≡ gathered pairs.old (needed_by_pair (view_types types.now) pair)) }
{
    if !of_two_units(types.record_units.as_slice(), pair.first, pair.second) {
        return Ok(false);
    }
    let Some(first) = types.record_tags.get(pair.first as usize) else {
        return Ok(false);
    };
    let Some(second) = types.record_tags.get(pair.second as usize) else {
        return Ok(false);
    };
    if !tags_agree(first, second) {
        return Ok(false);
    }
    contents_meet(types, first.is_union, pair, pairs)
}

fn tags_agree(first: &RecordTag, second: &RecordTag) -> bool
    ensures { result ≡ tags_agree (view_tag first.now) (view_tag second.now) }
{
    first.is_union == second.is_union && names_agree(&first.tag, &second.tag)
}

fn names_agree(first: &Option<Name>, second: &Option<Name>) -> bool
    ensures { result ≡ names_agree first.now second.now }
{
    match (first, second) {
        (Some(name), Some(other)) => name.bytes() == other.bytes(),
        (None, None) => true,
        _ => false,
    }
}

fn record_with(types: &Types, number: u32) -> Option<&RecordTy>
    ensures { option_map view_record (option_copied result) ≡ option_flatten (slice_get (view_types types.now).records number) }
{
    match types.records.get(number as usize) {
        Some(found) => found.as_ref(),
        None => None,
    }
}

// Whether the members of two records can correspond, where both are completed.
fn contents_meet(
    types: &Types,
    is_union: bool,
    pair: RecordPair,
    pairs: &mut Items<RecordPair>,
) -> Result<bool, Memory>
    ensures { IfOk result (λ found. answer found pairs.new ≡ gathered pairs.old (needed_contents (view_types types.now) is_union
        (option_flatten (slice_get (view_types types.now).records pair.first))
        (option_flatten (slice_get (view_types types.now).records pair.second)))) }
{
    let Some(first) = record_with(types, pair.first) else {
        return Ok(true);
    };
    let Some(second) = record_with(types, pair.second) else {
        return Ok(true);
    };
    if is_union {
        meet_in_some_order(
            types,
            first.members.as_slice(),
            second.members.as_slice(),
            pairs,
        )
    } else {
        meet_in_order(
            types,
            first.members.as_slice(),
            second.members.as_slice(),
            pairs,
        )
    }
}

fn members_meet(
    types: &Types,
    first: &Member,
    second: &Member,
    pairs: &mut Items<RecordPair>,
) -> Result<bool, Memory>
    ensures { IfOk result (λ found. answer found pairs.new ≡
        gathered pairs.old (needed_members (view_types types.now) (view_member first.now) (view_member second.now))) }
{
    if !names_agree(&first.name, &second.name) {
        return Ok(false);
    }
    if !widths_agree(first.bits, second.bits) {
        return Ok(false);
    }
    types_meet(types, &first.ty, &second.ty, pairs)
}

fn widths_agree(first: Option<u32>, second: Option<u32>) -> bool
    ensures { result ≡ widths_agree first second }
{
    match (first, second) {
        (Some(width), Some(other)) => width == other,
        (None, None) => true,
        _ => false,
    }
}

// Whether the members of two structures can correspond in their order.
fn meet_in_order(
    types: &Types,
    firsts: &[Member],
    seconds: &[Member],
    pairs: &mut Items<RecordPair>,
) -> Result<bool, Memory>
    ensures { IfOk result (λ found. answer found pairs.new ≡ gathered pairs.old
        (needed_in_order (view_types types.now) (map view_member firsts.now) (map view_member seconds.now))) }
{
    for index in 0..firsts.len() {
        let first = &firsts[index];
        let Some(second) = seconds.get(index) else {
            return Ok(false);
        };
        if !members_meet(types, first, second, pairs)? {
            return Ok(false);
        }
    }
    Ok(firsts.len() == seconds.len())
}

// Whether the members of two unions can correspond in some order.
#[tactic(auto, using(crate::proofs::Gathers::gathered_none))]
fn meet_in_some_order(
    types: &Types,
    firsts: &[Member],
    seconds: &[Member],
    pairs: &mut Items<RecordPair>,
) -> Result<bool, Memory>
    ensures { IfOk result (λ found. answer found pairs.new ≡ gathered pairs.old
        (needed_in_some_order (view_types types.now) (map view_member firsts.now) (map view_member seconds.now))) }
{
    if !partners_meet(types, false, firsts, seconds, pairs)? {
        return Ok(false);
    }
    let found = partners_meet(types, true, seconds, firsts, pairs)?;
    Ok(found)
}

// Whether each member of a union can have its own in another; `back` where it is the second of two.
fn partners_meet(
    types: &Types,
    back: bool,
    own: &[Member],
    others: &[Member],
    pairs: &mut Items<RecordPair>,
) -> Result<bool, Memory>
    ensures { IfOk result (λ found. answer found pairs.new ≡ gathered pairs.old
        (each (needed_by_one (view_types types.now) back (map view_member own.now) (map view_member others.now)) (map view_member own.now))) }
{
    for one in own {
        if !partner_meets(types, back, own, others, one, pairs)? {
            return Ok(false);
        }
    }
    Ok(true)
}

// Whether a member of a union can have its own in another.
fn partner_meets(
    types: &Types,
    back: bool,
    own: &[Member],
    others: &[Member],
    one: &Member,
    pairs: &mut Items<RecordPair>,
) -> Result<bool, Memory>
    ensures { IfOk result (λ found. answer found pairs.new ≡ gathered pairs.old
        (needed_by_one (view_types types.now) back (map view_member own.now) (map view_member others.now) (view_member one.now))) }
{
    if one.name.is_none() {
        return Ok(alike_count(types, own, one) == alike_count(types, others, one));
    }
    match named_as(others, &one.name) {
        Some(other) => members_meet_by(types, back, one, other, pairs),
        None => Ok(false),
    }
}

fn members_meet_by(
    types: &Types,
    back: bool,
    one: &Member,
    other: &Member,
    pairs: &mut Items<RecordPair>,
) -> Result<bool, Memory>
    ensures { IfOk result (λ found. answer found pairs.new ≡ gathered pairs.old
        (needed_partner (view_types types.now) back (view_member one.now) (Some (view_member other.now)))) }
{
    if back {
        members_meet(types, other, one, pairs)
    } else {
        members_meet(types, one, other, pairs)
    }
}

fn named_as<'a>(members: &'a [Member], name: &Option<Name>) -> Option<&'a Member>
    ensures { option_map view_member (option_copied result) ≡ named_as name.now (map view_member members.now) }
{
    for one in members {
        if names_agree(name, &one.name) {
            return Some(one);
        }
    }
    None
}

fn alike_count(types: &Types, members: &[Member], one: &Member) -> usize
    ensures { result ≡ count_by (are_alike (view_types types.now) (view_member one.now)) (map view_member members.now) }
{
    let mut count = 0;
    for other in members {
        if are_alike(types, one, other) {
            count += 1;
        }
    }
    count
}

fn are_alike(types: &Types, first: &Member, second: &Member) -> bool
    ensures { result ≡ are_alike (view_types types.now) (view_member first.now) (view_member second.now) }
{
    first.name.is_none()
        && second.name.is_none()
        && widths_agree(first.bits, second.bits)
        && first.ty.is_const == second.ty.is_const
        && meet_in_basic(types, &first.ty, &second.ty)
}

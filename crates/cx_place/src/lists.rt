//! Lists in braces (ISO C99, 6.7.8p14, p16 to p21).

ghost use Rattle.std.specs.Prelude.{◌≡◌, ◌&&◌, [], ◌∷◌, None, map, option_map, IfOk, OnOk};
ghost use Rattle.cx_init.specs.Views.{view_filling, view_stored, view_target};
ghost use Rattle.cx_kinds.specs.Known.{IsKnown, types_in};
ghost use Rattle.cx_parts.specs.Views.{view_at};
ghost use Rattle.cx_place.specs.Initialisers.{given_list};
ghost use Rattle.cx_place.specs.Placing.{entries_placed, given_placed, holds_text, is_direct, is_text, list_begun, list_ended, list_start};
ghost use Rattle.cx_place.specs.Views.{entries_of, view_entry, view_given, view_placing};

use crate::given::{Entry, Given, To};
use crate::leads::entry_led;
use crate::operands::a_value;
use crate::placing::Placing;
use crate::values::{text_given, value_given};
use cr_base::{Items, Memory};
use cx_init::{
    Filling, StoredValues, Target, begin_list, fill, is_text_target, list_at_text, part_target,
};
use cx_kinds::Known;
use cx_parts::At;
use std::alloc::Global;
use std::mem;

// Whether a list holds one string literal, without designator.
fn holds_text(entries: &[Entry]) -> bool
    ensures { result ≡ holds_text (entries_of (map view_entry entries.now)) }
{
    match entries {
        [one] => is_direct_text(one),
        _ => false,
    }
}

fn is_direct_text(one: &Entry) -> bool
    ensures { result ≡ is_direct (view_entry one.now).at && is_text (view_entry one.now).given }
{
    is_direct(one.at.as_slice()) && is_text(&one.given)
}

fn is_direct(list: &[To]) -> bool
    ensures { result ≡ is_direct list.now }
{
    match list {
        [] => true,
        _ => false,
    }
}

fn is_text(given: &Given) -> bool
    ensures { result ≡ is_text (view_given given.now) }
{
    match given {
        Given::Text { .. } => true,
        Given::Value(_) | Given::List(_) => false,
    }
}

// A list in braces begins; what is stored so far goes on behind it.
fn list_start(
    alloc: Global,
    known: Known,
    target: &Target,
    is_text: bool,
    stored: StoredValues,
) -> Result<Filling, Memory>
    requires { IsKnown known }
    ensures { IfOk result (λ made. view_filling made ≡ list_start (types_in known.entry) (view_target target.now) is_text (map view_stored stored)) }
{
    if is_text {
        list_at_text(alloc, target, stored)
    } else {
        begin_list(alloc, known, target, stored)
    }
}

/// A list in braces begins for what the target is. Refused only for want of memory.
pub(crate) fn begin(
    alloc: Global,
    known: Known,
    target: &Target,
    entries: &[Entry],
    placing: &mut Placing,
) -> Result<(), Memory>
    requires { IsKnown known }
    ensures { OnOk result (view_placing placing.new ≡ list_begun (types_in known.entry) (view_target target.now) (entries_of (map view_entry entries.now)) (view_placing placing.old)) }
{
    let is_text = is_text_target(target) && holds_text(entries);
    let stored = mem::replace(&mut placing.filling.stored, StoredValues::new(alloc));
    let filling = list_start(alloc, known, target, is_text, stored)?;
    placing.filling = filling;
    Ok(())
}

// A list in braces has ended that was given for a part.
fn end(
    alloc: Global,
    known: Known,
    target: &Target,
    at: Option<&At>,
    placing: &mut Placing,
) -> Result<(), Memory>
    requires { IsKnown known }
    ensures { OnOk result (view_placing placing.new ≡ list_ended (types_in known.entry) (view_target target.now) (option_map (λ one. view_at one.now) at.entry) (view_placing placing.old)) }
{
    let none = StoredValues::new(alloc);
    fill(alloc, known, target, at, none, &mut placing.filling)?;
    placing.rules.push(None)
}

/// What is given for a part. Refused only for want of memory.
#[cycle(placing)]
pub(crate) fn given_placed(
    alloc: Global,
    given: Given,
    known: Known,
    target: &Target,
    at: Option<&At>,
    placing: &mut Placing,
) -> Result<(), Memory>
    requires { IsKnown known }
    ensures { OnOk result (view_placing placing.new ≡ given_placed (types_in known.entry) (view_target target.now) (option_map (λ one. view_at one.now) at.entry) (view_given given) (view_placing placing.old)) }
{
    match given {
        Given::Value(value) => value_given(alloc, known, target, at, a_value(value), placing),
        Given::Text {
            bytes,
            object,
            place,
        } => text_given(
            alloc,
            known,
            target,
            at,
            bytes.bytes(),
            object,
            place,
            placing,
        ),
        Given::List(entries) => list_placed(alloc, entries, known, target, at, placing),
    }
}

// A list in braces that is given for a part.
#[cycle(placing)]
fn list_placed(
    alloc: Global,
    entries: Items<Entry>,
    known: Known,
    target: &Target,
    at: Option<&At>,
    placing: &mut Placing,
) -> Result<(), Memory>
    requires { IsKnown known }
    ensures { OnOk result (view_placing placing.new ≡ given_placed (types_in known.entry) (view_target target.now) (option_map (λ one. view_at one.now) at.entry) (given_list (entries_of (map view_entry entries))) (view_placing placing.old)) }
{
    let inner = part_target(alloc, target, at)?;
    begin(alloc, known, &inner, entries.as_slice(), placing)?;
    entries_placed(alloc, entries, known, &inner, placing)?;
    end(alloc, known, target, at, placing)
}

/// The entries of a list in braces, from the left. Refused only for want of memory.
#[cycle(placing)]
pub(crate) fn entries_placed(
    alloc: Global,
    entries: Items<Entry>,
    known: Known,
    target: &Target,
    placing: &mut Placing,
) -> Result<(), Memory>
    requires { IsKnown known }
    ensures { OnOk result (view_placing placing.new ≡ entries_placed (types_in known.entry) (view_target target.now) (entries_of (map view_entry entries)) (view_placing placing.old)) }
{
    for entry in entries.into_vec() {
        entry_placed(alloc, entry, known, target, placing)?;
    }
    Ok(())
}

// An entry of a list.
#[cycle(placing)]
fn entry_placed(
    alloc: Global,
    entry: Entry,
    known: Known,
    target: &Target,
    placing: &mut Placing,
) -> Result<(), Memory>
    requires { IsKnown known }
    ensures { OnOk result (view_placing placing.new ≡ entries_placed (types_in known.entry) (view_target target.now) (entries_of (view_entry entry ∷ [])) (view_placing placing.old)) }
{
    let Entry { at, given } = entry;
    let found = entry_led(alloc, known, target, at.as_slice(), placing)?;
    given_placed(alloc, given, known, target, found.as_ref(), placing)
}

//! The types and the mentions of all units, with the numbers of the program.

ghost use Rattle.std.specs.Prelude.{◌≡◌, ◌++◌, map, IfOk, OnOk, option_map};
ghost use Rattle.cx_core.specs.Views.{view_mention, view_record, view_tag, view_types, view_unit};
ghost use Rattle.cx_links.specs.Program.{all_mentions, own_types, types_of_all, types_with};
ghost use Rattle.cx_renumber.specs.Numbers.{mention_there, record_there};
ghost use Rattle.cx_renumber.specs.Views.{view_counts};

use crate::counts::{counts_of, narrow, no_counts, together};
use cr_base::{Items, Memory, Name};
use cx_core::{CoreUnit, Mention, RecordTag, RecordTy, Types};
use cx_renumber::{Counts, mention_there, record_there};
use std::alloc::Global;

fn add_mentions(
    alloc: Global,
    before: Counts,
    unit: u32,
    mentions: &[Mention],
    all: &mut Items<Mention>,
) -> Result<(), Memory>
    ensures { OnOk result (map view_mention all.new ≡ map view_mention all.old ++ map (mention_there (view_counts before) unit) (map view_mention mentions.now)) }
{
    for one in mentions {
        all.push(mention_there(alloc, before, unit, one)?)?;
    }
    Ok(())
}

/// The mentions of all units, one unit behind another. Refused only for want of memory.
pub(crate) fn all_mentions(alloc: Global, units: &[CoreUnit]) -> Result<Items<Mention>, Memory>
    ensures { IfOk result (λ made. map view_mention made ≡ all_mentions (map view_unit units.now)) }
{
    let mut before = no_counts();
    let mut all = Items::new(alloc);
    for number in 0..units.len() {
        let one = &units[number];
        add_mentions(
            alloc,
            before,
            narrow(number)?,
            one.mentions.as_slice(),
            &mut all,
        )?;
        before = together(before, counts_of(one)?)?;
    }
    Ok(all)
}

fn record_or_none(
    alloc: Global,
    before: Counts,
    one: &Option<RecordTy>,
) -> Result<Option<RecordTy>, Memory>
    ensures { IfOk result (λ made. option_map view_record made ≡ option_map (record_there (view_counts before)) (option_map view_record one.now)) }
{
    match one {
        Some(known) => Ok(Some(record_there(alloc, before, known)?)),
        None => Ok(None),
    }
}

fn add_records(
    alloc: Global,
    before: Counts,
    records: &[Option<RecordTy>],
    all: &mut Items<Option<RecordTy>>,
) -> Result<(), Memory>
    ensures { OnOk result (map (option_map view_record) all.new ≡
        map (option_map view_record) all.old ++ map (option_map (record_there (view_counts before))) (map (option_map view_record) records.now)) }
{
    for one in records {
        all.push(record_or_none(alloc, before, one)?)?;
    }
    Ok(())
}

fn name_copy(name: &Option<Name>) -> Result<Option<Name>, Memory>
    ensures { IfOk result (λ made. made ≡ name.now) }
{
    match name {
        Some(name) => Ok(Some(name.copy()?)),
        None => Ok(None),
    }
}

fn tag_copy(one: &RecordTag) -> Result<RecordTag, Memory>
    ensures { IfOk result (λ made. view_tag made ≡ view_tag one.now) }
{
    let tag = name_copy(&one.tag)?;
    Ok(RecordTag {
        tag,
        is_union: one.is_union,
    })
}

fn add_tags(tags: &[RecordTag], all: &mut Items<RecordTag>) -> Result<(), Memory>
    ensures { OnOk result (map view_tag all.new ≡ map view_tag all.old ++ map view_tag tags.now) }
{
    for one in tags {
        all.push(tag_copy(one)?)?;
    }
    Ok(())
}

fn add_copies<T: Copy + Drop>(alloc: Global, more: &[T], all: &mut Items<T>) -> Result<(), Memory>
    ensures { OnOk result (all.new ≡ all.old ++ more.now) }
{
    all.append(Items::from_slice(alloc, more)?)
}

fn add_types(alloc: Global, before: Counts, types: &Types, all: &mut Types) -> Result<(), Memory>
    ensures { OnOk result (view_types all.new ≡ types_with (view_types all.old) (own_types (view_counts before) (view_types types.now))) }
{
    add_records(alloc, before, types.records.as_slice(), &mut all.records)?;
    add_tags(types.record_tags.as_slice(), &mut all.record_tags)?;
    add_copies(alloc, types.record_units.as_slice(), &mut all.record_units)?;
    add_copies(alloc, types.enums.as_slice(), &mut all.enums)?;
    add_copies(alloc, types.enum_units.as_slice(), &mut all.enum_units)
}

/// The types of all units, one unit behind another. Refused only for want of memory.
pub fn all_types(alloc: Global, units: &[CoreUnit]) -> Result<Types, Memory>
    ensures { IfOk result (λ made. view_types made ≡ types_of_all (map view_unit units.now)) }
{
    let mut before = no_counts();
    let mut all = Types::new(alloc);
    for one in units {
        add_types(alloc, before, &one.types, &mut all)?;
        before = together(before, counts_of(one)?)?;
    }
    Ok(all)
}

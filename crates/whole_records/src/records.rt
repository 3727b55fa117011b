//! The records of modules. They are refused only for want of memory.

ghost use Rattle.std.specs.Prelude.{◌≡◌, ℕ, ◌++◌, Some, None, length, map, option_map, IfOk, OnOk};
ghost use Rattle.std.specs.Option.{option_copied};
ghost use Rattle.cx_core.specs.Layouts.{layouts_of, row_at};
ghost use Rattle.cx_core.specs.Views.{view_record, view_types};
ghost use Rattle.rs_items.specs.Known.{view_names};
ghost use Rattle.rs_tree.specs.Views.{item_view};
ghost use Rattle.whole_given.specs.Whole.{named};
ghost use Rattle.whole_items.specs.Items.{record_items, record_items_of};
ghost use Rattle.whole_known.specs.Stages.{HasTypes, IsBase};
ghost use Rattle.whole_records.specs.Fields.{HasFields, KeepsNames, Writes, WritesAll, record_in, record_made, records_behind};
ghost use Rattle.whole_records.specs.Laid.{view_laid};

use crate::laid::{LaidOut, laid_out};
use cr_base::{Items, Memory};
use cx_core::RecordTy;
use rs_items::{NameMap, record_item};
use rs_tree::Item;
use std::alloc::Global;
use whole_given::Whole;

// A completed structure or union.
fn completed<'a>(whole: &Whole<'a>, number: u32) -> Option<&'a RecordTy>
    ensures { option_map view_record (option_copied result) ≡ record_in (named whole.now) number }
{
    match whole.parts().types.records.get(number as usize) {
        Some(one) => one.as_ref(),
        None => None,
    }
}

// Writes a structure or union that is laid out so.
fn write_laid(
    alloc: Global,
    whole: &Whole<'_>,
    _unit: u32,
    number: u32,
    one: &RecordTy,
    laid: &LaidOut,
    names: &mut NameMap,
) -> Result<Item, Memory>
    requires types { HasTypes (named whole.now) (view_names names.old).known }
    requires one { record_in (named whole.now) number ≡ Some (view_record one.now) }
    requires laid { row_at (layouts_of (view_types whole.now.0.types)) number ≡ Some (view_laid laid.now) }
    ensures item { IfOk result (λ item. item_view item ≡ record_made (named whole.now) _unit (view_record one.now) (view_laid laid.now)) }
    ensures rest { OnOk result (Writes (named whole.now) number (view_names names.old) (view_names names.new)) }
{
    if one.number != number {
        return Err(Memory);
    }
    record_item(
        alloc,
        one,
        laid.spots.as_slice(),
        laid.size,
        laid.align,
        names,
    )
}

// Writes a completed structure or union, if it is laid out, behind other items.
fn write_completed(
    alloc: Global,
    whole: &Whole<'_>,
    unit: u32,
    number: u32,
    one: &RecordTy,
    names: &mut NameMap,
    items: &mut Items<Item>,
) -> Result<(), Memory>
    requires types { HasTypes (named whole.now) (view_names names.old).known }
    requires one { record_in (named whole.now) number ≡ Some (view_record one.now) }
    ensures items { OnOk result (map item_view items.new ≡ map item_view items.old ++ record_items_of (named whole.now) unit number (Some (view_record one.now))) }
    ensures rest { OnOk result (Writes (named whole.now) number (view_names names.old) (view_names names.new)) }
{
    match laid_out(alloc, whole.layouts(), number)? {
        None => Ok(()),
        Some(laid) => {
            let item = write_laid(alloc, whole, unit, number, one, &laid, names)?;
            items.push(item)
        }
    }
}

// Writes a structure or union, if it is completed, behind other items.
fn write(
    alloc: Global,
    whole: &Whole<'_>,
    unit: u32,
    number: u32,
    names: &mut NameMap,
    items: &mut Items<Item>,
) -> Result<(), Memory>
    requires { HasTypes (named whole.now) (view_names names.old).known }
    ensures items { OnOk result (map item_view items.new ≡ map item_view items.old ++ record_items_of (named whole.now) unit number (record_in (named whole.now) number)) }
    ensures rest { OnOk result (Writes (named whole.now) number (view_names names.old) (view_names names.new)) }
{
    match completed(whole, number) {
        None => Ok(()),
        Some(one) => write_completed(alloc, whole, unit, number, one, names, items),
    }
}

// The first so many structures and unions.
fn write_first(
    alloc: Global,
    whole: &Whole<'_>,
    count: u32,
    names: &mut NameMap,
) -> Result<(), Memory>
    requires { HasTypes (named whole.now) (view_names names.old).known }
    ensures { OnOk result (WritesAll (named whole.now) count (view_names names.old) (view_names names.new)) }
{
    let mut items = Items::new(alloc);
    for number in 0..count {
        write(alloc, whole, 0, number, names, &mut items)?;
    }
    Ok(())
}

// How many structures and unions there are: as many as a number of 32 bits tells.
fn count_of(whole: &Whole<'_>) -> Result<u32, Memory>
    ensures { IfOk result (λ count. count ≡ length whole.now.0.types.records) }
{
    match u32::try_from(whole.parts().types.records.len()) {
        Ok(count) => Ok(count),
        Err(_) => Err(Memory),
    }
}

/// Keeps the fields of the members of all structures and unions, where none are kept.
pub fn keep_fields(alloc: Global, whole: &Whole<'_>, names: &mut NameMap) -> Result<(), Memory>
    requires base { IsBase (named whole.now) (view_names names.old) }
    requires none { (number : ℕ) → (view_names names.old).fields number ≡ None }
    ensures base { OnOk result (IsBase (named whole.now) (view_names names.new)) }
    ensures fields { OnOk result (HasFields (named whole.now) (view_names names.new)) }
{
    let count = count_of(whole)?;
    write_first(alloc, whole, count, names)
}

// Those of these numbers, behind other items.
fn write_numbers(
    alloc: Global,
    whole: &Whole<'_>,
    unit: u32,
    numbers: &[u32],
    names: &mut NameMap,
    items: &mut Items<Item>,
) -> Result<(), Memory>
    requires types { HasTypes (named whole.now) (view_names names.old).known }
    requires fields { HasFields (named whole.now) (view_names names.old) }
    ensures items { OnOk result (map item_view items.new ≡ records_behind (named whole.now) unit numbers.now (map item_view items.old)) }
    ensures fields { OnOk result (HasFields (named whole.now) (view_names names.new)) }
    ensures rest { OnOk result (KeepsNames (view_names names.old) (view_names names.new)) }
{
    for one in numbers {
        write(alloc, whole, unit, *one, names, items)?;
    }
    Ok(())
}

/// The records of a module, in the order in which its unit completes them.
pub fn record_items(
    alloc: Global,
    whole: &Whole<'_>,
    unit: u32,
    names: &mut NameMap,
) -> Result<Items<Item>, Memory>
    requires types { HasTypes (named whole.now) (view_names names.old).known }
    requires fields { HasFields (named whole.now) (view_names names.old) }
    ensures items { IfOk result (λ items. map item_view items ≡ record_items (named whole.now) unit) }
    ensures fields { OnOk result (HasFields (named whole.now) (view_names names.new)) }
    ensures rest { OnOk result (KeepsNames (view_names names.old) (view_names names.new)) }
{
    let Some(order) = whole.parts().orders.get(unit as usize) else {
        return Ok(Items::new(alloc));
    };
    let mut items = Items::new(alloc);
    write_numbers(
        alloc,
        whole,
        unit,
        order.completed.as_slice(),
        names,
        &mut items,
    )?;
    Ok(items)
}

//! What doesn't differ from module to module. It is refused only for want of memory.

ghost use Rattle.std.specs.Prelude.{◌≡◌, ◌≤◌, ℕ, true, length, None, Some, map, IfOk, OnOk};
ghost use Rattle.cx_core.specs.Views.{view_function, view_object};
ghost use Rattle.rs_items.specs.Known.{view_known, view_names};
ghost use Rattle.rs_items.specs.declared.known.Named.TheVariants.{Enum, Function, Object, Record};
ghost use Rattle.whole_given.specs.Whole.{named};
ghost use Rattle.whole_known.specs.Stages.{HasTypes, IsBase, KnowsMore, KnowsNothing, KnowsTypes, enum_at, enums_put, functions_put, objects_put, put, record_at, records_put};
ghost use Rattle.whole_names.specs.Kept.{function_item, is_completed, object_item, record_unit};

use crate::entries::{enum_entry, function_entry, object_entry, record_entry};
use cr_base::Memory;
use cx_core::{CoreObject, Fun, Types, has_bit_fields};
use rs_items::{Known, NameMap};
use std::alloc::Global;
use whole_given::Whole;

/// Keeps what a thing has become.
pub fn keep(names: &mut NameMap, one: Known) -> Result<(), Memory>
    ensures { OnOk result (KnowsMore (view_names names.old) (view_names names.new) (put one.named (Some (view_known one)) (view_names names.old).known)) }
{
    names.keep(one)
}

// ---- types

fn keep_enum(
    alloc: Global,
    whole: &Whole<'_>,
    number: u32,
    names: &mut NameMap,
) -> Result<(), Memory>
    ensures { OnOk result (KnowsMore (view_names names.old) (view_names names.new) (put (Enum number) (enum_at (named whole.now) number) (view_names names.old).known)) }
{
    let types = &whole.parts().types;
    let Some(is_int) = types.enums.get(number as usize) else {
        return Ok(());
    };
    let Some(unit) = types.enum_units.get(number as usize) else {
        return Err(Memory);
    };
    keep(names, enum_entry(alloc, number, *unit, *is_int))
}

// The first so many enumerated types.
fn keep_enums(
    alloc: Global,
    whole: &Whole<'_>,
    count: u32,
    names: &mut NameMap,
) -> Result<(), Memory>
    ensures { OnOk result (KnowsMore (view_names names.old) (view_names names.new) (enums_put (named whole.now) count (view_names names.old).known)) }
{
    for number in 0..count {
        keep_enum(alloc, whole, number, names)?;
    }
    Ok(())
}

fn record_unit(whole: &Whole<'_>, number: u32) -> u32
    ensures { result ≡ record_unit (named whole.now) number }
{
    match whole.parts().types.record_units.get(number as usize) {
        Some(unit) => *unit,
        None => 0,
    }
}

fn is_completed(whole: &Whole<'_>, number: u32) -> bool
    ensures { result ≡ is_completed (named whole.now) number }
{
    match whole.parts().types.records.get(number as usize) {
        Some(one) => one.is_some(),
        None => false,
    }
}

fn keep_record(whole: &Whole<'_>, number: u32, names: &mut NameMap) -> Result<(), Memory>
    ensures { OnOk result (KnowsMore (view_names names.old) (view_names names.new) (put (Record number) (record_at (named whole.now) number) (view_names names.old).known)) }
{
    if !is_completed(whole, number) {
        return Ok(());
    }
    let entry = record_entry(whole, number, record_unit(whole, number))?;
    keep(names, entry)
}

// The first so many structures and unions.
fn keep_records(whole: &Whole<'_>, count: u32, names: &mut NameMap) -> Result<(), Memory>
    ensures { OnOk result (KnowsMore (view_names names.old) (view_names names.new) (records_put (named whole.now) count (view_names names.old).known)) }
{
    for number in 0..count {
        keep_record(whole, number, names)?;
    }
    Ok(())
}

// ---- objects and functions

fn keep_object(
    alloc: Global,
    whole: &Whole<'_>,
    one: &CoreObject,
    names: &mut NameMap,
) -> Result<(), Memory>
    requires { HasTypes (named whole.now) (view_names names.old).known }
    ensures { OnOk result (KnowsMore (view_names names.old) (view_names names.new)
        (put (Object one.now.object) (Some (object_item (named whole.now) (view_object one.now))) (view_names names.old).known)) }
{
    let entry = object_entry(alloc, whole, names, one)?;
    keep(names, entry)
}

fn keep_objects(
    alloc: Global,
    whole: &Whole<'_>,
    objects: &[CoreObject],
    names: &mut NameMap,
) -> Result<(), Memory>
    requires { HasTypes (named whole.now) (view_names names.old).known }
    ensures types { OnOk result (HasTypes (named whole.now) (view_names names.new).known) }
    ensures known { OnOk result (KnowsMore (view_names names.old) (view_names names.new) (objects_put (named whole.now) (map view_object objects.now) (view_names names.old).known)) }
{
    let mut left = objects.len();
    while left > 0 {
        left -= 1;
        keep_object(alloc, whole, &objects[left], names)?;
    }
    Ok(())
}

fn keep_function(
    alloc: Global,
    whole: &Whole<'_>,
    one: &Fun,
    names: &mut NameMap,
) -> Result<(), Memory>
    requires { HasTypes (named whole.now) (view_names names.old).known }
    ensures { OnOk result (KnowsMore (view_names names.old) (view_names names.new)
        (put (Function one.now.function) (Some (function_item (named whole.now) (view_function one.now))) (view_names names.old).known)) }
{
    let entry = function_entry(alloc, whole, names, one)?;
    keep(names, entry)
}

fn keep_functions(
    alloc: Global,
    whole: &Whole<'_>,
    functions: &[Fun],
    names: &mut NameMap,
) -> Result<(), Memory>
    requires { HasTypes (named whole.now) (view_names names.old).known }
    ensures types { OnOk result (HasTypes (named whole.now) (view_names names.new).known) }
    ensures known { OnOk result (KnowsMore (view_names names.old) (view_names names.new) (functions_put (named whole.now) (map view_function functions.now) (view_names names.old).known)) }
{
    let mut left = functions.len();
    while left > 0 {
        left -= 1;
        keep_function(alloc, whole, &functions[left], names)?;
    }
    Ok(())
}

// ---- all of them

// As many as a number of 32 bits tells.
fn count_of(count: usize) -> Result<u32, Memory>
    ensures { IfOk result (λ number. number ≡ count) }
{
    match u32::try_from(count) {
        Ok(number) => Ok(number),
        Err(_) => Err(Memory),
    }
}

// Each enumerated type has a unit.
fn has_units(types: &Types) -> bool
    ensures { result ≡ true → length types.now.enums ≤ length types.now.enum_units }
{
    types.enums.len() <= types.enum_units.len()
}

// The types of a program, where nothing is known.
fn keep_types(alloc: Global, whole: &Whole<'_>, names: &mut NameMap) -> Result<(), Memory>
    requires { KnowsNothing (view_names names.old) }
    ensures { OnOk result (KnowsTypes (named whole.now) (view_names names.old) (view_names names.new)) }
{
    let types = &whole.parts().types;
    if !has_units(types) {
        return Err(Memory);
    }
    let enums = count_of(types.enums.len())?;
    let records = count_of(types.records.len())?;
    keep_enums(alloc, whole, enums, names)?;
    keep_records(whole, records, names)
}

/// What is kept of a program outside of its modules.
pub fn begin_program(alloc: Global, whole: &Whole<'_>) -> Result<NameMap, Memory>
    ensures base { IfOk result (λ names. IsBase (named whole.now) (view_names names)) }
    ensures fields { IfOk result (λ names. (number : ℕ) → (view_names names).fields number ≡ None) }
{
    let parts = whole.parts();
    let mut names = NameMap::new(alloc, 0, has_bit_fields(&parts.types));
    keep_types(alloc, whole, &mut names)?;
    keep_objects(alloc, whole, parts.objects.as_slice(), &mut names)?;
    keep_functions(alloc, whole, parts.functions.as_slice(), &mut names)?;
    Ok(names)
}

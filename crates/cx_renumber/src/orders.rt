//! The order of a unit's declarations with the numbers of the program.

ghost use Rattle.std.specs.Prelude.{◌≡◌, ◌+◌, map, IfOk};
ghost use Rattle.cx_core.specs.Views.{view_key, view_order};
ghost use Rattle.cx_renumber.specs.Numbers.{key_there, order_there};
ghost use Rattle.cx_renumber.specs.Views.{view_numbers};

use crate::numbers::{Numbers, number_behind};
use cr_base::{Items, Memory};
use cx_core::{DeclaredOrder, Key};
use std::alloc::Global;

fn key_there(numbers: &Numbers, key: Key) -> Result<Key, Memory>
    ensures { IfOk result (λ made. view_key made ≡ key_there (view_numbers numbers.now) (view_key key)) }
{
    match key {
        Key::Function(number) => Ok(Key::Function(numbers.function_for(number)?)),
        Key::Object(number) => Ok(Key::Object(numbers.object_for(number)?)),
        Key::Record(number) => Ok(Key::Record(number_behind(numbers.before.records, number)?)),
        Key::Calloc => Ok(Key::Calloc),
    }
}

fn keys_there(alloc: Global, numbers: &Numbers, keys: &[Key]) -> Result<Items<Key>, Memory>
    ensures { IfOk result (λ made. map view_key made ≡ map (key_there (view_numbers numbers.now)) (map view_key keys.now)) }
{
    let mut there = Items::new(alloc);
    for key in keys {
        there.push(key_there(numbers, *key)?)?;
    }
    Ok(there)
}

// The numbers of records behind so many others.
fn records_there(alloc: Global, before: u32, records: &[u32]) -> Result<Items<u32>, Memory>
    ensures { IfOk result (λ made. made ≡ map (λ number. before + number) records.now) }
{
    let mut there = Items::new(alloc);
    for number in records {
        there.push(number_behind(before, *number)?)?;
    }
    Ok(there)
}

/// The order of the unit's declarations. Refused for want of memory, and where a number needs more than 32 bits.
pub fn order_there(
    alloc: Global,
    numbers: &Numbers,
    one: &DeclaredOrder,
) -> Result<DeclaredOrder, Memory>
    ensures { IfOk result (λ made. view_order made ≡ order_there (view_numbers numbers.now) (view_order one.now)) }
{
    let things = keys_there(alloc, numbers, one.things.as_slice())?;
    let completed = records_there(alloc, numbers.before.records, one.completed.as_slice())?;
    Ok(DeclaredOrder { things, completed })
}

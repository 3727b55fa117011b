//! The keys of a module in the order in which names are given (ISO C99, 6.2.1, 6.2.2 and 6.2.4). They are refused only for want of memory.

ghost use Rattle.std.specs.Prelude.{◌≡◌, ◌++◌, ◌==◌, ◌∷◌, [], if◌then◌else◌, map, IfOk, OnOk};
ghost use Rattle.std.specs.List.{list_any};
ghost use Rattle.cx_core.specs.Views as core;
ghost use Rattle.cx_core.specs.Views.{view_function, view_object, view_outer, view_program};
ghost use Rattle.whole_keys.specs.Kept.{calls_malloc_in, entry_key, function_key, has_function, is_entry_of, needs_calloc_in, number_of, object_key, put_declared, put_one, put_statics, put_where};
ghost use Rattle.whole_keys.specs.Kinds.{is_static};
ghost use Rattle.whole_keys.specs.Places.{ArePlaces};
ghost use Rattle.whole_keys.specs.Views.{view_key};
ghost use Rattle.whole_names.specs.Keys.{a_calloc, a_record, calls_of, entries_of, is_bare_too, is_named_in, is_outer_named, key_of, module_keys, order_of, records_of, things_of};

use crate::called::Called;
use crate::entries::{
    StaticKind, is_bare_too, is_entry, is_named_in, is_outer_named, is_static, key_of,
};
use crate::key::NameKey;
use crate::places::Places;
use cr_base::{Items, Memory};
use cx_core::{CoreObject, Fun, Key, Outer, Parts, has_bit_fields};
use std::alloc::Global;

// ---- things with linkage

// A thing that has a name in the module.
fn put_thing(
    parts: &Parts,
    places: &Places,
    unit: u32,
    key: Key,
    keys: &mut Items<NameKey>,
) -> Result<(), Memory>
    requires { ArePlaces places.now (view_program parts.now) }
    ensures { OnOk result (map view_key keys.new ≡ put_one (is_named_in (view_program parts.now) unit) key_of (core.view_key key) (map view_key keys.old)) }
{
    if is_named_in(parts, places, unit, key) {
        return keys.push(key_of(key));
    }
    Ok(())
}

// Those of a list.
fn put_things(
    parts: &Parts,
    places: &Places,
    unit: u32,
    things: &[Key],
    keys: &mut Items<NameKey>,
) -> Result<(), Memory>
    requires { ArePlaces places.now (view_program parts.now) }
    ensures { OnOk result (map view_key keys.new ≡ put_where (is_named_in (view_program parts.now) unit) key_of (map core.view_key things.now) (map view_key keys.old)) }
{
    for one in things {
        put_thing(parts, places, unit, *one, keys)?;
    }
    Ok(())
}

// Those that a unit declares.
fn put_declared_things(
    parts: &Parts,
    places: &Places,
    unit: u32,
    keys: &mut Items<NameKey>,
) -> Result<(), Memory>
    requires { ArePlaces places.now (view_program parts.now) }
    ensures { OnOk result (map view_key keys.new ≡ put_where (is_named_in (view_program parts.now) unit) key_of (order_of (view_program parts.now) unit).things (map view_key keys.old)) }
{
    match parts.orders.get(unit as usize) {
        Some(order) => put_things(parts, places, unit, order.things.as_slice(), keys),
        None => Ok(()),
    }
}

/// The functions and objects of a unit with linkage by first declaration, but those that another unit defines.
pub fn things_of(
    alloc: Global,
    parts: &Parts,
    places: &Places,
    unit: u32,
) -> Result<Items<NameKey>, Memory>
    requires { ArePlaces places.now (view_program parts.now) }
    ensures { IfOk result (λ keys. map view_key keys ≡ things_of (view_program parts.now) unit) }
{
    let mut keys = Items::new(alloc);
    put_declared_things(parts, places, unit, &mut keys)?;
    Ok(keys)
}

// ---- records

// Records, in the order in which they were completed.
fn put_records(completed: &[u32], keys: &mut Items<NameKey>) -> Result<(), Memory>
    ensures { OnOk result (map view_key keys.new ≡ map view_key keys.old ++ map a_record completed.now) }
{
    for one in completed {
        keys.push(NameKey::Record(*one))?;
    }
    Ok(())
}

// ---- objects without linkage

// A static object of a kind.
fn put_object(
    kind: StaticKind,
    unit: u32,
    one: &CoreObject,
    keys: &mut Items<NameKey>,
) -> Result<(), Memory>
    ensures { OnOk result (map view_key keys.new ≡ put_one (is_static kind unit) object_key (view_object one.now) (map view_key keys.old)) }
{
    if is_static(kind, unit, one) {
        return keys.push(NameKey::Object(one.object));
    }
    Ok(())
}

// The static objects of a kind.
fn put_objects(
    kind: StaticKind,
    unit: u32,
    objects: &[CoreObject],
    keys: &mut Items<NameKey>,
) -> Result<(), Memory>
    ensures { OnOk result (map view_key keys.new ≡ put_where (is_static kind unit) object_key (map view_object objects.now) (map view_key keys.old)) }
{
    for one in objects {
        put_object(kind, unit, one, keys)?;
    }
    Ok(())
}

// ---- external functions

// An external function that is declared once more without parameters.
fn put_bare(called: &Called, one: &Outer, keys: &mut Items<NameKey>) -> Result<(), Memory>
    ensures { OnOk result (map view_key keys.new ≡ put_one (is_bare_too called.now) function_key (view_outer one.now) (map view_key keys.old)) }
{
    if is_bare_too(called, one) {
        return keys.push(NameKey::BareFunction(one.function));
    }
    Ok(())
}

// The external functions that are declared once more without parameters.
fn put_bares(called: &Called, externals: &[Outer], keys: &mut Items<NameKey>) -> Result<(), Memory>
    ensures { OnOk result (map view_key keys.new ≡ put_where (is_bare_too called.now) function_key (map view_outer externals.now) (map view_key keys.old)) }
{
    for one in externals {
        put_bare(called, one, keys)?;
    }
    Ok(())
}

// The number of an external function that has this name.
fn put_number(name: &[u8], one: &Outer, numbers: &mut Items<u32>) -> Result<(), Memory>
    ensures { OnOk result (numbers.new ≡ put_one (is_outer_named name.now) number_of (view_outer one.now) numbers.old) }
{
    if is_outer_named(one, name) {
        return numbers.push(one.function);
    }
    Ok(())
}

/// The numbers of the external functions that have this name.
pub fn numbers_named(alloc: Global, externals: &[Outer], name: &[u8]) -> Result<Items<u32>, Memory>
    ensures { IfOk result (λ numbers. numbers ≡ put_where (is_outer_named name.now) number_of (map view_outer externals.now) []) }
{
    let mut numbers = Items::new(alloc);
    for one in externals {
        put_number(name, one, &mut numbers)?;
    }
    Ok(numbers)
}

// Whether a number is among others.
fn is_among(numbers: &[u32], number: u32) -> bool
    ensures { result ≡ list_any (λ one. one == number) numbers.now }
{
    for one in numbers {
        if *one == number {
            return true;
        }
    }
    false
}

/// Whether a key is that of a function with one of these numbers.
pub fn has_function(numbers: &[u32], key: NameKey) -> bool
    ensures { result ≡ has_function numbers.now (view_key key) }
{
    match key {
        NameKey::Function(number) => is_among(numbers, number),
        NameKey::Object(_) | NameKey::Record(_) | NameKey::Calloc | NameKey::BareFunction(_) =>
            false,
    }
}

// Whether one of these keys is that of a function with one of these numbers.
fn some_has_function(numbers: &[u32], keys: &[NameKey]) -> bool
    ensures { result ≡ list_any (has_function numbers.now) (map view_key keys.now) }
{
    for one in keys {
        if has_function(numbers, *one) {
            return true;
        }
    }
    false
}

/// Whether an external `malloc` is called.
pub fn calls_malloc(called: &Called, externals: &[Outer]) -> bool
    ensures { result ≡ calls_malloc_in called.now (map view_outer externals.now) }
{
    for one in externals {
        if is_outer_named(one, b"malloc".as_slice()) && called.is_called(one.function) {
            return true;
        }
    }
    false
}

// Whether the module declares the `calloc` that is called in the place of `malloc`.
fn needs_calloc(
    alloc: Global,
    parts: &Parts,
    called: &Called,
    things: &[NameKey],
) -> Result<bool, Memory>
    ensures { IfOk result (λ needs. needs ≡ needs_calloc_in (view_program parts.now) called.now (map view_key things.now)) }
{
    if !has_bit_fields(&parts.types) || !calls_malloc(called, parts.externals.as_slice()) {
        return Ok(false);
    }
    let numbers = numbers_named(alloc, parts.externals.as_slice(), b"calloc".as_slice())?;
    Ok(!some_has_function(numbers.as_slice(), things))
}

// ---- all of them

// Behind the functions and objects with linkage: the records that the unit completes.
fn put_completed(parts: &Parts, unit: u32, keys: &mut Items<NameKey>) -> Result<(), Memory>
    ensures { OnOk result (map view_key keys.new ≡ map view_key keys.old ++ records_of (view_program parts.now) unit) }
{
    match parts.orders.get(unit as usize) {
        Some(order) => put_records(order.completed.as_slice(), keys),
        None => Ok(()),
    }
}

// Static objects of blocks, string literals, and static compound literals.
fn put_statics(parts: &Parts, unit: u32, keys: &mut Items<NameKey>) -> Result<(), Memory>
    ensures { OnOk result (map view_key keys.new ≡ put_statics (view_program parts.now) unit (map view_key keys.old)) }
{
    let objects = parts.objects.as_slice();
    put_objects(StaticKind::OfBlock, unit, objects, keys)?;
    put_objects(StaticKind::Text, unit, objects, keys)?;
    put_objects(StaticKind::Literal, unit, objects, keys)
}

// The `calloc` that is called in the place of `malloc`, where the module needs it.
fn put_calloc(needs_calloc: bool, keys: &mut Items<NameKey>) -> Result<(), Memory>
    ensures { OnOk result (map view_key keys.new ≡ (if needs_calloc then map view_key keys.old ++ a_calloc ∷ [] else map view_key keys.old)) }
{
    if needs_calloc {
        return keys.push(NameKey::Calloc);
    }
    Ok(())
}

// What the module declares beside these.
fn put_declared(
    parts: &Parts,
    called: &Called,
    needs_calloc: bool,
    keys: &mut Items<NameKey>,
) -> Result<(), Memory>
    ensures { OnOk result (map view_key keys.new ≡ put_declared (view_program parts.now) called.now needs_calloc (map view_key keys.old)) }
{
    put_calloc(needs_calloc, keys)?;
    put_bares(called, parts.externals.as_slice(), keys)
}

/// The keys of the module of a unit, in order, without `main`.
pub fn module_keys(
    alloc: Global,
    parts: &Parts,
    places: &Places,
    unit: u32,
    called: &Called,
) -> Result<Items<NameKey>, Memory>
    requires places { ArePlaces places.now (view_program parts.now) }
    requires called { called.now ≡ calls_of (view_program parts.now) unit }
    ensures { IfOk result (λ keys. map view_key keys ≡ module_keys (view_program parts.now) unit) }
{
    let mut keys = things_of(alloc, parts, places, unit)?;
    let needs_calloc = needs_calloc(alloc, parts, called, keys.as_slice())?;
    put_completed(parts, unit, &mut keys)?;
    put_statics(parts, unit, &mut keys)?;
    put_declared(parts, called, needs_calloc, &mut keys)?;
    Ok(keys)
}

// ---- the function `main`

fn put_entry(unit: u32, one: &Fun, keys: &mut Items<NameKey>) -> Result<(), Memory>
    ensures { OnOk result (map view_key keys.new ≡ put_one (is_entry_of unit) entry_key (view_function one.now) (map view_key keys.old)) }
{
    if one.unit == unit && is_entry(one) {
        return keys.push(NameKey::Function(one.function));
    }
    Ok(())
}

fn put_entries(unit: u32, functions: &[Fun], keys: &mut Items<NameKey>) -> Result<(), Memory>
    ensures { OnOk result (map view_key keys.new ≡ put_where (is_entry_of unit) entry_key (map view_function functions.now) (map view_key keys.old)) }
{
    for one in functions {
        put_entry(unit, one, keys)?;
    }
    Ok(())
}

/// The function `main`, where the unit has it.
pub fn entries_of(alloc: Global, parts: &Parts, unit: u32) -> Result<Items<NameKey>, Memory>
    ensures { IfOk result (λ keys. map view_key keys ≡ entries_of (view_program parts.now) unit) }
{
    let mut keys = Items::new(alloc);
    put_entries(unit, parts.functions.as_slice(), &mut keys)?;
    Ok(keys)
}

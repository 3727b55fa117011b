//! The names of a module's items (ISO C99, 6.2.1, 6.2.2). They are refused only for want of memory.

ghost use Rattle.std.specs.Prelude.{◌≡◌, [], ◌∷◌, codes, map, IfOk, OnOk};
ghost use Rattle.cx_core.specs.Views.{view_program};
ghost use Rattle.whole_given.specs.Told.{first_of, taken_more, told};
ghost use Rattle.whole_given.specs.Whole.{IsGiven};
ghost use Rattle.whole_keys.specs.Places.{ArePlaces};
ghost use Rattle.whole_keys.specs.Views.{view_key};
ghost use Rattle.whole_keys.specs.declared.key.NameKey.{NameKey};
ghost use Rattle.whole_names.specs.Keys.{module_keys};
ghost use Rattle.whole_names.specs.ModuleNames.{entry_names, given_from, name_among, own_names};

use crate::table::NameTable;
use crate::wanted::wanted_name;
use cr_base::{Items, Memory, Name};
use cx_core::Parts;
use rs_items_sets::{NameScope, Scopes};
use std::alloc::Global;
use whole_keys::{Called, NameKey, Places, calls_of, entries_of, module_keys};

// ---- the function `main`

fn main_name(alloc: Global) -> Result<Name, Memory>
    ensures { IfOk result (λ name. name ≡ codes "main_0") }
{
    let bytes = Vec::from_slice(alloc, b"main_0".as_slice())?;
    Ok(Name::of(bytes))
}

// `main` is `main_0`.
fn give_main(alloc: Global, key: NameKey, table: &mut NameTable) -> Result<(), Memory>
    ensures { OnOk result ((other : NameKey) → told table.new other ≡ first_of (told table.old other) (name_among (view_key other) (entry_names (view_key key ∷ [])))) }
{
    let name = main_name(alloc)?;
    table.give(key, name)
}

fn give_entries(alloc: Global, keys: &[NameKey], table: &mut NameTable) -> Result<(), Memory>
    ensures { OnOk result ((other : NameKey) → told table.new other ≡ first_of (told table.old other) (name_among (view_key other) (entry_names (map view_key keys.now)))) }
{
    for one in keys {
        give_main(alloc, *one, table)?;
    }
    Ok(())
}

// ---- all other keys

// A key gets the first name that is free.
fn give_one(
    alloc: Global,
    parts: &Parts,
    places: &Places,
    key: NameKey,
    scopes: &mut Scopes,
    table: &mut NameTable,
) -> Result<(), Memory>
    requires { ArePlaces places.now (view_program parts.now) }
    ensures taken { OnOk result (scopes.new.module_names ≡ taken_more (view_program parts.now) scopes.old.module_names (view_key key)) }
    ensures told { OnOk result ((other : NameKey) → told table.new other ≡
        first_of (told table.old other) (name_among (view_key other) (given_from (view_program parts.now) scopes.old.module_names (view_key key ∷ [])))) }
{
    let wanted = wanted_name(alloc, parts, places, key)?;
    let name = scopes.rust_name(alloc, NameScope::Module, wanted.bytes())?;
    table.give(key, name)
}

// Keys get names one behind the other.
fn give_all(
    alloc: Global,
    parts: &Parts,
    places: &Places,
    keys: &[NameKey],
    scopes: &mut Scopes,
    table: &mut NameTable,
) -> Result<(), Memory>
    requires { ArePlaces places.now (view_program parts.now) }
    ensures { OnOk result ((other : NameKey) → told table.new other ≡
        first_of (told table.old other) (name_among (view_key other) (given_from (view_program parts.now) scopes.old.module_names (map view_key keys.now)))) }
{
    for one in keys {
        give_one(alloc, parts, places, *one, scopes, table)?;
    }
    Ok(())
}

// The keys of the module of a unit, without `main`.
fn keys_of(
    alloc: Global,
    parts: &Parts,
    places: &Places,
    unit: u32,
) -> Result<Items<NameKey>, Memory>
    requires { ArePlaces places.now (view_program parts.now) }
    ensures { IfOk result (λ keys. map view_key keys ≡ module_keys (view_program parts.now) unit) }
{
    let calls = calls_of(alloc, parts, unit)?;
    let called = Called::of(alloc, calls)?;
    module_keys(alloc, parts, places, unit, &called)
}

// Names for keys of a module, where none is taken.
fn give_keys(
    alloc: Global,
    parts: &Parts,
    places: &Places,
    keys: &[NameKey],
    table: &mut NameTable,
) -> Result<(), Memory>
    requires { ArePlaces places.now (view_program parts.now) }
    ensures { OnOk result ((other : NameKey) → told table.new other ≡
        first_of (told table.old other) (name_among (view_key other) (given_from (view_program parts.now) own_names (map view_key keys.now)))) }
{
    let mut scopes = Scopes::new(alloc);
    give_all(alloc, parts, places, keys, &mut scopes, table)
}

/// What has a name in a module, and which.
#[derive(Drop)]
pub struct ModuleNames {
    /// The keys in the order in which names are given, without `main`.
    pub keys: Items<NameKey>,
    /// The names of all keys.
    pub names: NameTable,
}

/// The names of the module of a unit.
pub fn module_names(
    alloc: Global,
    parts: &Parts,
    places: &Places,
    unit: u32,
) -> Result<ModuleNames, Memory>
    requires { ArePlaces places.now (view_program parts.now) }
    ensures { IfOk result (λ made. IsGiven (view_program parts.now) unit made) }
{
    let mut names = NameTable::new(alloc);
    let entries = entries_of(alloc, parts, unit)?;
    let keys = keys_of(alloc, parts, places, unit)?;
    give_entries(alloc, entries.as_slice(), &mut names)?;
    give_keys(alloc, parts, places, keys.as_slice(), &mut names)?;
    Ok(ModuleNames { keys, names })
}

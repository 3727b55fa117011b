//! What differs from module to module: external functions, which each module that calls them declares, and the names that are taken (ISO C99, 6.2.2). It is refused only for
//! want of memory.

ghost use Rattle.std.specs.Prelude.{◌≡◌, [], true, map, IfOk, OnOk};
ghost use Rattle.cx_core.specs.BitFields.{has_bit_fields};
ghost use Rattle.cx_core.specs.Views.{view_outer};
ghost use Rattle.rs_items.specs.Known.{view_known, view_names};
ghost use Rattle.rs_items.specs.declared.known.Named.TheVariants.{BareFunction, Function};
ghost use Rattle.whole_given.specs.Told.{taken_more};
ghost use Rattle.whole_given.specs.Whole.{named};
ghost use Rattle.whole_keys.specs.Views.{view_key};
ghost use Rattle.whole_known.specs.Modules.{IsModule, KnowsModule, TakesNames, item_names, names_taken, outer_made, some_bare};
ghost use Rattle.whole_known.specs.Stages.{HasTypes, IsBase, KnowsMore, bare_at, bare_put, bares_put, outer_where, outers_put, put};
ghost use Rattle.whole_names.specs.Keys.{module_keys};

use crate::entries::{bare_entry, calloc_entry, outer_entry};
use crate::program::keep;
use cr_base::Memory;
use cx_core::Outer;
use rs_items::{Known, NameMap, NameScope};
use std::alloc::Global;
use whole_given::Whole;
use whole_keys::{NameKey, is_outer_named};

// ---- external functions

// In a program with a bit-field member `calloc` stands for `malloc`.
fn declared_entry(
    alloc: Global,
    whole: &Whole<'_>,
    names: &NameMap,
    unit: u32,
    one: &Outer,
) -> Result<Known, Memory>
    requires types { HasTypes (named whole.now) (view_names names.now).known }
    requires bits { (view_names names.now).has_bits ≡ has_bit_fields (named whole.now).program.types }
    ensures { IfOk result (λ made. view_known made ≡ outer_made (named whole.now) unit (view_outer one.now)) }
{
    if names.bits() && is_outer_named(one, b"malloc".as_slice()) {
        return calloc_entry(alloc, whole, unit, one);
    }
    outer_entry(alloc, whole, names, unit, one)
}

// An external function, unless a unit defines it.
fn keep_outer(
    alloc: Global,
    whole: &Whole<'_>,
    unit: u32,
    one: &Outer,
    names: &mut NameMap,
) -> Result<(), Memory>
    requires types { HasTypes (named whole.now) (view_names names.old).known }
    requires bits { (view_names names.old).has_bits ≡ has_bit_fields (named whole.now).program.types }
    ensures { OnOk result (KnowsMore (view_names names.old) (view_names names.new)
        (put (Function one.now.function) (outer_where (named whole.now) unit (view_outer one.now)) (view_names names.old).known)) }
{
    if whole.function(one.function).is_some() {
        return Ok(());
    }
    let entry = declared_entry(alloc, whole, names, unit, one)?;
    keep(names, entry)
}

fn keep_outers(
    alloc: Global,
    whole: &Whole<'_>,
    unit: u32,
    externals: &[Outer],
    names: &mut NameMap,
) -> Result<(), Memory>
    requires types { HasTypes (named whole.now) (view_names names.old).known }
    requires bits { (view_names names.old).has_bits ≡ has_bit_fields (named whole.now).program.types }
    ensures types { OnOk result (HasTypes (named whole.now) (view_names names.new).known) }
    ensures known { OnOk result (KnowsMore (view_names names.old) (view_names names.new) (outers_put (named whole.now) unit (map view_outer externals.now) (view_names names.old).known)) }
{
    let mut left = externals.len();
    while left > 0 {
        left -= 1;
        keep_outer(alloc, whole, unit, &externals[left], names)?;
    }
    Ok(())
}

// ---- external functions without parameters

fn keep_bare_function(
    alloc: Global,
    whole: &Whole<'_>,
    unit: u32,
    number: u32,
    names: &mut NameMap,
) -> Result<(), Memory>
    requires { HasTypes (named whole.now) (view_names names.old).known }
    ensures { OnOk result (KnowsMore (view_names names.old) (view_names names.new) (put (BareFunction number) (bare_at (named whole.now) unit number) (view_names names.old).known)) }
{
    match whole.outer(number) {
        None => Ok(()),
        Some(one) => {
            let entry = bare_entry(alloc, whole, names, unit, one)?;
            keep(names, entry)
        }
    }
}

fn keep_bare(
    alloc: Global,
    whole: &Whole<'_>,
    unit: u32,
    key: NameKey,
    names: &mut NameMap,
) -> Result<(), Memory>
    requires { HasTypes (named whole.now) (view_names names.old).known }
    ensures { OnOk result (KnowsMore (view_names names.old) (view_names names.new) (bare_put (named whole.now) unit (view_key key) (view_names names.old).known)) }
{
    match key {
        NameKey::BareFunction(number) => keep_bare_function(alloc, whole, unit, number, names),
        NameKey::Function(_) | NameKey::Object(_) | NameKey::Record(_) | NameKey::Calloc => Ok(()),
    }
}

fn keep_bares(
    alloc: Global,
    whole: &Whole<'_>,
    unit: u32,
    keys: &[NameKey],
    names: &mut NameMap,
) -> Result<(), Memory>
    requires { HasTypes (named whole.now) (view_names names.old).known }
    ensures { OnOk result (KnowsMore (view_names names.old) (view_names names.new) (bares_put (named whole.now) unit (map view_key keys.now) (view_names names.old).known)) }
{
    for one in keys {
        keep_bare(alloc, whole, unit, *one, names)?;
    }
    Ok(())
}

// ---- names

fn take_name(whole: &Whole<'_>, key: NameKey, names: &mut NameMap) -> Result<(), Memory>
    ensures { OnOk result (TakesNames (view_names names.old) (view_names names.new) (taken_more (named whole.now).program (view_names names.old).taken.module_names (view_key key))) }
{
    let wanted = whole.wanted_name(key)?;
    names.rust_name(&wanted, NameScope::Module)?;
    Ok(())
}

// Keys get their names once more, so that they are taken.
fn take_names(whole: &Whole<'_>, keys: &[NameKey], names: &mut NameMap) -> Result<(), Memory>
    ensures { OnOk result (TakesNames (view_names names.old) (view_names names.new)
        (names_taken (named whole.now).program (view_names names.old).taken.module_names (map view_key keys.now))) }
{
    for one in keys {
        take_name(whole, *one, names)?;
    }
    Ok(())
}

// Those of a module, where none is taken.
fn take_own(
    whole: &Whole<'_>,
    unit: u32,
    keys: &[NameKey],
    names: &mut NameMap,
) -> Result<(), Memory>
    requires keys { map view_key keys.now ≡ module_keys (named whole.now).program unit }
    requires none { (view_names names.old).taken.module_names ≡ [] }
    ensures { OnOk result (TakesNames (view_names names.old) (view_names names.new) (item_names (named whole.now).program unit)) }
{
    take_names(whole, keys, names)
}

// ---- the module

// What the module declares.
fn keep_declared(
    alloc: Global,
    whole: &Whole<'_>,
    unit: u32,
    keys: &[NameKey],
    names: &mut NameMap,
) -> Result<(), Memory>
    requires keys { map view_key keys.now ≡ module_keys (named whole.now).program unit }
    requires base { IsBase (named whole.now) (view_names names.old) }
    ensures { OnOk result (KnowsModule (named whole.now) unit (view_names names.old) (view_names names.new)) }
{
    keep_outers(
        alloc,
        whole,
        unit,
        whole.parts().externals.as_slice(),
        names,
    )?;
    keep_bares(alloc, whole, unit, keys, names)
}

/// Goes into the module of a unit, where what is kept is what doesn't differ from module to module.
pub fn enter_module(
    alloc: Global,
    whole: &Whole<'_>,
    unit: u32,
    names: &mut NameMap,
) -> Result<(), Memory>
    requires { IsBase (named whole.now) (view_names names.old) }
    ensures module { OnOk result (IsModule (named whole.now) unit (view_names names.new)) }
    ensures fields { OnOk result ((view_names names.new).fields ≡ (view_names names.old).fields) }
{
    names.begin(NameScope::Module);
    let keys = whole.keys(unit)?;
    take_own(whole, unit, keys, names)?;
    keep_declared(alloc, whole, unit, keys, names)
}

// Whether one of these keys is that of an external function without parameters.
fn some_bare(keys: &[NameKey]) -> bool
    ensures { result ≡ some_bare (map view_key keys.now) }
{
    for one in keys {
        if matches!(one, NameKey::BareFunction(_)) {
            return true;
        }
    }
    false
}

/// Whether what is kept in the module of a unit is right for all modules, but for external functions, so that another module can be gone into from there. It isn't where the module
/// declares an external function once more without parameters.
pub fn is_base_again(whole: &Whole<'_>, unit: u32, _names: &NameMap) -> Result<bool, Memory>
    requires { IsModule (named whole.now) unit (view_names _names.now) }
    ensures { IfOk result (λ is_base. is_base ≡ true → IsBase (named whole.now) (view_names _names.now)) }
{
    let keys = whole.keys(unit)?;
    Ok(!some_bare(keys))
}

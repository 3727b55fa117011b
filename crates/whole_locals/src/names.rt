//! The names of a function's parameters and locals. They are refused only for want of memory.

ghost use Rattle.std.specs.Prelude.{◌≡◌, ◌++◌, ◌∷◌, [], map, filter, IfOk, OnOk};
ghost use Rattle.cx_core.specs.Views.{view_function, view_object};
ghost use Rattle.rs_items.specs.Known.{view_names};
ghost use Rattle.whole_given.specs.Whole.{named};
ghost use Rattle.whole_keys.specs.Views.{view_key};
ghost use Rattle.whole_known.specs.Modules.{item_names};
ghost use Rattle.whole_locals.specs.Names.{TakesMoreOwn, TakesOwn, made_behind, named_local, own_behind, own_more, view_local};
ghost use Rattle.whole_locals.specs.Wanted.{view_wanted};
ghost use Rattle.whole_names.specs.FunctionNames.{is_local_of, local_names, locals_from};
ghost use Rattle.whole_names.specs.Keys.{module_keys};
ghost use Rattle.whole_names.specs.ModuleNames.{taken_names};

use crate::wanted::{LocalKey, WantedLocal, wanted_in};
use cr_base::{Items, Memory, Name};
use cx_core::{CoreObject, Fun};
use rs_items::{NameMap, NameScope};
use std::alloc::Global;
use whole_given::Whole;
use whole_keys::NameKey;

/// A key of a function, and its name.
#[derive(Drop)]
pub struct LocalName {
    pub key: LocalKey,
    pub name: Name,
}

// A key gets the first name that is free.
fn give(one: &WantedLocal, names: &mut NameMap, made: &mut Items<LocalName>) -> Result<(), Memory>
    ensures taken { OnOk result (TakesOwn (view_names names.old) (view_names names.new) (own_more (view_names names.old).taken (view_wanted one.now))) }
    ensures made { OnOk result (map view_local made.new ≡ map view_local made.old ++ named_local (view_names names.old).taken (view_wanted one.now) ∷ []) }
{
    let name = names.rust_name(&one.wanted, NameScope::Function)?;
    made.push(LocalName { key: one.key, name })
}

// Keys get names one behind the other.
fn give_all(
    wanted: &[WantedLocal],
    names: &mut NameMap,
    made: &mut Items<LocalName>,
) -> Result<(), Memory>
    ensures taken { OnOk result (TakesOwn (view_names names.old) (view_names names.new)
        (own_behind (view_names names.old).taken.module_names (view_names names.old).taken.own_names (map view_wanted wanted.now))) }
    ensures made { OnOk result (map view_local made.new
        ≡ made_behind (view_names names.old).taken.module_names (view_names names.old).taken.own_names (map view_local made.old) (map view_wanted wanted.now)) }
{
    for one in wanted {
        give(one, names, made)?;
    }
    Ok(())
}

// Those of keys in the module of a unit, where none but those of its items are taken.
fn given(
    alloc: Global,
    _whole: &Whole<'_>,
    _unit: u32,
    _keys: &[NameKey],
    wanted: &[WantedLocal],
    names: &mut NameMap,
) -> Result<Items<LocalName>, Memory>
    requires keys { map view_key _keys.now ≡ module_keys (named _whole.now).program _unit }
    requires taken { (view_names names.old).taken.module_names ≡ item_names (named _whole.now).program _unit }
    requires none { (view_names names.old).taken.own_names ≡ [] }
    ensures made { IfOk result (λ made. map view_local made ≡ locals_from (taken_names (named _whole.now).program _unit) (map view_wanted wanted.now)) }
    ensures taken { OnOk result (TakesOwn (view_names names.old) (view_names names.new)
        (own_behind (view_names names.old).taken.module_names (view_names names.old).taken.own_names (map view_wanted wanted.now))) }
{
    let mut made = Items::new(alloc);
    give_all(wanted, names, &mut made)?;
    Ok(made)
}

/// The names of a function with so many temporaries, in its module. `objects` are objects of the program in the order of the text, those of the function's blocks among them.
pub fn names_of(
    alloc: Global,
    whole: &Whole<'_>,
    fun: &Fun,
    objects: &[CoreObject],
    temporaries: u32,
    names: &mut NameMap,
) -> Result<Items<LocalName>, Memory>
    requires objects { filter (is_local_of (view_function fun.now)) (map view_object objects.now) ≡ filter (is_local_of (view_function fun.now)) (named whole.now).program.objects }
    requires taken { (view_names names.old).taken.module_names ≡ item_names (named whole.now).program fun.now.unit }
    requires none { (view_names names.old).taken.own_names ≡ [] }
    ensures made { IfOk result (λ made. map view_local made ≡ local_names (named whole.now).program (view_function fun.now) temporaries) }
    ensures taken { OnOk result (TakesMoreOwn (view_names names.old) (view_names names.new)) }
{
    let keys = whole.keys(fun.unit)?;
    let wanted = wanted_in(alloc, whole, fun, objects, temporaries)?;
    given(alloc, whole, fun.unit, keys, wanted.as_slice(), names)
}

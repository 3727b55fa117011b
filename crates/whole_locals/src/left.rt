//! Out of a function, into its module: its parameters and locals are what they are outside of it. It is refused only for want of memory.

ghost use Rattle.std.specs.Prelude.{◌≡◌, length, map, OnOk};
ghost use Rattle.cx_core.specs.Views.{view_function};
ghost use Rattle.rs_items.specs.Known.{view_names};
ghost use Rattle.rs_items.specs.declared.known.Named.TheVariants.{Object};
ghost use Rattle.rs_tree.specs.Views.{ty_view};
ghost use Rattle.whole_given.specs.Whole.{named};
ghost use Rattle.whole_known.specs.Modules.{IsModule};
ghost use Rattle.whole_known.specs.Stages.{HasTypes, KnowsMore, put};
ghost use Rattle.whole_locals.specs.Functions.{IsFunction, item_at, item_put, items_put};
ghost use Rattle.whole_locals.specs.Names.{view_local};
ghost use Rattle.whole_names.specs.FunctionNames.{local_names};

use crate::names::LocalName;
use crate::wanted::LocalKey;
use cr_base::Memory;
use cx_core::Fun;
use rs_items::{NameMap, NameScope};
use rs_tree::RTy;
use std::alloc::Global;
use whole_given::Whole;
use whole_known::{keep, object_entry};

fn restore_object(
    alloc: Global,
    whole: &Whole<'_>,
    number: u32,
    names: &mut NameMap,
) -> Result<(), Memory>
    requires { HasTypes (named whole.now) (view_names names.old).known }
    ensures { OnOk result (KnowsMore (view_names names.old) (view_names names.new) (put (Object number) (item_at (named whole.now) number) (view_names names.old).known)) }
{
    match whole.object(number) {
        None => Ok(()),
        Some(one) => {
            let entry = object_entry(alloc, whole, names, one)?;
            keep(names, entry)
        }
    }
}

fn restore(
    alloc: Global,
    whole: &Whole<'_>,
    one: &LocalName,
    names: &mut NameMap,
) -> Result<(), Memory>
    requires { HasTypes (named whole.now) (view_names names.old).known }
    ensures { OnOk result (KnowsMore (view_names names.old) (view_names names.new) (item_put (named whole.now) (view_local one.now) (view_names names.old).known)) }
{
    match one.key {
        LocalKey::Local(number) => restore_object(alloc, whole, number, names),
        LocalKey::Result | LocalKey::Passed(_) | LocalKey::Temporary(_) => Ok(()),
    }
}

fn restore_all(
    alloc: Global,
    whole: &Whole<'_>,
    locals: &[LocalName],
    names: &mut NameMap,
) -> Result<(), Memory>
    requires { HasTypes (named whole.now) (view_names names.old).known }
    ensures { OnOk result (KnowsMore (view_names names.old) (view_names names.new) (items_put (named whole.now) (map view_local locals.now) (view_names names.old).known)) }
{
    for one in locals {
        restore(alloc, whole, one, names)?;
    }
    Ok(())
}

/// Goes out of a function into its module, where these are the function's names and the types of its temporaries.
pub fn leave_function(
    alloc: Global,
    whole: &Whole<'_>,
    _fun: &Fun,
    _temporaries: &[RTy],
    locals: &[LocalName],
    names: &mut NameMap,
) -> Result<(), Memory>
    requires function { IsFunction (named whole.now) (view_function _fun.now) (map ty_view _temporaries.now) (view_names names.old) }
    requires locals { map view_local locals.now ≡ local_names (named whole.now).program (view_function _fun.now) (length _temporaries.now) }
    ensures module { OnOk result (IsModule (named whole.now) _fun.now.unit (view_names names.new)) }
    ensures fields { OnOk result ((view_names names.new).fields ≡ (view_names names.old).fields) }
{
    names.begin(NameScope::Function);
    restore_all(alloc, whole, locals, names)
}

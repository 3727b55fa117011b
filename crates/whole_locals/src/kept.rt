//! What the parameters, locals and temporaries of a function have become while its body is written. It is refused only for want of memory.

ghost use Rattle.std.specs.Prelude.{◌≡◌, Some, length, map, filter, IfOk, OnOk};
ghost use Rattle.cx_core.specs.Views.{view_function, view_object};
ghost use Rattle.rs_items.specs.Known.{view_known, view_names};
ghost use Rattle.rs_items.specs.declared.known.Named.TheVariants.{Object, Temporary};
ghost use Rattle.rs_tree.specs.Views.{ty_view};
ghost use Rattle.whole_given.specs.Whole.{named};
ghost use Rattle.whole_known.specs.Modules.{IsModule};
ghost use Rattle.whole_known.specs.Stages.{HasTypes, KnowsMore, put};
ghost use Rattle.whole_locals.specs.Functions.{IsFunction, local_put, locals_put, own_object, temporary_at};
ghost use Rattle.whole_locals.specs.Names.{view_local};
ghost use Rattle.whole_names.specs.Kept.{temporary_thing};
ghost use Rattle.whole_names.specs.FunctionNames.{is_local_of, local_names};

use crate::names::{LocalName, names_of};
use crate::wanted::LocalKey;
use cr_base::{Items, Memory, Name};
use cx_core::{CoreObject, Fun};
use rs_items::{Known, NameMap, NameScope, Named};
use rs_makers::copy_ty;
use rs_tree::RTy;
use std::alloc::Global;
use whole_given::Whole;
use whole_known::{keep, local_entry};

fn keep_object(
    alloc: Global,
    whole: &Whole<'_>,
    number: u32,
    name: &Name,
    names: &mut NameMap,
) -> Result<(), Memory>
    requires { HasTypes (named whole.now) (view_names names.old).known }
    ensures { OnOk result (KnowsMore (view_names names.old) (view_names names.new) (put (Object number) (own_object (named whole.now) number name.now) (view_names names.old).known)) }
{
    match whole.object(number) {
        None => Ok(()),
        Some(one) => {
            let copied = name.copy()?;
            let entry = local_entry(alloc, whole, names, one, copied)?;
            keep(names, entry)
        }
    }
}

fn temporary_entry(
    alloc: Global,
    unit: u32,
    number: u32,
    name: &Name,
    ty: &RTy,
) -> Result<Known, Memory>
    ensures known { IfOk result (λ made. Some (view_known made) ≡ temporary_thing unit number (Some name.now) (Some (ty_view ty.now))) }
    ensures named { IfOk result (λ made. made.named ≡ Temporary number) }
{
    let name = name.copy()?;
    let ty = copy_ty(alloc, ty)?;
    Ok(Known {
        named: Named::Temporary(number),
        unit,
        module: None,
        name,
        symbol: None,
        ty: ty.into_inner(),
        size: 0,
    })
}

fn keep_temporary(
    alloc: Global,
    unit: u32,
    number: u32,
    name: &Name,
    temporaries: &[RTy],
    names: &mut NameMap,
) -> Result<(), Memory>
    ensures { OnOk result (KnowsMore (view_names names.old) (view_names names.new)
        (put (Temporary number) (temporary_at unit (map ty_view temporaries.now) number name.now) (view_names names.old).known)) }
{
    match temporaries.get(number as usize) {
        None => Ok(()),
        Some(ty) => {
            let entry = temporary_entry(alloc, unit, number, name, ty)?;
            keep(names, entry)
        }
    }
}

fn keep_one(
    alloc: Global,
    whole: &Whole<'_>,
    unit: u32,
    temporaries: &[RTy],
    one: &LocalName,
    names: &mut NameMap,
) -> Result<(), Memory>
    requires { HasTypes (named whole.now) (view_names names.old).known }
    ensures { OnOk result (KnowsMore (view_names names.old) (view_names names.new) (local_put (named whole.now) unit (map ty_view temporaries.now) (view_local one.now) (view_names names.old).known)) }
{
    match one.key {
        LocalKey::Local(number) => keep_object(alloc, whole, number, &one.name, names),
        LocalKey::Temporary(number) => {
            keep_temporary(alloc, unit, number, &one.name, temporaries, names)
        }
        LocalKey::Result | LocalKey::Passed(_) => Ok(()),
    }
}

// The first of a key is the newest.
fn keep_all(
    alloc: Global,
    whole: &Whole<'_>,
    unit: u32,
    temporaries: &[RTy],
    locals: &[LocalName],
    names: &mut NameMap,
) -> Result<(), Memory>
    requires { HasTypes (named whole.now) (view_names names.old).known }
    ensures { OnOk result (KnowsMore (view_names names.old) (view_names names.new)
        (locals_put (named whole.now) unit (map ty_view temporaries.now) (map view_local locals.now) (view_names names.old).known)) }
{
    let mut left = locals.len();
    while left > 0 {
        left -= 1;
        keep_one(alloc, whole, unit, temporaries, &locals[left], names)?;
    }
    Ok(())
}

// As many as a number of 32 bits tells.
fn count_of(temporaries: &[RTy]) -> Result<u32, Memory>
    ensures { IfOk result (λ number. number ≡ length temporaries.now) }
{
    match u32::try_from(temporaries.len()) {
        Ok(number) => Ok(number),
        Err(_) => Err(Memory),
    }
}

/// Goes into a function with temporaries of these types, in its module, and gives the names of its parameters, locals and temporaries. `objects` are objects of the program in the
/// order of the text, those of the function's blocks among them.
pub fn enter_function(
    alloc: Global,
    whole: &Whole<'_>,
    fun: &Fun,
    objects: &[CoreObject],
    temporaries: &[RTy],
    names: &mut NameMap,
) -> Result<Items<LocalName>, Memory>
    requires objects { filter (is_local_of (view_function fun.now)) (map view_object objects.now) ≡ filter (is_local_of (view_function fun.now)) (named whole.now).program.objects }
    requires module { IsModule (named whole.now) fun.now.unit (view_names names.old) }
    ensures locals { IfOk result (λ locals. map view_local locals ≡ local_names (named whole.now).program (view_function fun.now) (length temporaries.now)) }
    ensures function { OnOk result (IsFunction (named whole.now) (view_function fun.now) (map ty_view temporaries.now) (view_names names.new)) }
    ensures fields { OnOk result ((view_names names.new).fields ≡ (view_names names.old).fields) }
{
    names.begin(NameScope::Function);
    let count = count_of(temporaries)?;
    let locals = names_of(alloc, whole, fun, objects, count, names)?;
    keep_all(
        alloc,
        whole,
        fun.unit,
        temporaries,
        locals.as_slice(),
        names,
    )?;
    Ok(locals)
}

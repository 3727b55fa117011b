//! What initialisers do (ISO C99, 6.2.4, 6.7.8).

ghost use Rattle.std.specs.Prelude.{◌≡◌, map, IfOk};
ghost use Rattle.cx_core.specs.Views.{view_object};
ghost use Rattle.lift_stores.specs.Names.{lift_names};
ghost use Rattle.rs_items.specs.Known.{view_names};
ghost use Rattle.rs_text.specs.Tree.{stmts};
ghost use Rattle.rs_tree.specs.Views.{stmt_view};
ghost use Rattle.whole_bodies.specs.Bodies as spec;
ghost use Rattle.whole_bodies.specs.Names.{module_names_in};
ghost use Rattle.whole_names.specs.Kept.{NamedProgram};
ghost use Rattle.whole_texts.specs.Statics.{contents_in, initialiser_in, unit_contents, AllFit, ObjectFits};

use cr_base::{Items, Memory};
use cx_core::CoreObject;
use lift::lifted_puts;
use rs_items::NameMap;
use rs_tree::RStmt;
use std::alloc::Global;

// What a static object begins with beyond zeros, which no list tells.
fn contents_of(alloc: Global, names: &NameMap, one: &CoreObject) -> Result<Items<RStmt>, Memory>
    requires { ObjectFits (view_object one.now) }
    ensures { IfOk result (λ made. map stmt_view made ≡ contents_in (lift_names (view_names names.now)) (view_object one.now)) }
{
    let Some(puts) = &one.puts else {
        return Ok(Items::new(alloc));
    };
    if one.is_text {
        return Ok(Items::new(alloc));
    }
    let stored = lifted_puts(alloc, names, &one.ty, one.object, puts.as_slice(), 0)?;
    Ok(stored.body)
}

// What an object begins with so in the module of a unit.
fn unit_contents(
    alloc: Global,
    names: &NameMap,
    unit: u32,
    one: &CoreObject,
) -> Result<Items<RStmt>, Memory>
    requires { ObjectFits (view_object one.now) }
    ensures { IfOk result (λ made. map stmt_view made ≡ unit_contents (lift_names (view_names names.now)) unit (view_object one.now)) }
{
    if one.unit == unit {
        contents_of(alloc, names, one)
    } else {
        Ok(Items::new(alloc))
    }
}

// What the objects of a unit begin with so.
fn all_contents(
    alloc: Global,
    names: &NameMap,
    unit: u32,
    objects: &[CoreObject],
) -> Result<Items<RStmt>, Memory>
    requires { AllFit (map view_object objects.now) }
    ensures { IfOk result (λ made. map stmt_view made ≡ initialiser_in (lift_names (view_names names.now)) unit (map view_object objects.now)) }
{
    let mut made = Items::new(alloc);
    for one in objects {
        made.append(unit_contents(alloc, names, unit, one)?)?;
    }
    Ok(made)
}

/// The statements of the initialiser of the module of a unit: what its static objects begin with beyond zeros, in the order of the program's objects. Refused only for
/// want of memory.
pub fn initialiser(
    alloc: Global,
    names: &NameMap,
    unit: u32,
    objects: &[CoreObject],
) -> Result<Items<RStmt>, Memory>
    requires { AllFit (map view_object objects.now) }
    ensures text { IfOk result (λ made. map stmt_view made ≡ initialiser_in (lift_names (view_names names.now)) unit (map view_object objects.now)) }
    ensures written { IfOk result (λ made. (program : NamedProgram) → lift_names (view_names names.now) ≡ module_names_in program unit →
        map view_object objects.now ≡ program.program.objects → stmts (map stmt_view made) ≡ spec.initialiser program unit) }
{
    all_contents(alloc, names, unit, objects)
}

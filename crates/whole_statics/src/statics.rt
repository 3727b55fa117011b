//! Static objects, string literals and static compound literals (ISO C99, 6.2.4, 6.4.5, 6.5.2.5). They are refused only for want of memory.

ghost use Rattle.std.specs.Prelude.{◌≡◌, ◌++◌, ◌∷◌, [], Some, map, IfOk, OnOk};
ghost use Rattle.cx_core.specs.Views.{puts_of, view_expr, view_object, view_put};
ghost use Rattle.rs_items.specs.Known.{view_names};
ghost use Rattle.rs_tree.specs.Views.{item_view};
ghost use Rattle.whole_given.specs.Whole.{named};
ghost use Rattle.whole_items.specs.Items.{attribute_of, static_items, static_of, static_with, stored_value, values_of};
ghost use Rattle.whole_known.specs.Stages.{HasTypes};
ghost use Rattle.whole_names.specs.ModuleNames.{name_or};
ghost use Rattle.whole_statics.specs.Statics.{statics_behind, values_behind};

use crate::symbols::attribute_of;
use cr_base::{Int, Items, Memory, Name, Scalar, convert};
use cx_core::{CoreExpr, CoreObject, Form, Put};
use rs_items::NameMap;
use rs_text::Attribute;
use rs_tree::{Item, Static};
use std::alloc::Global;
use whole_given::Whole;
use whole_keys::NameKey;
use whole_known::type_of;

// The type `signed char`, in which the elements of a string literal are written.
const ELEMENT: Scalar = Scalar::Whole {
    width: 8,
    signed: true,
};

// The value of an element of a string literal's array.
fn stored_value(e: &CoreExpr) -> Int
    ensures { result ≡ stored_value (view_expr e.now) }
{
    match &e.form {
        Form::Whole(value) => convert(ELEMENT, *value),
        _ => convert(ELEMENT, 0),
    }
}

// The elements of a string literal's array (6.4.5p5).
fn text_values(alloc: Global, puts: &[Put]) -> Result<Items<Int>, Memory>
    ensures { IfOk result (λ values. values ≡ values_behind (puts_of (map view_put puts.now)) []) }
{
    let mut values = Items::new(alloc);
    for one in puts {
        values.push(stored_value(one.value.get()))?;
    }
    Ok(values)
}

#[tactic(auto, using(crate::proofs::Objects::values_are))]
fn values_of(alloc: Global, is_text: bool, puts: &[Put]) -> Result<Option<Items<Int>>, Memory>
    ensures { IfOk result (λ values. values ≡ values_of is_text (puts_of (map view_put puts.now))) }
{
    if !is_text {
        return Ok(None);
    }
    let values = text_values(alloc, puts)?;
    Ok(Some(values))
}

// The attribute of an object with this Rust name.
fn object_attribute(alloc: Global, one: &CoreObject, name: &Name) -> Result<Attribute, Memory>
    ensures { IfOk result (λ made. made ≡ attribute_of one.now.linkage (name_or [] one.now.name) name.now) }
{
    match &one.name {
        Some(symbol) => attribute_of(alloc, one.linkage, symbol.bytes(), name.bytes()),
        None => attribute_of(alloc, one.linkage, &name.bytes()[..0], name.bytes()),
    }
}

// A static object that begins with these values.
fn static_item(
    alloc: Global,
    whole: &Whole<'_>,
    names: &NameMap,
    one: &CoreObject,
    puts: &[Put],
) -> Result<Item, Memory>
    requires { HasTypes (named whole.now) (view_names names.now).known }
    ensures { IfOk result (λ item. item_view item ∷ [] ≡ static_with (named whole.now) (view_object one.now) (Some (puts_of (map view_put puts.now)))) }
{
    let name = whole.name_in(one.unit, NameKey::Object(one.object))?;
    let attribute = object_attribute(alloc, one, &name)?;
    let values = values_of(alloc, one.is_text, puts)?;
    let ty = type_of(alloc, whole, names, &one.ty)?;
    Ok(Item::Static(Static {
        attribute,
        name,
        ty,
        values,
    }))
}

// A static object of the unit, behind other items.
fn put_static(
    alloc: Global,
    whole: &Whole<'_>,
    names: &NameMap,
    unit: u32,
    one: &CoreObject,
    items: &mut Items<Item>,
) -> Result<(), Memory>
    requires { HasTypes (named whole.now) (view_names names.now).known }
    ensures { OnOk result (map item_view items.new ≡ map item_view items.old ++ static_of (named whole.now) unit (view_object one.now)) }
{
    if one.unit != unit {
        return Ok(());
    }
    match &one.puts {
        None => Ok(()),
        Some(puts) => {
            let item = static_item(alloc, whole, names, one, puts.as_slice())?;
            items.push(item)
        }
    }
}

fn put_statics(
    alloc: Global,
    whole: &Whole<'_>,
    names: &NameMap,
    unit: u32,
    objects: &[CoreObject],
    items: &mut Items<Item>,
) -> Result<(), Memory>
    requires { HasTypes (named whole.now) (view_names names.now).known }
    ensures { OnOk result (map item_view items.new ≡ statics_behind (named whole.now) unit (map view_object objects.now) (map item_view items.old)) }
{
    for one in objects {
        put_static(alloc, whole, names, unit, one, items)?;
    }
    Ok(())
}

/// The static objects of a module, in the program's order.
pub fn static_items(
    alloc: Global,
    whole: &Whole<'_>,
    names: &NameMap,
    unit: u32,
) -> Result<Items<Item>, Memory>
    requires { HasTypes (named whole.now) (view_names names.now).known }
    ensures { IfOk result (λ items. map item_view items ≡ static_items (named whole.now) unit) }
{
    let mut items = Items::new(alloc);
    put_statics(
        alloc,
        whole,
        names,
        unit,
        whole.parts().objects.as_slice(),
        &mut items,
    )?;
    Ok(items)
}

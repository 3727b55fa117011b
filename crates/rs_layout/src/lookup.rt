//! The items that paths name (the Rust Reference, "Paths" and "Items").

ghost use Rattle.std.specs.Prelude.{◌≡◌, Some, map, option_map};
ghost use Rattle.std.specs.Option.{option_copied};
ghost use Rattle.rs_mean.specs.Lookups as named;
ghost use Rattle.rs_mean.specs.Typing as typing;
ghost use Rattle.rs_mean.specs.Typing.{home_type, own_function_at};
ghost use Rattle.rs_tree.specs.Views.{ty_view, field_view, item_view, local_view, module_view, outer_view, function_view, record_view, static_view};
ghost use Rattle.rs_layout.specs.Found.{callee_in, callee_in_items, callee_view, function_among, function_at, function_with_name, outer_named, record_with, static_among, static_at, static_with};

use cr_base::Name;
use rs_tree::{Field, Function, Item, Local, Module, Outer, RPath, RTy, Record, Static};

// ---- modules

fn module_named<'t>(modules: &'t [Module], name: &Name) -> Option<&'t Module>
    ensures { option_map module_view (option_copied result) ≡ named.module_named name.now (map module_view modules.now) }
{
    for unit in modules {
        if unit.name.bytes() == name.bytes() {
            return Some(unit);
        }
    }
    None
}

/// The items of a module, where there is one of this name.
pub(crate) fn items_in<'t>(modules: &'t [Module], name: &Name) -> &'t [Item]
    ensures { map item_view result.now ≡ named.items_in (map module_view modules.now) name.now }
{
    match module_named(modules, name) {
        Some(unit) => unit.items.as_slice(),
        None => &[],
    }
}

// ---- records

fn record_with<'t>(item: &'t Item, name: &Name) -> Option<&'t Record>
    ensures { option_map record_view (option_copied result) ≡ record_with name.now (item_view item.now) }
{
    match item {
        Item::Record(one) if one.name.bytes() == name.bytes() => Some(one),
        _ => None,
    }
}

/// The record of a name among items.
pub(crate) fn record_among<'t>(items: &'t [Item], name: &Name) -> Option<&'t Record>
    ensures { option_map record_view (option_copied result) ≡ named.record_among name.now (map item_view items.now) }
{
    for item in items {
        if let Some(one) = record_with(item, name) {
            return Some(one);
        }
    }
    None
}

/// The record that a path names.
pub fn record_at<'t>(modules: &'t [Module], path: &RPath) -> Option<&'t Record>
    ensures { option_map record_view (option_copied result) ≡ named.record_at (map module_view modules.now) path.now.home path.now.name }
{
    record_among(items_in(modules, &path.home), &path.name)
}

// ---- locals

pub fn local_named<'t>(locals: &'t [Local], name: &Name) -> Option<&'t RTy>
    ensures { option_map ty_view (option_copied result) ≡ named.local_type name.now (map local_view locals.now) }
{
    for local in locals {
        if local.name.bytes() == name.bytes() {
            return Some(local.ty.get());
        }
    }
    None
}

// ---- fields

fn field_type_among<'t>(fields: &'t [Field], name: &Name) -> Option<&'t RTy>
    ensures { option_map ty_view (option_copied result) ≡ typing.field_type_among name.now (map field_view fields.now) }
{
    for field in fields {
        if field.name.bytes() == name.bytes() {
            return Some(field.ty.get());
        }
    }
    None
}

fn field_type_in<'t>(one: &'t Record, name: &Name) -> Option<&'t RTy>
    ensures { option_map ty_view (option_copied result) ≡ typing.field_type_in name.now (Some (record_view one.now)) }
{
    field_type_among(one.fields.as_slice(), name)
}

/// The type of the field of a name in the record that a path names.
pub fn field_type_at<'t>(modules: &'t [Module], path: &RPath, name: &Name) -> Option<&'t RTy>
    ensures { option_map ty_view (option_copied result) ≡ typing.field_type_in name.now (named.record_at (map module_view modules.now) path.now.home path.now.name) }
{
    match record_at(modules, path) {
        Some(one) => field_type_in(one, name),
        None => None,
    }
}

// ---- static objects

fn static_with<'t>(home: &Name, item: &'t Item, path: &RPath) -> Option<&'t Static>
    ensures { option_map static_view (option_copied result) ≡ static_with home.now path.now.home path.now.name (item_view item.now) }
{
    match item {
        Item::Static(object)
            if home.bytes() == path.home.bytes() && object.name.bytes() == path.name.bytes() => {
            Some(object)
        }
        _ => None,
    }
}

fn static_among<'t>(home: &Name, items: &'t [Item], path: &RPath) -> Option<&'t Static>
    ensures { option_map static_view (option_copied result) ≡ static_among home.now path.now.home path.now.name (map item_view items.now) }
{
    for item in items {
        if let Some(object) = static_with(home, item, path) {
            return Some(object);
        }
    }
    None
}

fn static_at<'t>(modules: &'t [Module], path: &RPath) -> Option<&'t Static>
    ensures { option_map static_view (option_copied result) ≡ static_at path.now.home path.now.name (map module_view modules.now) }
{
    for unit in modules {
        if let Some(object) = static_among(&unit.name, unit.items.as_slice(), path) {
            return Some(object);
        }
    }
    None
}

/// The type of the static object that a path names.

pub fn static_type<'t>(modules: &'t [Module], path: &RPath) -> Option<&'t RTy>
    ensures { option_map ty_view (option_copied result) ≡ home_type (named.static_home (map module_view modules.now) path.now.home path.now.name) }
{
    match static_at(modules, path) {
        Some(object) => Some(object.ty.get()),
        None => None,
    }
}

// ---- functions with a body

fn function_with_name<'t>(home: &Name, item: &'t Item, path: &RPath) -> Option<&'t Function>
    ensures { option_map function_view (option_copied result) ≡ function_with_name home.now path.now.home path.now.name (item_view item.now) }
{
    match item {
        Item::Function(fun)
            if home.bytes() == path.home.bytes() && fun.name.bytes() == path.name.bytes() => {
            Some(fun)
        }
        _ => None,
    }
}

fn function_among<'t>(home: &Name, items: &'t [Item], path: &RPath) -> Option<&'t Function>
    ensures { option_map function_view (option_copied result) ≡ function_among home.now path.now.home path.now.name (map item_view items.now) }
{
    for item in items {
        if let Some(fun) = function_with_name(home, item, path) {
            return Some(fun);
        }
    }
    None
}

/// The function with a body that a path names.

pub fn own_function_at<'t>(modules: &'t [Module], path: &RPath) -> Option<&'t Function>
    ensures { option_map function_view (option_copied result) ≡ own_function_at (map module_view modules.now) path.now.home path.now.name }
{
    function_at(modules, path)
}

fn function_at<'t>(modules: &'t [Module], path: &RPath) -> Option<&'t Function>
    ensures { option_map function_view (option_copied result) ≡ function_at path.now.home path.now.name (map module_view modules.now) }
{
    for unit in modules {
        if let Some(fun) = function_among(&unit.name, unit.items.as_slice(), path) {
            return Some(fun);
        }
    }
    None
}

// ---- functions that can be called

/// A function that can be called: an external one, or one of the crate.
#[derive(Clone, Copy)]
pub enum HeldCallee<'t> {
    Outer(&'t Outer),
    Own(&'t Function),
}

fn outer_named<'t>(outers: &'t [Outer], name: &[u8]) -> Option<&'t Outer>
    ensures { option_map outer_view (option_copied result) ≡ outer_named name.now (map outer_view outers.now) }
{
    for one in outers {
        if one.name.bytes() == name {
            return Some(one);
        }
    }
    None
}

pub(crate) fn callee_in<'t>(item: &'t Item, name: &[u8]) -> Option<HeldCallee<'t>>
    ensures { option_map callee_view result ≡ callee_in name.now (item_view item.now) }
{
    match item {
        Item::Extern(outers) => match outer_named(outers.as_slice(), name) {
            Some(one) => Some(HeldCallee::Outer(one)),
            None => None,
        },
        Item::Function(fun) if fun.name.bytes() == name => Some(HeldCallee::Own(fun)),
        _ => None,
    }
}

/// The function of a name among the items of a module.
pub fn callee_among<'t>(items: &'t [Item], name: &[u8]) -> Option<HeldCallee<'t>>
    ensures { option_map callee_view result ≡ callee_in_items name.now (map item_view items.now) }
{
    for item in items {
        if let Some(callee) = callee_in(item, name) {
            return Some(callee);
        }
    }
    None
}

/// The function that a path names.
#[tactic(auto, using(crate::proofs::Found::callee_is_found))]
pub fn callee_at<'t>(modules: &'t [Module], path: &RPath) -> Option<HeldCallee<'t>>
    ensures { option_map callee_view result ≡ named.callee_at (map module_view modules.now) path.now.home path.now.name }
{
    callee_among(items_in(modules, &path.home), path.name.bytes())
}

//! What stands around a place of a body (the Rust Reference, "Items").

ghost use Rattle.std.specs.Prelude.{◌≡◌, ◌++◌, [], map, flat_map, IfOk, OnOk};
ghost use Rattle.rs_scene.specs.Scenes.{held_function, held_static};
ghost use Rattle.rs_mean.specs.Lookups.{functions_of, own_functions_in, statics_in, statics_of};
ghost use Rattle.rs_tree.specs.Views.{item_view, module_view};

use cr_base::{Items, Memory, Name};
use rs_tree::{Function, Item, Local, Module, RTy, Static};
use std::alloc::Global;

/// A parameter or a local with its block.
#[derive(Clone, Copy)]
pub struct HeldLocal<'t> {
    pub of: &'t Local,
    pub block: u64,
}

/// A static object and the name of its module.
#[derive(Clone, Copy)]
pub struct HeldStatic<'t> {
    pub home: &'t Name,
    pub object: &'t Static,
}

/// A function with a body and the name of its module.
#[derive(Clone, Copy)]
pub struct HeldFunction<'t> {
    pub home: &'t Name,
    pub fun: &'t Function,
}

/// A block and the type of what it holds.
#[derive(Clone, Copy)]
pub struct HeldHome<'t> {
    pub block: u64,
    pub ty: &'t RTy,
}

/// What stands around a place of a body: the modules of the crate, its static objects and its functions
/// with a body, each list in the crate's order, and the parameters and locals.
#[derive(Clone, Copy)]
pub struct Scene<'t, 'f> {
    pub modules: &'t [Module],
    pub statics: &'f [HeldStatic<'t>],
    pub functions: &'f [HeldFunction<'t>],
    pub locals: &'f [HeldLocal<'t>],
}

fn add_static<'t>(
    home: &'t Name,
    item: &'t Item,
    list: &mut Items<HeldStatic<'t>>,
) -> Result<(), Memory>
    ensures { OnOk result (map held_static list.new ≡ map held_static list.old ++ statics_in home.now (item_view item.now)) }
{
    match item {
        Item::Static(object) => {
            list.push(HeldStatic { home, object })?;
            Ok(())
        }
        Item::Record(_) | Item::Extern(_) | Item::Function(_) => Ok(()),
    }
}

fn add_statics<'t>(
    home: &'t Name,
    items: &'t [Item],
    list: &mut Items<HeldStatic<'t>>,
) -> Result<(), Memory>
    ensures { OnOk result (map held_static list.new ≡ map held_static list.old ++ flat_map (statics_in home.now) (map item_view items.now)) }
{
    for item in items {
        add_static(home, item, list)?;
    }
    Ok(())
}

fn add_all_statics<'t>(
    modules: &'t [Module],
    list: &mut Items<HeldStatic<'t>>,
) -> Result<(), Memory>
    ensures { OnOk result (map held_static list.new ≡ map held_static list.old ++ statics_of (map module_view modules.now)) }
{
    for unit in modules {
        add_statics(&unit.name, unit.items.as_slice(), list)?;
    }
    Ok(())
}

/// The static objects of a crate, in its order.
pub fn statics_of<'t>(alloc: Global, modules: &'t [Module]) -> Result<Items<HeldStatic<'t>>, Memory>
    ensures { IfOk result (λ list. map held_static list ≡ statics_of (map module_view modules.now)) }
{
    let mut list = Items::new(alloc);
    add_all_statics(modules, &mut list)?;
    Ok(list)
}

fn add_function<'t>(
    home: &'t Name,
    item: &'t Item,
    list: &mut Items<HeldFunction<'t>>,
) -> Result<(), Memory>
    ensures { OnOk result (map held_function list.new ≡ map held_function list.old ++ own_functions_in home.now (item_view item.now)) }
{
    match item {
        Item::Function(fun) => {
            list.push(HeldFunction { home, fun })?;
            Ok(())
        }
        Item::Record(_) | Item::Extern(_) | Item::Static(_) => Ok(()),
    }
}

fn add_functions<'t>(
    home: &'t Name,
    items: &'t [Item],
    list: &mut Items<HeldFunction<'t>>,
) -> Result<(), Memory>
    ensures { OnOk result (map held_function list.new ≡ map held_function list.old ++ flat_map (own_functions_in home.now) (map item_view items.now)) }
{
    for item in items {
        add_function(home, item, list)?;
    }
    Ok(())
}

fn add_all_functions<'t>(
    modules: &'t [Module],
    list: &mut Items<HeldFunction<'t>>,
) -> Result<(), Memory>
    ensures { OnOk result (map held_function list.new ≡ map held_function list.old ++ functions_of (map module_view modules.now)) }
{
    for unit in modules {
        add_functions(&unit.name, unit.items.as_slice(), list)?;
    }
    Ok(())
}

/// The functions with a body of a crate, in its order.
pub fn functions_of<'t>(
    alloc: Global,
    modules: &'t [Module],
) -> Result<Items<HeldFunction<'t>>, Memory>
    ensures { IfOk result (λ list. map held_function list ≡ functions_of (map module_view modules.now)) }
{
    let mut list = Items::new(alloc);
    add_all_functions(modules, &mut list)?;
    Ok(list)
}

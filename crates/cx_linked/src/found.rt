//! The things of units, each with its unit.

ghost use Rattle.std.specs.Prelude.{◌≡◌, ◌++◌, map, IfOk, OnOk};
ghost use Rattle.cx_core.specs.Views.{view_function, view_object, view_outer, view_unit};
ghost use Rattle.cx_linked.specs.Found.{all_found, found_at, found_in, view_found};

use cr_base::{Items, Memory};
use cx_core::{CoreObject, CoreUnit, Fun, Outer};
use std::alloc::Global;

/// A thing of a unit.
#[derive(Drop)]
pub(crate) struct Found<'a, T> {
    /// The number of its unit, from 0.
    pub(crate) unit: usize,
    /// Its unit.
    pub(crate) home: &'a CoreUnit,
    pub(crate) thing: &'a T,
}

/// The things of units, one unit behind another.
#[derive(Drop)]
pub(crate) struct Things<'a> {
    pub(crate) objects: Items<Found<'a, CoreObject>>,
    pub(crate) functions: Items<Found<'a, Fun>>,
    pub(crate) externals: Items<Found<'a, Outer>>,
}

fn add_objects<'a>(
    unit: usize,
    home: &'a CoreUnit,
    objects: &'a [CoreObject],
    all: &mut Items<Found<'a, CoreObject>>,
) -> Result<(), Memory>
    ensures { OnOk result (map (view_found view_object) all.new ≡ map (view_found view_object) all.old ++ map (found_at unit (view_unit home.now)) (map view_object objects.now)) }
{
    for thing in objects {
        all.push(Found { unit, home, thing })?;
    }
    Ok(())
}

fn add_functions<'a>(
    unit: usize,
    home: &'a CoreUnit,
    functions: &'a [Fun],
    all: &mut Items<Found<'a, Fun>>,
) -> Result<(), Memory>
    ensures { OnOk result (map (view_found view_function) all.new ≡ map (view_found view_function) all.old ++ map (found_at unit (view_unit home.now)) (map view_function functions.now)) }
{
    for thing in functions {
        all.push(Found { unit, home, thing })?;
    }
    Ok(())
}

fn add_externals<'a>(
    unit: usize,
    home: &'a CoreUnit,
    externals: &'a [Outer],
    all: &mut Items<Found<'a, Outer>>,
) -> Result<(), Memory>
    ensures { OnOk result (map (view_found view_outer) all.new ≡ map (view_found view_outer) all.old ++ map (found_at unit (view_unit home.now)) (map view_outer externals.now)) }
{
    for thing in externals {
        all.push(Found { unit, home, thing })?;
    }
    Ok(())
}

fn all_objects<'a>(
    alloc: Global,
    units: &'a [CoreUnit],
) -> Result<Items<Found<'a, CoreObject>>, Memory>
    ensures { IfOk result (λ all. map (view_found view_object) all ≡ all_found (λ home. home.objects) (map view_unit units.now)) }
{
    let mut all = Items::new(alloc);
    for unit in 0..units.len() {
        let home = &units[unit];
        add_objects(unit, home, home.objects.as_slice(), &mut all)?;
    }
    Ok(all)
}

fn all_functions<'a>(alloc: Global, units: &'a [CoreUnit]) -> Result<Items<Found<'a, Fun>>, Memory>
    ensures { IfOk result (λ all. map (view_found view_function) all ≡ all_found (λ home. home.functions) (map view_unit units.now)) }
{
    let mut all = Items::new(alloc);
    for unit in 0..units.len() {
        let home = &units[unit];
        add_functions(unit, home, home.functions.as_slice(), &mut all)?;
    }
    Ok(all)
}

fn all_externals<'a>(
    alloc: Global,
    units: &'a [CoreUnit],
) -> Result<Items<Found<'a, Outer>>, Memory>
    ensures { IfOk result (λ all. map (view_found view_outer) all ≡ all_found (λ home. home.externals) (map view_unit units.now)) }
{
    let mut all = Items::new(alloc);
    for unit in 0..units.len() {
        let home = &units[unit];
        add_externals(unit, home, home.externals.as_slice(), &mut all)?;
    }
    Ok(all)
}

/// All things of units. Refused only for want of memory.
pub(crate) fn things_of<'a>(alloc: Global, units: &'a [CoreUnit]) -> Result<Things<'a>, Memory>
    ensures objects { IfOk result (λ all. map (view_found view_object) all.objects ≡ all_found (λ home. home.objects) (map view_unit units.now)) }
    ensures functions { IfOk result (λ all. map (view_found view_function) all.functions ≡ all_found (λ home. home.functions) (map view_unit units.now)) }
    ensures externals { IfOk result (λ all. map (view_found view_outer) all.externals ≡ all_found (λ home. home.externals) (map view_unit units.now)) }
{
    let objects = all_objects(alloc, units)?;
    let functions = all_functions(alloc, units)?;
    let externals = all_externals(alloc, units)?;
    Ok(Things {
        objects,
        functions,
        externals,
    })
}

//! The things of units with the first places of their names.

ghost use Rattle.std.specs.Prelude.{◌≡◌, ◌+◌, map, Some, IfOk, option_map, slice_get};
ghost use Rattle.std.specs.Option.{option_and_then, option_copied};
ghost use Rattle.cx_core.specs.Views.{view_function, view_object, view_outer, view_unit};
ghost use Rattle.cx_link.specs.Chains.{indexed};
ghost use Rattle.cx_links.specs.Program.{counts_before, function_as, function_at, function_of_name, is_in, object_as, object_at, object_by, object_of_name, outer_by, outer_of_name};
ghost use Rattle.cx_linked.specs.Found.{view_found};
ghost use Rattle.cx_linked.specs.Named.{ArePlaces, IsNamed, IsNamedBy, all_before, units_of};
ghost use Rattle.cx_renumber.specs.Views.{view_counts};

use crate::found::{Found, Things, things_of};
use crate::index::{
    Index, declared_functions, declared_objects, defined_functions, defined_objects, is_external,
    prototyped_functions,
};
use cr_base::{Items, Memory};
use cx_core::{CoreObject, CoreUnit, Fun, Outer};
use cx_link::{counts_of, no_counts, together};
use cx_renumber::Counts;
use std::alloc::Global;

/// The first places of external names among things.
#[derive(Drop)]
pub(crate) struct Places {
    pub(crate) declared_objects: Index,
    pub(crate) defined_objects: Index,
    pub(crate) defined_functions: Index,
    pub(crate) declared_functions: Index,
    pub(crate) prototyped_functions: Index,
}

/// The things of units, the first places of external names, and what the units in front of each one take.
#[derive(Drop)]
pub(crate) struct Named<'a> {
    pub(crate) units: &'a [CoreUnit],
    pub(crate) things: Things<'a>,
    pub(crate) places: Places,
    pub(crate) before: Items<Counts>,
}

fn places_of(alloc: Global, things: &Things<'_>) -> Result<Places, Memory>
    ensures { IfOk result (λ places. ArePlaces places things.now) }
{
    let declared_objects = declared_objects(alloc, things.objects.as_slice())?;
    let defined_objects = defined_objects(alloc, things.objects.as_slice())?;
    let defined_functions = defined_functions(alloc, things.functions.as_slice())?;
    let declared_functions = declared_functions(alloc, things.externals.as_slice())?;
    let prototyped_functions = prototyped_functions(alloc, things.externals.as_slice())?;
    Ok(Places {
        declared_objects,
        defined_objects,
        defined_functions,
        declared_functions,
        prototyped_functions,
    })
}

fn all_before(alloc: Global, units: &[CoreUnit]) -> Result<Items<Counts>, Memory>
    ensures { IfOk result (λ all. map view_counts all ≡ all_before (map view_unit units.now)) }
{
    let mut before = no_counts();
    let mut all = Items::new(alloc);
    for one in units {
        all.push(before)?;
        before = together(before, counts_of(one)?)?;
    }
    Ok(all)
}

// What stands in a list at the place that an index tells for a name.
fn found_by<'b, 'a, T>(
    all: &'b Items<Found<'a, T>>,
    index: &Index,
    name: &[u8],
) -> Option<&'b Found<'a, T>>
    ensures { option_copied result ≡ option_and_then (slice_get all.now) (indexed index.now.first name.now) }
{
    match index.get(name) {
        Some(place) => all.get(place),
        None => None,
    }
}

pub(crate) fn sum(first: u32, second: u32) -> Result<u32, Memory>
    ensures { IfOk result (λ made. made ≡ first + second) }
{
    match first.checked_add(second) {
        Some(made) => Ok(made),
        None => Err(Memory),
    }
}

impl<'a> Named<'a> {
    /// What is known of the names of units. Refused only for want of memory.
    pub(crate) fn of(alloc: Global, units: &'a [CoreUnit]) -> Result<Named<'a>, Memory>
        ensures known { IfOk result (λ named. IsNamedBy named (map view_unit units.now)) }
        ensures units { IfOk result (λ named. named.units.now ≡ units.now) }
    {
        let before = all_before(alloc, units)?;
        let things = things_of(alloc, units)?;
        let places = places_of(alloc, &things)?;
        Ok(Named {
            units,
            things,
            places,
            before,
        })
    }

    /// What stands for the name of an object (ISO C99, 6.9.2): what the first unit has that defines it, else the first that declares it.
    pub(crate) fn object_of_name(&self, name: &[u8]) -> Option<&Found<'a, CoreObject>>
        requires known { IsNamed self.now }
        ensures { option_map (view_found view_object) (option_copied result) ≡ object_of_name (units_of self.now) name.now }
    {
        match found_by(&self.things.objects, &self.places.defined_objects, name) {
            Some(one) => Some(one),
            None => found_by(&self.things.objects, &self.places.declared_objects, name),
        }
    }

    /// Whether what stands for the name of an object is of a unit.
    pub(crate) fn stands_in(&self, unit: usize, name: &[u8]) -> bool
        requires known { IsNamed self.now }
        ensures { result ≡ is_in unit (object_of_name (units_of self.now) name.now) }
    {
        match self.object_of_name(name) {
            Some(one) => one.unit == unit,
            None => false,
        }
    }

    /// Whether what stands for the name of a function that no unit defines is of a unit.
    pub(crate) fn is_outer_first(&self, unit: usize, name: &[u8]) -> bool
        requires known { IsNamed self.now }
        ensures { result ≡ is_in unit (outer_of_name (units_of self.now) name.now) }
    {
        match self.outer_of_name(name) {
            Some(one) => one.unit == unit,
            None => false,
        }
    }

    /// The function that a unit defines under a name.
    pub(crate) fn function_of_name(&self, name: &[u8]) -> Option<&Found<'a, Fun>>
        requires known { IsNamed self.now }
        ensures { option_map (view_found view_function) (option_copied result) ≡ function_of_name (units_of self.now) name.now }
    {
        found_by(&self.things.functions, &self.places.defined_functions, name)
    }

    /// What stands for the name of a function that no unit defines (ISO C99, 6.2.7p3): the first declaration with a list of
    /// parameters, else the first.
    pub(crate) fn outer_of_name(&self, name: &[u8]) -> Option<&Found<'a, Outer>>
        requires known { IsNamed self.now }
        ensures { option_map (view_found view_outer) (option_copied result) ≡ outer_of_name (units_of self.now) name.now }
    {
        let externals = &self.things.externals;
        match found_by(externals, &self.places.prototyped_functions, name) {
            Some(one) => Some(one),
            None => found_by(externals, &self.places.declared_functions, name),
        }
    }

    /// What the units in front of one take.
    pub(crate) fn before_of(&self, unit: usize) -> Result<Counts, Memory>
        requires known { IsNamed self.now }
        ensures { IfOk result (λ before. view_counts before ≡ counts_before unit (units_of self.now)) }
    {
        match self.before.get(unit) {
            Some(before) => Ok(*before),
            None => Err(Memory),
        }
    }

    // The number in the program of an object of a unit.
    fn object_at(&self, unit: usize, number: u32) -> Result<u32, Memory>
        requires known { IsNamed self.now }
        ensures { IfOk result (λ there. there ≡ object_at (units_of self.now) unit number) }
    {
        sum(self.before_of(unit)?.objects, number)
    }

    // The number in the program of a function of a unit.
    fn function_at(&self, unit: usize, number: u32) -> Result<u32, Memory>
        requires known { IsNamed self.now }
        ensures { IfOk result (λ there. there ≡ function_at (units_of self.now) unit number) }
    {
        sum(self.before_of(unit)?.functions, number)
    }

    /// The number in the program of what stands for an object; `own` where it stands for itself.
    /// Refused only where a number needs more than 32 bits.
    pub(crate) fn object_number(&self, own: u32, one: &CoreObject) -> Result<u32, Memory>
        requires known { IsNamed self.now }
        ensures { IfOk result (λ there. there ≡ object_as (units_of self.now) own (Some (view_object one.now))) }
    {
        if !is_external(one.linkage) {
            return Ok(own);
        }
        match &one.name {
            Some(name) => self.object_named(own, name.bytes()),
            None => Ok(own),
        }
    }

    fn object_named(&self, own: u32, name: &[u8]) -> Result<u32, Memory>
        requires known { IsNamed self.now }
        ensures { IfOk result (λ there. there ≡ object_by (units_of self.now) own (object_of_name (units_of self.now) name.now)) }
    {
        match self.object_of_name(name) {
            Some(found) => self.object_at(found.unit, found.thing.object),
            None => Ok(own),
        }
    }

    /// The number in the program of what stands for a function that a unit declares and doesn't define; `own` where it stands for
    /// itself. Refused only where a number needs more than 32 bits.
    pub(crate) fn function_number(&self, own: u32, one: &Outer) -> Result<u32, Memory>
        requires known { IsNamed self.now }
        ensures { IfOk result (λ there. there ≡ function_as (units_of self.now) own (Some (view_outer one.now))) }
    {
        if !is_external(one.linkage) {
            return Ok(own);
        }
        match self.function_of_name(one.name.bytes()) {
            Some(found) => self.function_at(found.unit, found.thing.function),
            None => self.outer_number(own, one.name.bytes()),
        }
    }

    fn outer_number(&self, own: u32, name: &[u8]) -> Result<u32, Memory>
        requires known { IsNamed self.now }
        ensures { IfOk result (λ there. there ≡ outer_by (units_of self.now) own (outer_of_name (units_of self.now) name.now)) }
    {
        match self.outer_of_name(name) {
            Some(found) => self.function_at(found.unit, found.thing.function),
            None => Ok(own),
        }
    }
}

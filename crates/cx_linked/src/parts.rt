//! What the program has of each thing of a unit.

ghost use Rattle.std.specs.Prelude.{◌≡◌, ◌++◌, [], ◌∷◌, ℕ, map, Some, IfOk, OnOk, slice_get};
ghost use Rattle.std.specs.List.{flat_map};
ghost use Rattle.cx_core.specs.Views.{view_function, view_object, view_order, view_outer, view_program, view_types, view_unit};
ghost use Rattle.cx_links.specs.Program.{external_object, is_left, numbers_of, object_of_name, there};
ghost use Rattle.cx_linked.specs.Found.{view_found};
ghost use Rattle.cx_linked.specs.Linking.{IsLinking, units_in};
ghost use Rattle.cx_linked.specs.Named.{AreAt, IsAt, function_renumbered, object_renumbered, objects_for, outer_renumbered, outers_for, with_things};
ghost use Rattle.cx_renumber.specs.Views.{view_numbers};

use crate::found::Found;
use crate::index::is_external;
use crate::named::Named;
use crate::numbers::all_numbers;
use cr_base::{Items, Memory};
use cx_core::{CoreObject, CoreUnit, Fun, Outer, Parts};
use cx_renumber::{Numbers, function_there, object_there, outer_there};
use std::alloc::Global;

/// Units with what is known of their names, and with their numbers in the program.
#[derive(Drop)]
pub(crate) struct Linking<'a> {
    pub(crate) named: Named<'a>,
    pub(crate) numbers: Items<Numbers>,
}

impl<'a> Linking<'a> {
    /// What the program of units needs. Refused for want of memory, and where a number needs more than 32 bits.
    pub(crate) fn of(alloc: Global, units: &'a [CoreUnit]) -> Result<Linking<'a>, Memory>
        ensures known { IfOk result (λ linking. IsLinking linking) }
        ensures units { IfOk result (λ linking. units_in linking ≡ map view_unit units.now) }
    {
        let named = Named::of(alloc, units)?;
        let numbers = all_numbers(alloc, &named)?;
        Ok(Linking { named, numbers })
    }

    // The numbers of the unit of a thing.
    pub(crate) fn numbers_of<T>(&self, found: &Found<'_, T>) -> Result<&Numbers, Memory>
        requires known { IsLinking self.now }
        requires at { slice_get (units_in self.now) found.now.unit ≡ Some (view_unit found.now.home.now) }
        ensures { IfOk result (λ numbers. view_numbers numbers.now ≡ numbers_of (units_in self.now) (view_unit found.now.home.now) found.now.unit) }
    {
        match self.numbers.get(found.unit) {
            Some(numbers) => Ok(numbers),
            None => Err(Memory),
        }
    }

    fn put_object(
        &self,
        alloc: Global,
        found: &Found<'_, CoreObject>,
        made: &mut Items<CoreObject>,
    ) -> Result<(), Memory>
        requires known { IsLinking self.now }
        requires at { IsAt (units_in self.now) (view_found view_object found.now) }
        ensures { OnOk result (map view_object made.new ≡ map view_object made.old ++ object_renumbered (units_in self.now) (view_found view_object found.now) ∷ []) }
    {
        let numbers = self.numbers_of(found)?;
        made.push(object_there(alloc, numbers, found.thing)?)?;
        Ok(())
    }

    // What stands for the name of an object, if anything does.
    fn put_named(
        &self,
        alloc: Global,
        name: &[u8],
        made: &mut Items<CoreObject>,
    ) -> Result<(), Memory>
        requires known { IsLinking self.now }
        ensures { OnOk result (map view_object made.new ≡ map view_object made.old ++ there (units_in self.now) (object_of_name (units_in self.now) name.now)) }
    {
        match self.named.object_of_name(name) {
            Some(found) => self.put_object(alloc, found, made),
            None => Ok(()),
        }
    }

    // The object of an external name stands in its own unit, there where that unit declares it first.
    fn put_external(
        &self,
        alloc: Global,
        found: &Found<'_, CoreObject>,
        made: &mut Items<CoreObject>,
    ) -> Result<(), Memory>
        requires known { IsLinking self.now }
        ensures { OnOk result (map view_object made.new ≡ map view_object made.old ++ external_object (units_in self.now) found.now.unit (view_object found.now.thing.now).name) }
    {
        let Some(name) = &found.thing.name else {
            return Ok(());
        };
        if self.named.stands_in(found.unit, name.bytes()) {
            self.put_named(alloc, name.bytes(), made)
        } else {
            Ok(())
        }
    }

    fn add_object(
        &self,
        alloc: Global,
        found: &Found<'_, CoreObject>,
        made: &mut Items<CoreObject>,
    ) -> Result<(), Memory>
        requires known { IsLinking self.now }
        requires at { IsAt (units_in self.now) (view_found view_object found.now) }
        ensures { OnOk result (map view_object made.new ≡ map view_object made.old ++ objects_for (units_in self.now) (view_found view_object found.now)) }
    {
        if is_external(found.thing.linkage) {
            self.put_external(alloc, found, made)
        } else {
            self.put_object(alloc, found, made)
        }
    }

    // The objects of the program that stand for those of a list, in its order.
    fn objects(
        &self,
        alloc: Global,
        all: &[Found<'_, CoreObject>],
        made: &mut Items<CoreObject>,
    ) -> Result<(), Memory>
        requires known { IsLinking self.now }
        requires at { AreAt (units_in self.now) (map (view_found view_object) all.now) }
        ensures { OnOk result (map view_object made.new ≡ map view_object made.old ++ flat_map (objects_for (units_in self.now)) (map (view_found view_object) all.now)) }
    {
        for place in 0..all.len() {
            self.add_object(alloc, &all[place], made)?;
        }
        Ok(())
    }

    fn add_function(
        &self,
        alloc: Global,
        found: &Found<'_, Fun>,
        made: &mut Items<Fun>,
    ) -> Result<(), Memory>
        requires known { IsLinking self.now }
        requires at { IsAt (units_in self.now) (view_found view_function found.now) }
        ensures { OnOk result (map view_function made.new ≡ map view_function made.old ++ function_renumbered (units_in self.now) (view_found view_function found.now) ∷ []) }
    {
        let numbers = self.numbers_of(found)?;
        made.push(function_there(alloc, numbers, found.thing)?)?;
        Ok(())
    }

    // The functions of a list with their numbers of the program.
    fn functions(
        &self,
        alloc: Global,
        all: &[Found<'_, Fun>],
        made: &mut Items<Fun>,
    ) -> Result<(), Memory>
        requires known { IsLinking self.now }
        requires at { AreAt (units_in self.now) (map (view_found view_function) all.now) }
        ensures { OnOk result (map view_function made.new ≡ map view_function made.old ++ map (function_renumbered (units_in self.now)) (map (view_found view_function) all.now)) }
    {
        for place in 0..all.len() {
            self.add_function(alloc, &all[place], made)?;
        }
        Ok(())
    }

    // Whether a function is one that no unit defines, and declared first here.
    fn is_left(&self, found: &Found<'_, Outer>) -> bool
        requires known { IsLinking self.now }
        ensures { result ≡ is_left (units_in self.now) found.now.unit (view_outer found.now.thing.now) }
    {
        let name = found.thing.name.bytes();
        if !is_external(found.thing.linkage) {
            return false;
        }
        if self.named.function_of_name(name).is_some() {
            return false;
        }
        self.named.is_outer_first(found.unit, name)
    }

    fn put_outer(
        &self,
        alloc: Global,
        found: &Found<'_, Outer>,
        made: &mut Items<Outer>,
    ) -> Result<(), Memory>
        requires known { IsLinking self.now }
        requires at { IsAt (units_in self.now) (view_found view_outer found.now) }
        ensures { OnOk result (map view_outer made.new ≡ map view_outer made.old ++ outer_renumbered (units_in self.now) (view_found view_outer found.now) ∷ []) }
    {
        let numbers = self.numbers_of(found)?;
        made.push(outer_there(alloc, numbers, found.thing)?)?;
        Ok(())
    }

    fn add_outer(
        &self,
        alloc: Global,
        found: &Found<'_, Outer>,
        made: &mut Items<Outer>,
    ) -> Result<(), Memory>
        requires known { IsLinking self.now }
        requires at { IsAt (units_in self.now) (view_found view_outer found.now) }
        ensures { OnOk result (map view_outer made.new ≡ map view_outer made.old ++ outers_for (units_in self.now) (view_found view_outer found.now)) }
    {
        if self.is_left(found) {
            self.put_outer(alloc, found, made)
        } else {
            Ok(())
        }
    }

    // The functions of a list that no unit defines, each where its name is declared first.
    fn externals(
        &self,
        alloc: Global,
        all: &[Found<'_, Outer>],
        made: &mut Items<Outer>,
    ) -> Result<(), Memory>
        requires known { IsLinking self.now }
        requires at { AreAt (units_in self.now) (map (view_found view_outer) all.now) }
        ensures { OnOk result (map view_outer made.new ≡ map view_outer made.old ++ flat_map (outers_for (units_in self.now)) (map (view_found view_outer) all.now)) }
    {
        for place in 0..all.len() {
            self.add_outer(alloc, &all[place], made)?;
        }
        Ok(())
    }

    /// Adds the things of the program. Refused only for want of memory.
    pub(crate) fn add_things(&self, alloc: Global, parts: &mut Parts) -> Result<(), Memory>
        requires known { IsLinking self.now }
        requires none { parts.old ≡ record { types = parts.old.types; objects = []; functions = []; externals = []; orders = parts.old.orders } }
        ensures { OnOk result (view_program parts.new ≡ with_things (units_in self.now) (view_types parts.old.types) (map view_order parts.old.orders)) }
    {
        let things = &self.named.things;
        self.objects(alloc, things.objects.as_slice(), &mut parts.objects)?;
        self.functions(alloc, things.functions.as_slice(), &mut parts.functions)?;
        self.externals(alloc, things.externals.as_slice(), &mut parts.externals)
    }
}

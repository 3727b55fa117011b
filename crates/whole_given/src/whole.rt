ghost use Rattle.std.specs.Prelude.{◌≡◌, [], map, option_map, unwrap_or, IfOk};
ghost use Rattle.std.specs.Option.{option_copied};
ghost use Rattle.cx_core.specs.Layouts.{layouts_of};
ghost use Rattle.cx_core.specs.Typing.{function_with, object_with, outer_with};
ghost use Rattle.cx_core.specs.Views.{view_function, view_object, view_outer, view_program, view_type, view_types};
ghost use Rattle.whole_given.specs.Whole.{AreGiven, named};
ghost use Rattle.whole_keys.specs.Places.{ArePlaces};
ghost use Rattle.whole_keys.specs.Views.{view_key};
ghost use Rattle.whole_names.specs.Keys.{module_keys, things_of};
ghost use Rattle.whole_names.specs.Kept.{module_of, name_in, size_of};
ghost use Rattle.whole_names.specs.ModuleNames.{name_or, wanted_name};

use crate::given::{ModuleNames, module_names};
use crate::wanted::wanted_name;
use cr_base::{Items, Memory, Name};
use cx_core::{CoreObject, Fun, Outer, Parts, Ty};
use cx_layout::Layouts;
use std::alloc::Global;
use std::marker::Model;
use whole_keys::{NameKey, Places, things_of};

/// A program, with the names of its modules, one for each unit, and the names that things have in them. Contracts see the program's parts and the names of its
/// modules.
#[derive(Drop)]
pub struct Whole<'a> {
    alloc: Global,
    parts: &'a Parts,
    places: Places,
    layouts: Layouts,
    modules: Items<Name>,
    given: Items<ModuleNames>,
}

impl<'a> Model for Whole<'a> {
    ghost use Rattle.cx_core.specs.Layouts.{layouts_of};
    ghost use Rattle.cx_core.specs.Views.{view_program, view_types};
    ghost use Rattle.cx_core.specs.contracts.program.Parts as contents;
    ghost use Rattle.cx_core.specs.declared.program.Parts.{Parts};
    ghost use Rattle.std.specs.Coded.{codes};
    ghost use Rattle.std.specs.Prelude.{◌≡◌, List, ℕ};
    ghost use Rattle.whole_given.specs.Whole.{AreGiven};
    ghost use Rattle.whole_keys.specs.Places.{ArePlaces};

    ghost Value = { Parts × List (List ℕ) };

    ghost coded = { Prim.hlevel (codes, contents.the_row.coded) };

    ghost view = { λ it. (it.parts.now, it.modules) };

    ghost invariant = { λ it. ArePlaces it.places (view_program it.parts.now) × (it.layouts ≡ layouts_of (view_types it.parts.now.types)) × AreGiven (view_program it.parts.now) it.given };
}

// The names of the modules of so many units.
fn names_of_units(
    alloc: Global,
    parts: &Parts,
    places: &Places,
    units: u32,
) -> Result<Items<ModuleNames>, Memory>
    requires { ArePlaces places.now (view_program parts.now) }
    ensures { IfOk result (λ given. AreGiven (view_program parts.now) given) }
{
    let mut given = Items::new(alloc);
    for unit in 0..units {
        let names = module_names(alloc, parts, places, unit)?;
        given.push(names)?;
    }
    Ok(given)
}

// That of a list, where it has one.
fn copied(alloc: Global, name: Option<&Name>) -> Result<Name, Memory>
    ensures { IfOk result (λ made. made ≡ name_or [] (option_copied name.entry)) }
{
    match name {
        Some(name) => name.copy(),
        None => Ok(Name::of(Vec::new(alloc))),
    }
}

fn size_or_none(size: Option<u64>) -> u64
    ensures { result ≡ unwrap_or size 0 }
{
    match size {
        Some(size) => size,
        None => 0,
    }
}

impl<'a> Whole<'a> {
    /// A program whose modules bear these names, one for each unit. Refused only for want of memory.
    pub fn of(
        alloc: Global,
        parts: &'a Parts,
        layouts: Layouts,
        modules: Items<Name>,
    ) -> Result<Whole<'a>, Memory>
        requires { layouts ≡ layouts_of (view_types parts.now.types) }
        ensures { IfOk result (λ whole. whole ≡ (parts.now, modules)) }
    {
        let places = Places::of(alloc, parts)?;
        let Ok(units) = u32::try_from(modules.len()) else {
            return Err(Memory);
        };
        let given = names_of_units(alloc, parts, &places, units)?;
        Ok(Whole {
            alloc,
            parts,
            places,
            layouts,
            modules,
            given,
        })
    }

    /// The parts of the program.
    pub fn parts(&self) -> &'a Parts
        ensures { result.now ≡ self.now.0 }
    {
        self.parts
    }

    /// The object with a number.
    pub fn object(&self, number: u32) -> Option<&'a CoreObject>
        ensures { option_map (λ one. view_object one.now) result ≡ object_with number (named self.now).program.objects }
    {
        self.places.object(self.parts, number)
    }

    /// The function with a number, where a unit defines it.
    pub fn function(&self, number: u32) -> Option<&'a Fun>
        ensures { option_map (λ one. view_function one.now) result ≡ function_with number (named self.now).program.functions }
    {
        self.places.function(self.parts, number)
    }

    /// The external function with a number.
    pub fn outer(&self, number: u32) -> Option<&'a Outer>
        ensures { option_map (λ one. view_outer one.now) result ≡ outer_with number (named self.now).program.externals }
    {
        self.places.outer(self.parts, number)
    }

    /// The name of the module of a unit.
    pub fn module_of(&self, unit: u32) -> Result<Name, Memory>
        ensures { IfOk result (λ name. name ≡ module_of (named self.now) unit) }
    {
        copied(self.alloc, self.modules.get(unit as usize))
    }

    /// The name of a thing in the module of a unit. Refused for want of memory, as a unit that has no module counts, too.
    pub fn name_in(&self, unit: u32, key: NameKey) -> Result<Name, Memory>
        ensures { IfOk result (λ name. name ≡ name_in (named self.now) unit (view_key key)) }
    {
        match self.given.get(unit as usize) {
            Some(made) => copied(self.alloc, made.names.name(key)),
            None => Err(Memory),
        }
    }

    /// The size of a type in bytes; 0 where it is incomplete.
    pub fn size_of(&self, ty: &Ty) -> u64
        ensures { result ≡ size_of (named self.now) (view_type ty.now) }
    {
        size_or_none(self.layouts.size(ty))
    }

    /// The keys of the module of a unit in the order of their names, without `main`. Refused where a unit has no module.
    pub fn keys(&self, unit: u32) -> Result<&[NameKey], Memory>
        ensures { IfOk result (λ keys. map view_key keys.now ≡ module_keys (named self.now).program unit) }
    {
        match self.given.get(unit as usize) {
            Some(made) => Ok(made.keys.as_slice()),
            None => Err(Memory),
        }
    }

    /// The functions and objects of a unit with linkage by first declaration, but those that another unit defines. Refused only for want of memory.
    pub fn things_of(&self, unit: u32) -> Result<Items<NameKey>, Memory>
        ensures { IfOk result (λ keys. map view_key keys ≡ things_of (named self.now).program unit) }
    {
        things_of(self.alloc, self.parts, &self.places, unit)
    }

    /// The name that a key is to get where it is free. Refused only for want of memory.
    pub fn wanted_name(&self, key: NameKey) -> Result<Name, Memory>
        ensures { IfOk result (λ name. name ≡ wanted_name (named self.now).program (view_key key)) }
    {
        wanted_name(self.alloc, self.parts, &self.places, key)
    }

    /// The layouts of the program's structures and unions.
    pub fn layouts(&self) -> &Layouts
        ensures { result.now ≡ layouts_of (view_types self.now.0.types) }
    {
        &self.layouts
    }
}

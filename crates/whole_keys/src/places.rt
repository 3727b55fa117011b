//! Where the thing of a number stands in a program (ISO C99, 6.2.1).

ghost use Rattle.std.specs.Prelude.{◌≡◌, ℕ, ◌==◌, if◌then◌else◌, Some, map, option_map, IfOk, OnOk};
ghost use Rattle.cx_core.specs.Typing.{function_with, object_with, outer_with};
ghost use Rattle.cx_core.specs.Views.{view_function, view_object, view_outer, view_program};
ghost use Rattle.whole_keys.specs.Places.{ArePlaces, first_from, has_function, has_object, has_outer, placed};

use cr_base::Memory;
use cx_core::{CoreObject, Fun, Outer, Parts};
use std::alloc::Global;
use std::collections::HashMap;

/// Where the things of a program stand in its lists, by their numbers.
#[derive(Drop)]
pub struct Places {
    objects: HashMap<u32, usize>,
    functions: HashMap<u32, usize>,
    externals: HashMap<u32, usize>,
}

// Notes where a number stands.
fn note(places: &mut HashMap<u32, usize>, number: u32, place: usize) -> Result<(), Memory>
    ensures { OnOk result ((other : ℕ) → placed places.new other ≡ (if number == other then Some place else placed places.old other)) }
{
    places.insert(number, place)?;
    Ok(())
}

// Where the first object of each number stands.
fn object_places(alloc: Global, objects: &[CoreObject]) -> Result<HashMap<u32, usize>, Memory>
    ensures { IfOk result (λ places. (number : ℕ) → placed places number ≡ first_from 0 (has_object number) (map view_object objects.now)) }
{
    let mut places = HashMap::new(alloc);
    let mut left = objects.len();
    while left > 0 {
        left -= 1;
        note(&mut places, objects[left].object, left)?;
    }
    Ok(places)
}

// Where the first function of each number stands.
fn function_places(alloc: Global, functions: &[Fun]) -> Result<HashMap<u32, usize>, Memory>
    ensures { IfOk result (λ places. (number : ℕ) → placed places number ≡ first_from 0 (has_function number) (map view_function functions.now)) }
{
    let mut places = HashMap::new(alloc);
    let mut left = functions.len();
    while left > 0 {
        left -= 1;
        note(&mut places, functions[left].function, left)?;
    }
    Ok(places)
}

// Where the first external function of each number stands.
fn outer_places(alloc: Global, externals: &[Outer]) -> Result<HashMap<u32, usize>, Memory>
    ensures { IfOk result (λ places. (number : ℕ) → placed places number ≡ first_from 0 (has_outer number) (map view_outer externals.now)) }
{
    let mut places = HashMap::new(alloc);
    let mut left = externals.len();
    while left > 0 {
        left -= 1;
        note(&mut places, externals[left].function, left)?;
    }
    Ok(places)
}

impl Places {
    /// Those of a program. Refused only for want of memory.
    pub fn of(alloc: Global, parts: &Parts) -> Result<Places, Memory>
        ensures { IfOk result (λ places. ArePlaces places (view_program parts.now)) }
    {
        let objects = object_places(alloc, parts.objects.as_slice())?;
        let functions = function_places(alloc, parts.functions.as_slice())?;
        let externals = outer_places(alloc, parts.externals.as_slice())?;
        Ok(Places {
            objects,
            functions,
            externals,
        })
    }

    /// The object with a number.
    pub fn object<'a>(&self, parts: &'a Parts, number: u32) -> Option<&'a CoreObject>
        requires { ArePlaces self.now (view_program parts.now) }
        ensures { option_map (λ one. view_object one.now) result ≡ object_with number (view_program parts.now).objects }
    {
        match self.objects.get(&number) {
            None => None,
            Some(place) => parts.objects.get(*place),
        }
    }

    /// The function with a number, where a unit defines it.
    pub fn function<'a>(&self, parts: &'a Parts, number: u32) -> Option<&'a Fun>
        requires { ArePlaces self.now (view_program parts.now) }
        ensures { option_map (λ one. view_function one.now) result ≡ function_with number (view_program parts.now).functions }
    {
        match self.functions.get(&number) {
            None => None,
            Some(place) => parts.functions.get(*place),
        }
    }

    /// The external function with a number.
    pub fn outer<'a>(&self, parts: &'a Parts, number: u32) -> Option<&'a Outer>
        requires { ArePlaces self.now (view_program parts.now) }
        ensures { option_map (λ one. view_outer one.now) result ≡ outer_with number (view_program parts.now).externals }
    {
        match self.externals.get(&number) {
            None => None,
            Some(place) => parts.externals.get(*place),
        }
    }
}

//! Objects in the order of their numbers, which is the text order of their first declarations. They are held the last first, so that one
//! with a smaller number than all others is put at the end.

ghost use Rattle.std.specs.Prelude.{◌≡◌, ◌≤◌, ◌∷◌, ◌++◌, List, length, map, reverse, IfOk, OnOk};
ghost use Rattle.cx_core.specs.Trees.{CObject};
ghost use Rattle.cx_core.specs.Views.{view_object};
ghost use Rattle.cx_scope.specs.Views.{view_made, view_thing};
ghost use Rattle.cx_unit_ends.specs.Ends as ends;
ghost use Rattle.cx_scope.specs.Objects.{AreAbove};
ghost use Rattle.cx_unit_ends.specs.Merged.{is_first_below, left_above, merged, taken_below};
ghost use Rattle.cx_unit_ends.specs.Numbered.{ArePlaces};

use crate::objects::{finished, made_object};
use crate::places::object_places;
use cr_base::{Items, Memory};
use cx_core::CoreObject;
use cx_scope::{Made, Things};
use std::alloc::Global;
use std::collections::HashMap;

// Behind how many of those that are held an object with a number goes.
fn place_of(held: &[CoreObject], number: u32) -> usize
    ensures place { result ≡ ends.place_of (reverse (map view_object held.now)) number }
    ensures within { result ≤ length held.now }
{
    let mut left = held;
    while let Some((last, older)) = left.split_last() {
        if number <= last.object {
            return left.len();
        }
        left = older;
    }
    0
}

fn put_object(held: &mut Vec<CoreObject>, one: CoreObject) -> Result<(), Memory>
    ensures { OnOk result (reverse (map view_object held.new.items) ≡ ends.put_object (view_object one) (reverse (map view_object held.old.items))) }
{
    let place = place_of(held.as_slice(), one.object);
    held.insert(place, one)?;
    Ok(())
}

fn put_literals(unit: u32, literals: Items<Made>, held: &mut Vec<CoreObject>) -> Result<(), Memory>
    ensures { OnOk result (reverse (map view_object held.new.items) ≡ ends.ordered_onto (map (ends.made_object unit) (map view_made literals)) (reverse (map view_object held.old.items))) }
{
    let mut literals = literals;
    while let Some(one) = literals.pop() {
        put_object(held, made_object(unit, one))?;
    }
    Ok(())
}

// Whether the first object of a list that is held the last first has a smaller number.
fn is_below(held: &[CoreObject], number: u32) -> bool
    ensures { result ≡ is_first_below number (reverse (map view_object held.now)) }
{
    match held.split_last() {
        None => false,
        Some((last, _)) => last.object < number,
    }
}

// Those with smaller numbers go in front of an object.
fn put_smaller(
    held: &mut Vec<CoreObject>,
    number: u32,
    done: &mut Vec<CoreObject>,
) -> Result<(), Memory>
    ensures { OnOk result ((map view_object done.new.items ≡ map view_object done.old.items ++ taken_below number (reverse (map view_object held.old.items)))
        × (reverse (map view_object held.new.items) ≡ left_above number (reverse (map view_object held.old.items)))) }
{
    while is_below(held.as_slice(), number) {
        if let Some(one) = held.pop() {
            done.push(one)?;
        }
    }
    Ok(())
}

fn put_finished(
    alloc: Global,
    things: &Things,
    places: &HashMap<u32, usize>,
    one: CoreObject,
    held: &mut Vec<CoreObject>,
    done: &mut Vec<CoreObject>,
) -> Result<(), Memory>
    requires { ArePlaces places.now (map view_thing things.now) }
    ensures { OnOk result ((others : List CObject) → map view_object done.new.items ++ merged others (reverse (map view_object held.new.items))
        ≡ map view_object done.old.items ++ merged (ends.final_object (map view_thing things.now) (view_object one) ∷ others) (reverse (map view_object held.old.items))) }
{
    let made = finished(alloc, things, places, one)?;
    put_smaller(held, made.object, done)?;
    done.push(made)?;
    Ok(())
}

// What is left goes behind.
fn put_rest(held: Vec<CoreObject>, done: &mut Vec<CoreObject>) -> Result<(), Memory>
    ensures { OnOk result (map view_object done.new.items ≡ map view_object done.old.items ++ reverse (map view_object held.items)) }
{
    let mut held = held;
    while let Some(one) = held.pop() {
        done.push(one)?;
    }
    Ok(())
}

fn put_objects(
    alloc: Global,
    things: &Things,
    places: &HashMap<u32, usize>,
    objects: Vec<CoreObject>,
    held: Vec<CoreObject>,
) -> Result<Vec<CoreObject>, Memory>
    requires { ArePlaces places.now (map view_thing things.now) }
    ensures { IfOk result (λ done. map view_object done.items ≡ merged (map (ends.final_object (map view_thing things.now)) (map view_object objects.items)) (reverse (map view_object held.items))) }
{
    let mut held = held;
    let mut left = objects;
    left.reverse();
    let mut done = Vec::new(alloc);
    while let Some(one) = left.pop() {
        put_finished(alloc, things, places, one, &mut held, &mut done)?;
    }
    put_rest(held, &mut done)?;
    Ok(done)
}

/// The objects of a unit, those of literals among them, as they are at its end. Refused only for want of memory.
pub(crate) fn all_objects(
    alloc: Global,
    unit: u32,
    things: &Things,
    objects: Vec<CoreObject>,
    literals: Items<Made>,
) -> Result<Items<CoreObject>, Memory>
    requires { AreAbove 0 objects.items }
    ensures { IfOk result (λ made. map view_object made ≡ ends.objects_of unit (map view_thing things.now) (map view_object objects.items) (map view_made literals)) }
{
    let places = object_places(alloc, things.as_slice())?;
    let mut held = Vec::new(alloc);
    put_literals(unit, literals, &mut held)?;
    let done = put_objects(alloc, things, &places, objects, held)?;
    Ok(Items::of(done))
}

//! Where the object of a number stands among what has linkage.

ghost use Rattle.std.specs.Prelude.{◌≡◌, ℕ, if◌then◌else◌, Some, map, IfOk, OnOk};
ghost use Rattle.cx_scope.specs.Views.{view_thing};
ghost use Rattle.cx_unit_ends.specs.Ends as ends;
ghost use Rattle.cx_unit_ends.specs.Numbered.{ArePlaces, placed};

use cr_base::Memory;
use cx_scope::Thing;
use std::alloc::Global;
use std::collections::HashMap;

fn note(places: &mut HashMap<u32, usize>, one: &Thing, place: usize) -> Result<(), Memory>
    ensures { OnOk result ((number : ℕ) → placed places.new number ≡ (if ends.names_object number (view_thing one.now) then Some place else placed places.old number)) }
{
    if one.is_function {
        return Ok(());
    }
    places.insert(one.number, place)?;
    Ok(())
}

/// Where the first of each number stands that is an object. Refused only for want of memory.
pub(crate) fn object_places(alloc: Global, things: &[Thing]) -> Result<HashMap<u32, usize>, Memory>
    ensures { IfOk result (λ places. ArePlaces places (map view_thing things.now)) }
{
    let mut places = HashMap::new(alloc);
    let mut left = things.len();
    while left > 0 {
        left -= 1;
        note(&mut places, &things[left], left)?;
    }
    Ok(places)
}

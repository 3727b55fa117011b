//! Objects at the end of a unit (ISO C99, 6.9.2p2).

ghost use Rattle.std.specs.Prelude.{◌≡◌, find, map, option_map, IfOk};
ghost use Rattle.cx_core.specs.Views.{view_object, view_puts};
ghost use Rattle.cx_scope.specs.Views.{view_made, view_thing};
ghost use Rattle.cx_unit_ends.specs.Ends as ends;
ghost use Rattle.cx_unit_ends.specs.Numbered.{ArePlaces};

use crate::types::final_type;
use cr_base::{Items, Memory};
use cx_core::{CoreObject, Linkage, Put};
use cx_scope::{Made, Thing, Things};
use std::alloc::Global;
use std::collections::HashMap;

fn object_thing<'a>(
    things: &'a Things,
    places: &HashMap<u32, usize>,
    number: u32,
) -> Option<&'a Thing>
    requires { ArePlaces places.now (map view_thing things.now) }
    ensures { option_map (λ one. view_thing one.now) result ≡ find (ends.names_object number) (map view_thing things.now) }
{
    match places.get(&number) {
        None => None,
        Some(place) => things.get(*place),
    }
}

fn final_puts(alloc: Global, thing: &Thing, puts: Option<Items<Put>>) -> Option<Items<Put>>
    ensures { option_map view_puts result ≡ ends.puts_by (view_thing thing.now) (option_map view_puts puts) }
{
    match puts {
        Some(puts) => Some(puts),
        None => {
            if thing.tentative.is_some() {
                Some(Items::new(alloc))
            } else {
                None
            }
        }
    }
}

#[tactic(auto, using(crate::proofs::Ordering::puts_are))]
fn finished_by(alloc: Global, thing: &Thing, one: CoreObject) -> Result<CoreObject, Memory>
    ensures { IfOk result (λ made. view_object made ≡ ends.final_by (view_thing thing.now) (view_object one)) }
{
    let ty = final_type(alloc, thing)?;
    let CoreObject {
        object,
        unit,
        name,
        is_text,
        linkage,
        puts,
        ..
    } = one;
    Ok(CoreObject {
        object,
        unit,
        name,
        is_text,
        ty: ty.into_inner(),
        linkage,
        puts: final_puts(alloc, thing, puts),
    })
}

/// An object as it is at the end of its unit. Refused only for want of memory.
pub(crate) fn finished(
    alloc: Global,
    things: &Things,
    places: &HashMap<u32, usize>,
    one: CoreObject,
) -> Result<CoreObject, Memory>
    requires { ArePlaces places.now (map view_thing things.now) }
    ensures { IfOk result (λ made. view_object made ≡ ends.final_object (map view_thing things.now) (view_object one)) }
{
    match object_thing(things, places, one.object) {
        None => Ok(one),
        Some(thing) => {
            if thing.is_defined {
                Ok(one)
            } else {
                finished_by(alloc, thing, one)
            }
        }
    }
}

/// The object of a literal.
pub(crate) fn made_object(unit: u32, one: Made) -> CoreObject
    ensures { view_object result ≡ ends.made_object unit (view_made one) }
{
    let Made {
        object,
        ty,
        is_text,
        fixed,
    } = one;
    CoreObject {
        object,
        unit,
        name: None,
        is_text,
        ty,
        linkage: Linkage::Nothing,
        puts: fixed,
    }
}

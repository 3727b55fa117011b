//! Steps that make and take places.

ghost use Rattle.mem_bytes.specs.Calls.{IsFieldPlace};

use crate::operand::{Operand, Pile, push, taken, valued};
use crate::types::{name_asked, path_asked, sign_asked, spot_asked, type_asked};
use cr_base::{Boxed, Memory, Spot};
use lift_forms_bits::bit_read;
use lift_forms_code::{RGiven, address_form, object_place, value_of};
use row_words::Asked;
use rs_makers::{field, local as local_place, static_object, target};
use rs_tree::{IntegerTy, RExpr, RPlace, RTy};
use std::alloc::Global;

// What is given by a place, where there was memory for it.
fn at_place(made: Option<Boxed<RPlace>>) -> Option<RGiven> {
    match made {
        Some(place) => Some(RGiven::Place(place)),
        None => None,
    }
}

/// Puts a local on the pile.
pub(crate) fn local(alloc: Global, pile: &mut Pile, asked: &mut Asked) {
    let name = name_asked(alloc, asked);
    let ty = type_asked(alloc, asked);
    let given = at_place(asked.had(local_place(alloc, name)));
    push(pile, ty, given, asked);
}

/// Puts a static object on the pile.
pub(crate) fn object(alloc: Global, pile: &mut Pile, asked: &mut Asked) {
    let path = path_asked(alloc, asked);
    let ty = type_asked(alloc, asked);
    let given = at_place(asked.had(static_object(alloc, path)));
    push(pile, ty, given, asked);
}

/// A place and its type.
#[derive(Drop)]
struct Placed {
    ty: Boxed<RTy>,
    place: Boxed<RPlace>,
}

// Takes a place from the pile; another operand is refused.
fn place_taken(pile: &mut Pile, asked: &mut Asked) -> Option<Placed> {
    let Operand { ty, given } = taken(pile, asked)?;
    match given {
        RGiven::Place(place) => Some(Placed { ty, place }),
        RGiven::Nothing | RGiven::Truth(_) | RGiven::Value(_) => {
            asked.refuse();
            None
        }
    }
}

/// Takes the value of an operand from the pile.
pub(crate) fn value_taken(
    alloc: Global,
    pile: &mut Pile,
    asked: &mut Asked,
) -> Option<Boxed<RExpr>> {
    let of = taken(pile, asked)?;
    asked.had(value_of(alloc, of.given))
}

/// An object with another type than it is kept with.
pub(crate) fn used(alloc: Global, pile: &mut Pile, asked: &mut Asked) {
    let Some(ty) = type_asked(alloc, asked) else {
        return;
    };
    if let Some(Placed { ty: kept, place }) = place_taken(pile, asked) {
        let made = object_place(alloc, place, kept.get(), ty.get());
        let given = at_place(asked.had(made));
        push(pile, Some(ty), given, asked);
    }
}

/// What the operand on top points to.
pub(crate) fn pointed(alloc: Global, pile: &mut Pile, asked: &mut Asked) {
    let ty = type_asked(alloc, asked);
    if let Some(e) = value_taken(alloc, pile, asked) {
        let given = at_place(asked.had(target(alloc, e)));
        push(pile, ty, given, asked);
    }
}

/// A field of the place on top.
pub(crate) fn member(alloc: Global, pile: &mut Pile, asked: &mut Asked) {
    let name = name_asked(alloc, asked);
    let ty = type_asked(alloc, asked);
    if let Some(of) = place_taken(pile, asked) {
        let given = at_place(asked.had(field(alloc, of.place, name)));
        push(pile, ty, given, asked);
    }
}

/// The address of the place on top, as a pointer to a type.
pub(crate) fn address(alloc: Global, pile: &mut Pile, asked: &mut Asked) {
    let Some(target) = type_asked(alloc, asked) else {
        return;
    };
    if let Some(Placed { ty: of, place }) = place_taken(pile, asked) {
        let made = address_form(alloc, of.get(), target.get(), place);
        let given = asked.had(made);
        let ty = asked.had(Boxed::new(alloc, RTy::Pointer(target)));
        push(pile, ty, given, asked);
    }
}

// A bit-field as a value on the heap.
fn bits_value(alloc: Global, base: &RExpr, spot: Spot, signed: bool) -> Result<Boxed<RExpr>, Memory>
    requires { IsFieldPlace spot.bit spot.width }
{
    Boxed::new(alloc, bit_read(alloc, base, spot, signed)?)
}

/// A bit-field of the object that the operand on top points to.
pub(crate) fn bits(alloc: Global, pile: &mut Pile, asked: &mut Asked) {
    let Some(spot) = spot_asked(asked) else {
        return;
    };
    let signed = sign_asked(asked);
    let which = if signed {
        IntegerTy::I64
    } else {
        IntegerTy::U64
    };
    let ty = asked.had(Boxed::new(alloc, RTy::Integer(which)));
    if let Some(base) = value_taken(alloc, pile, asked) {
        let given = valued(asked.had(bits_value(alloc, base.get(), spot, signed)));
        push(pile, ty, given, asked);
    }
}

//! Values of puts that are stored (ISO C99, 6.7.8).

ghost use Rattle.std.specs.Prelude.{◌≡◌, IfSome};
ghost use Rattle.cx_access.specs.Finds.{Finds};
ghost use Rattle.cx_access.specs.Views.{view_setting};
ghost use Rattle.cx_core.specs.Views.{view_put};
ghost use Rattle.cx_mean.specs.Initialisers as meaning;
ghost use Rattle.cx_puts.specs.Storing.{value_put};
ghost use Rattle.cx_work.specs.Views.{view_finished};

use cr_base::Spot;
use cx_access::{Setting, Trouble, stored};
use cx_core::Put;
use cx_work::{Finished, Marks, Objects, OperandTy};
use mem_bytes::{Ptr, Store, Value};

// The place of a part of an object; none where no `u64` counts its bytes.
fn part_place(at: Ptr, spot: Spot) -> Option<Finished>
    ensures { IfSome result (λ place. view_finished place ≡ meaning.part_place at spot) }
{
    let offset = at.offset.checked_add(spot.byte)?;
    let part = Ptr {
        block: at.block,
        offset,
    };
    if spot.width == 0 {
        return Some(Finished::Designates(Value::Object(part)));
    }
    Some(Finished::Bits(part, spot.bit, spot.width))
}

/// Stores the value of a put in an object; the access is seen against the marks of its value, and what is written is marked.
///
/// # Errors
///
/// `Undefined` by U1, U5, U6, U9, U10, U14 or U16.
pub fn store_put<S: Store, O: Objects>(
    store: &mut S,
    objects: &O,
    setting: &Setting<'_>,
    number: u32,
    put: &Put,
    value: Finished,
    marks: &mut Marks,
) -> Result<Finished, Trouble>
    ensures stored { Finds (λ given. record { value = view_finished given; marks = marks.new; blocks = S.memory store.new }) result
        (value_put (view_setting setting.now) (O.frame objects.now) (S.memory store.old) number (view_put put.now) (view_finished value) marks.old) }
    ensures limit { S.limit store.new ≡ S.limit store.old }
{
    let Some(at) = objects.place_of(number) else {
        return Err(Trouble::Memory);
    };
    let Some(place) = part_place(at, put.spot) else {
        return Err(Trouble::Memory);
    };
    stored(
        store,
        objects,
        setting,
        OperandTy::Of(&put.ty),
        &place,
        value,
        marks,
    )
}

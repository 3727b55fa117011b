//! Lvalues and the places that they designate (ISO C99, 6.3.2.1p1, 6.5.3.2).

ghost use Rattle.std.specs.Prelude.{◌≡◌};
ghost use Rattle.cx_access.specs.Finds.{Finds, fault_in};
ghost use Rattle.cx_mean.specs.Accesses.{object_at};
ghost use Rattle.cx_mean.specs.Operands.{place_in};
ghost use Rattle.cx_work.specs.Views.{view_finished};
ghost use Rattle.mem_bytes.specs.Access.{and_then, part_at};

use crate::trouble::Trouble;
use cr_base::URule;
use cx_work::{Finished, Objects};
use mem_bytes::{Fault, Ptr, Store, Value};

/// The pointer to what an lvalue that isn't a bit-field designates.
pub fn place_value<O: Objects>(objects: &O, place: &Finished) -> Result<Value, Trouble>
    ensures { Finds (λ value. value) result (place_in (O.frame objects.now) (view_finished place.now)) }
{
    match place {
        Finished::Names(number) => match objects.place_of(*number) {
            Some(at) => Ok(Value::Object(at)),
            None => Err(Trouble::Memory),
        },
        Finished::Designates(to) => Ok(*to),
        Finished::Bits(_, _, _) => Err(Trouble::Memory),
        Finished::Scalar(_) => Err(Trouble::Memory),
        Finished::Cells(_, _) => Err(Trouble::Memory),
        Finished::Missing => Err(Trouble::Memory),
    }
}

/// The place of an access.
///
/// # Errors
///
/// `Undefined(U6)` through a null pointer.
pub fn object_at(to: Value) -> Result<Ptr, Trouble>
    ensures { Finds (λ at. at) result (object_at to) }
{
    match to {
        Value::Object(at) => Ok(at),
        Value::Null => Err(Trouble::Undefined(URule::U6)),
        Value::Whole(_) => Err(Trouble::Memory),
        Value::Code(_) => Err(Trouble::Memory),
    }
}

/// The place that an lvalue which isn't a bit-field designates, for an access.
pub fn place_of<O: Objects>(objects: &O, place: &Finished) -> Result<Ptr, Trouble>
    ensures { Finds (λ at. at) result (and_then (place_in (O.frame objects.now) (view_finished place.now)) object_at) }
{
    match place_value(objects, place) {
        Ok(to) => object_at(to),
        Err(trouble) => Err(trouble),
    }
}

/// What is wrong with the place of an access of so many bytes, if something is.

pub(crate) fn part_fault<S: Store>(store: &S, at: Ptr, count: u64) -> Option<Fault>
    ensures { result ≡ fault_in (part_at (S.memory store.now) at count) }
{
    let Some(state) = store.state(at.block) else {
        return Some(Fault::Dead);
    };
    if !state.live {
        return Some(Fault::Dead);
    }
    match at.offset.checked_add(count) {
        Some(end) if end <= state.size => None,
        _ => Some(Fault::Outside),
    }
}

ghost use Rattle.std.specs.Prelude.{◌≡◌, ◌<◌, pos, ◌+ℤ◌};
ghost use Rattle.mem_bytes.specs.Pointers.{object_size, usable, place_inside, place_moved, moved, distance, difference, same_places, are_equal, equality};

use crate::coding::is_same_pointer;
use crate::store::Store;
use crate::value::{Ptr, Value};
use cr_base::Int;

/// What is wrong with an operation on pointers. Of several faults the first in this order is found,
/// those of the first pointer before those of the second.
#[derive(Clone, Copy, Debug, PartialEq, Eq)]
pub enum PointerFault {
    /// The object that a pointer is to is dead.
    ToDead,
    /// The result leaves the object and isn't one past its end, or the pointer is null.
    LeavesObject,
    /// The pointers aren't to one object, their distance is no whole number of elements, or one of
    /// them is past the end of its object and the other to another one.
    NotWithinOne,
    /// An operand is no pointer to an object where it has to be one, which no typed program has.
    NoPointer,
}

/// The pointer itself, where the object that it is to lives (ISO C99, 6.2.4p2); a null pointer and one
/// to a function are to none.
///
/// # Errors
///
/// `ToDead`, or `NoPointer` for a number.
pub fn usable<S: Store>(store: &S, pointer: Value) -> Result<Value, PointerFault>
    ensures { result ≡ usable (S.memory store.now) pointer }
{
    match pointer {
        Value::Object(at) => match object_size(store, at) {
            Ok(_) => Ok(pointer),
            Err(fault) => Err(fault),
        },
        Value::Null | Value::Code(_) => Ok(pointer),
        Value::Whole(_) => Err(PointerFault::NoPointer),
    }
}

/// The pointer moved by so many bytes (6.5.6p8): inside its object, or one past its end.
///
/// # Errors
///
/// `ToDead`, `LeavesObject`, or `NoPointer` for what isn't a pointer to an object.
pub fn moved<S: Store>(store: &S, pointer: Value, bytes: Int) -> Result<Value, PointerFault>
    ensures { result ≡ moved (S.memory store.now) pointer bytes }
{
    match pointer {
        Value::Object(at) => match place_moved(store, at, bytes) {
            Ok(place) => Ok(Value::Object(place)),
            Err(fault) => Err(fault),
        },
        Value::Null => Err(PointerFault::LeavesObject),
        Value::Code(_) | Value::Whole(_) => Err(PointerFault::NoPointer),
    }
}

/// The place moved by so many bytes: inside its object, or one past its end.
///
/// # Errors
///
/// `ToDead` or `LeavesObject`.
pub fn place_moved<S: Store>(store: &S, at: Ptr, bytes: Int) -> Result<Ptr, PointerFault>
    ensures { result ≡ place_moved (S.memory store.now) at bytes }
{
    match object_size(store, at) {
        Ok(size) => place_inside(at, size, bytes),
        Err(fault) => Err(fault),
    }
}

/// By how many bytes the first of two pointers within one object stands behind the second (6.5.6p9);
/// by its sign they are ordered (6.5.8p5).
///
/// # Errors
///
/// `ToDead`, `NotWithinOne`, or `NoPointer` where one isn't null and no pointer to an object.
pub fn distance<S: Store>(store: &S, first: Value, second: Value) -> Result<Int, PointerFault>
    ensures { result ≡ distance (S.memory store.now) first second }
{
    match (first, second) {
        (Value::Object(one), Value::Object(other)) => object_distance(store, one, other),
        (Value::Object(at), Value::Null) | (Value::Null, Value::Object(at)) => {
            match object_size(store, at) {
                Ok(_) => Err(PointerFault::NotWithinOne),
                Err(fault) => Err(fault),
            }
        }
        (Value::Null, Value::Null) => Err(PointerFault::NotWithinOne),
        _ => Err(PointerFault::NoPointer),
    }
}

/// The same in elements of `size` bytes.
///
/// # Errors
///
/// As for `distance`, and `NotWithinOne` where it is no whole number of elements.
pub fn difference<S: Store>(
    store: &S,
    size: u64,
    first: Value,
    second: Value,
) -> Result<Int, PointerFault>
    requires { 0 < size }
    ensures { result ≡ difference (S.memory store.now) size first second }
{
    let bytes = match distance(store, first, second) {
        Ok(bytes) => bytes,
        Err(fault) => return Err(fault),
    };
    if bytes % Int::from(size) != 0 {
        return Err(PointerFault::NotWithinOne);
    }
    Ok(bytes / Int::from(size))
}

/// Whether two pointers are equal (6.5.9p6). It isn't told of one past the end of an object and one to
/// another object, which may stand behind it.
///
/// # Errors
///
/// `ToDead`, `NotWithinOne`, or `NoPointer` for a number.
pub fn equality<S: Store>(store: &S, first: Value, second: Value) -> Result<bool, PointerFault>
    ensures { result ≡ equality (S.memory store.now) first second }
{
    match (first, second) {
        (Value::Object(one), Value::Object(other)) => object_equality(store, one, other),
        _ => {
            if let Err(fault) = usable(store, first) {
                return Err(fault);
            }
            if let Err(fault) = usable(store, second) {
                return Err(fault);
            }
            Ok(are_equal(first, second))
        }
    }
}

// The size of the object that a pointer is to.
fn object_size<S: Store>(store: &S, at: Ptr) -> Result<u64, PointerFault>
    ensures { result ≡ object_size (S.memory store.now) at }
{
    match store.state(at.block) {
        Some(state) if state.live => Ok(state.size),
        _ => Err(PointerFault::ToDead),
    }
}

// The place so many bytes behind another in its object of this size.
fn place_inside(at: Ptr, size: u64, bytes: Int) -> Result<Ptr, PointerFault>
    ensures { result ≡ place_inside at.block size (pos at.offset +ℤ bytes) }
{
    match Int::from(at.offset).checked_add(bytes) {
        Some(offset) if 0 <= offset && offset <= Int::from(size) => Ok(Ptr {
            block: at.block,
            offset: offset as u64,
        }),
        _ => Err(PointerFault::LeavesObject),
    }
}

fn object_distance<S: Store>(store: &S, first: Ptr, second: Ptr) -> Result<Int, PointerFault>
    ensures { result ≡ distance (S.memory store.now) (Value.Object first) (Value.Object second) }
{
    if let Err(fault) = object_size(store, first) {
        return Err(fault);
    }
    if let Err(fault) = object_size(store, second) {
        return Err(fault);
    }
    if first.block != second.block {
        return Err(PointerFault::NotWithinOne);
    }
    Ok(Int::from(first.offset) - Int::from(second.offset))
}

fn object_equality<S: Store>(store: &S, first: Ptr, second: Ptr) -> Result<bool, PointerFault>
    ensures { result ≡ equality (S.memory store.now) (Value.Object first) (Value.Object second) }
{
    let size = match object_size(store, first) {
        Ok(size) => size,
        Err(fault) => return Err(fault),
    };
    let other = match object_size(store, second) {
        Ok(size) => size,
        Err(fault) => return Err(fault),
    };
    same_places(first, size, second, other)
}

// Whether two places, in objects of these sizes, are one.
fn same_places(first: Ptr, size: u64, second: Ptr, other: u64) -> Result<bool, PointerFault>
    ensures { result ≡ same_places first size second other }
{
    if first.block == second.block {
        return Ok(first.offset == second.offset);
    }
    if first.offset == size {
        return Err(PointerFault::NotWithinOne);
    }
    if second.offset == other {
        return Err(PointerFault::NotWithinOne);
    }
    Ok(false)
}

// Whether two pointers are one, null pointers too.
fn are_equal(first: Value, second: Value) -> bool
    ensures { result ≡ are_equal first second }
{
    match (first, second) {
        (Value::Null, Value::Null) => true,
        _ => is_same_pointer(first, second),
    }
}

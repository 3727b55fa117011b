//! Loads and stores (the Rust Reference, "Place expressions and value expressions").

ghost use Rattle.std.specs.Prelude.{◌≡◌, IsTrue, IfSome, option_map};
ghost use Rattle.mem_bytes.specs.Coding.{IsScalar, IsValueOf};
ghost use Rattle.mem_bytes.specs.Memory.{Blocks};
ghost use Rattle.rs_machine.specs.Accesses.{Changes, loaded, stored, unbased, unbased_in};
ghost use Rattle.rs_mean.specs.Calls.{based, loaded_at, on_base, stored_at};
ghost use Rattle.rs_mean.specs.Scalars.{scalar_of};
ghost use Rattle.rs_mean.specs.World.{cause_of};
ghost use Rattle.rs_tree.specs.Views.{ty_view};
ghost use Rattle.rs_value.specs.Views.{seen_as, spot_view, typed_view};

use cr_base::{Scalar, fits};
use mem_bytes::{BlockState, Fault, Ptr, Store, Value, scalar_size};
use rs_mean::Cause;
use rs_tree::RTy;
use rs_value::{Trouble, TypedValue, ValueSpot, integer_scalar, value_ty};

/// The cause of the fault of an access.
pub(crate) fn cause_of(fault: Fault) -> Cause
    ensures { result ≡ cause_of fault }
{
    match fault {
        Fault::Dead => Cause::Dead,
        Fault::Outside => Cause::Outside,
        Fault::Misaligned => Cause::Misaligned,
        Fault::Unset => Cause::Unset,
        Fault::BadBool => Cause::BadBool,
        Fault::MixedPointer => Cause::MixedPointer,
    }
}

/// A scalar type as memory sees it.
#[inline(always)]
pub(crate) fn scalar_of(ty: &RTy) -> Option<Scalar>
    ensures scalar { result ≡ scalar_of (ty_view ty.now) }
    ensures is { IfSome result IsScalar }
{
    match ty {
        RTy::Integer(ty) => Some(integer_scalar(*ty)),
        RTy::Boolean => Some(Scalar::Truth),
        RTy::Pointer(_) => Some(Scalar::Object),
        RTy::Code(_, _) => Some(Scalar::Code),
        RTy::Void | RTy::Array(_, _) | RTy::Record(_) => None,
    }
}

// What a load finds at a place whose base is aligned or isn't.
#[inline(always)]
fn on_base(is_based: bool, found: Result<Value, Fault>) -> Result<Value, Fault>
    ensures { result ≡ on_base is_based found }
{
    if is_based {
        return found;
    }
    match found {
        Err(Fault::Dead) => Err(Fault::Dead),
        Err(Fault::Outside) => Err(Fault::Outside),
        _ => Err(Fault::Misaligned),
    }
}

#[inline(always)]
fn loaded_at<S: Store>(store: &S, is_based: bool, scalar: Scalar, at: Value) -> Result<Value, Cause>
    requires { IsScalar scalar }
    ensures { result ≡ loaded_at (S.memory store.now) is_based scalar at }
{
    match at {
        Value::Object(at) => match on_base(is_based, store.load(at, scalar)) {
            Ok(value) => Ok(value),
            Err(fault) => Err(cause_of(fault)),
        },
        Value::Null => Err(Cause::Outside),
        Value::Whole(_) => Err(Cause::WrongCall),
        Value::Code(_) => Err(Cause::WrongCall),
    }
}

/// The value that a place holds.
#[inline(always)]
pub(crate) fn loaded<'t, S: Store>(store: &S, place: ValueSpot<'t>) -> Result<TypedValue<'t>, Cause>
    ensures { seen_as typed_view result ≡ loaded (S.memory store.now) (spot_view place.entry) }
{
    let Some(scalar) = scalar_of(place.ty) else {
        return Err(Cause::WrongCall);
    };
    match loaded_at(store, place.is_based, scalar, place.at) {
        Ok(value) => Ok(TypedValue {
            ty: value_ty(place.ty),
            value,
        }),
        Err(why) => Err(why),
    }
}

// Whether a value is one of a scalar type, as each is that a well typed crate stores.
#[inline(always)]
fn is_value_of(scalar: Scalar, value: Value) -> bool
    requires { IsScalar scalar }
    ensures { IsTrue result → IsValueOf scalar value }
{
    match scalar {
        Scalar::Truth => match value {
            Value::Whole(number) => fits(Scalar::Truth, number),
            _ => false,
        },
        Scalar::Whole { width, signed } => match value {
            Value::Whole(number) => fits(Scalar::Whole { width, signed }, number),
            _ => false,
        },
        Scalar::Object => matches!(value, Value::Null | Value::Object(_)),
        Scalar::Code => matches!(value, Value::Null | Value::Code(_)),
    }
}

// What a store finds at a place whose base isn't aligned, by what is told of the block.
fn unbased_in(offset: u64, size: u64, state: Option<BlockState>) -> Fault
    ensures { result ≡ unbased_in offset size state }
{
    let Some(state) = state else {
        return Fault::Dead;
    };
    if !state.live {
        return Fault::Dead;
    }
    match offset.checked_add(size) {
        Some(end) => {
            if end <= state.size {
                Fault::Misaligned
            } else {
                Fault::Outside
            }
        }
        None => Fault::Outside,
    }
}

#[inline(never)]
fn unbased<S: Store>(store: &S, at: Ptr, scalar: Scalar) -> Fault
    requires { IsScalar scalar }
    ensures { result ≡ unbased (S.memory store.now) at scalar }
{
    unbased_in(at.offset, scalar_size(scalar) as u64, store.state(at.block))
}

#[inline(always)]
fn put_at<S: Store>(
    store: &mut S,
    is_based: bool,
    scalar: Scalar,
    at: Value,
    value: Value,
) -> Result<(), Trouble>
    requires { IsScalar scalar }
    ensures blocks { Changes result (S.memory store.old) (S.memory store.new) (stored_at (S.memory store.old) is_based scalar at value) }
    ensures limit { S.limit store.new ≡ S.limit store.old }
{
    let at = match at {
        Value::Object(at) => at,
        Value::Null => return Err(Trouble::Wrong(Cause::Outside)),
        Value::Whole(_) => return Err(Trouble::Wrong(Cause::WrongCall)),
        Value::Code(_) => return Err(Trouble::Wrong(Cause::WrongCall)),
    };
    if !is_based {
        return Err(Trouble::Wrong(cause_of(unbased(store, at, scalar))));
    }
    if !is_value_of(scalar, value) {
        return Err(Trouble::Memory);
    }
    match store.put(at, scalar, value) {
        Ok(()) => Ok(()),
        Err(fault) => Err(Trouble::Wrong(cause_of(fault))),
    }
}

/// Stores a value at a place.
#[inline(always)]
pub(crate) fn put<S: Store>(
    store: &mut S,
    is_based: bool,
    ty: &RTy,
    at: Value,
    value: Value,
) -> Result<(), Trouble>
    ensures blocks { Changes result (S.memory store.old) (S.memory store.new) (stored (S.memory store.old) (based is_based (ty_view ty.now) at) value) }
    ensures limit { S.limit store.new ≡ S.limit store.old }
{
    match scalar_of(ty) {
        Some(scalar) => put_at(store, is_based, scalar, at, value),
        None => Err(Trouble::Wrong(Cause::WrongCall)),
    }
}

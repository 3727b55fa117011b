//! What the outside sees of a call (the Rust Reference, "External blocks"): numbers with their types, and
//! texts as they stand now.

ghost use Rattle.std.specs.Prelude.{◌≡◌, ◌++◌, map, Ok};
ghost use Rattle.cr_world.specs.Texts.{text_at, text_of};
ghost use Rattle.mem_bytes.specs.Access.{cell_at};
ghost use Rattle.rs_machine.specs.Accesses.{byte_in};
ghost use Rattle.rs_mean.specs.Calls.{argued, argument_by, arguments_of, event_in};
ghost use Rattle.rs_mean.specs.World.{cause_of, cause_of_held, or_cause, then_try};
ghost use Rattle.rs_text.specs.Tree as tree;
ghost use Rattle.rs_tree.specs.Views.{ty_view};
ghost use Rattle.rs_value.specs.Finds.{Finds};
ghost use Rattle.rs_value.specs.Views.{typed_view, value_ty_view};

use crate::accesses::cause_of;
use cr_base::{Items, Name, Scalar};
use ext_calls::{Arg, Call};
use mem_bytes::{Cell, Ptr, Store, Value};
use rs_mean::Cause;
use rs_tree::RTy;
use rs_value::{Trouble, TypedValue, ValueTy, integer_scalar};
use std::alloc::Global;

// The byte at a place, of which all bits have to be set.
fn byte_at<S: Store>(store: &S, at: Ptr) -> Result<u8, Cause>
    ensures { result ≡ byte_in (cell_at (S.memory store.now) at) }
{
    match store.cell(at) {
        Ok(Cell::Bits { value, set }) => {
            if set == 255 {
                Ok(value)
            } else {
                Err(Cause::Unset)
            }
        }
        Ok(Cell::PtrByte { .. }) => Err(Cause::MixedPointer),
        Err(fault) => Err(cause_of(fault)),
    }
}

// The text at a place: its bytes up to the first zero byte.
#[tactic(auto, using(crate::proofs::Texts::text_step))]
fn text_from<S: Store>(alloc: Global, store: &S, at: Ptr) -> Result<Name, Trouble>
    ensures { Finds (λ text. text) result (or_cause cause_of (text_at (S.memory store.now) at)) }
{
    let mut bytes = Vec::new(alloc);
    for offset in at.offset..u64::MAX {
        let byte = match byte_at(
            store,
            Ptr {
                block: at.block,
                offset,
            },
        ) {
            Ok(byte) => byte,
            Err(why) => return Err(Trouble::Wrong(why)),
        };
        if byte == 0 {
            return Ok(Name::of(bytes));
        }
        if bytes.push(byte).is_err() {
            return Err(Trouble::Memory);
        }
    }
    Err(Trouble::Memory)
}

fn text_of_object<S: Store>(alloc: Global, store: &S, at: Ptr) -> Result<Name, Trouble>
    ensures { Finds (λ text. text) result (or_cause cause_of_held (text_of (S.memory store.now) (Value.Object at))) }
{
    text_from(alloc, store, at)
}

fn text<S: Store>(alloc: Global, store: &S, at: Value) -> Result<Name, Trouble>
    ensures { Finds (λ text. text) result (or_cause cause_of_held (text_of (S.memory store.now) at)) }
{
    match at {
        Value::Object(at) => text_of_object(alloc, store, at),
        Value::Null => Err(Trouble::Wrong(Cause::Outside)),
        Value::Whole(_) => Err(Trouble::Wrong(Cause::WrongCall)),
        Value::Code(_) => Err(Trouble::Wrong(Cause::WrongCall)),
    }
}

fn number(scalar: Scalar, value: Value) -> Result<Arg, Trouble>
    ensures { Finds (λ arg. arg) result (argued scalar value) }
{
    match value {
        Value::Whole(value) => Ok(Arg::Whole { scalar, value }),
        _ => Err(Trouble::Wrong(Cause::WrongCall)),
    }
}

fn text_argument<S: Store>(
    alloc: Global,
    store: &S,
    _target: &RTy,
    at: Value,
) -> Result<Arg, Trouble>
    ensures { Finds (λ arg. arg) result (argument_by (S.memory store.now) (tree.Pointer (ty_view _target.now)) at) }
{
    match text(alloc, store, at) {
        Ok(text) => Ok(Arg::Text(text)),
        Err(trouble) => Err(trouble),
    }
}

// An argument as the outside sees it.
fn argument<S: Store>(
    alloc: Global,
    store: &S,
    ty: ValueTy<'_>,
    value: Value,
) -> Result<Arg, Trouble>
    ensures { Finds (λ arg. arg) result (argument_by (S.memory store.now) (value_ty_view ty.entry) value) }
{
    match ty {
        ValueTy::Integer(ty) => number(integer_scalar(ty), value),
        ValueTy::Boolean => number(Scalar::Truth, value),
        ValueTy::Pointer(target) => text_argument(alloc, store, target, value),
        ValueTy::Void | ValueTy::Array(_, _) | ValueTy::Code(_, _) | ValueTy::Record(_) => {
            Err(Trouble::Wrong(Cause::WrongCall))
        }
    }
}

// The arguments from the left, behind others.
fn arguments_into<S: Store>(
    alloc: Global,
    store: &S,
    list: &[TypedValue<'_>],
    into: &mut Items<Arg>,
) -> Result<(), Trouble>
    ensures { Finds (λ _. into.new) result (then_try (arguments_of (S.memory store.now) (map typed_view list.now)) (λ others. Ok (into.old ++ others))) }
{
    for one in list {
        let arg = match argument(alloc, store, one.ty, one.value) {
            Ok(arg) => arg,
            Err(trouble) => return Err(trouble),
        };
        if into.push(arg).is_err() {
            return Err(Trouble::Memory);
        }
    }
    Ok(())
}

/// The event of a call of the function with a symbol.
pub(crate) fn event<S: Store>(
    alloc: Global,
    store: &S,
    symbol: &[u8],
    list: &[TypedValue<'_>],
) -> Result<Call, Trouble>
    ensures { Finds (λ call. call) result (event_in symbol.now (arguments_of (S.memory store.now) (map typed_view list.now))) }
{
    let mut args = Items::new(alloc);
    if let Err(trouble) = arguments_into(alloc, store, list, &mut args) {
        return Err(trouble);
    }
    match Vec::from_slice(alloc, symbol) {
        Ok(bytes) => Ok(Call {
            name: Name::of(bytes),
            args,
        }),
        Err(_) => Err(Trouble::Memory),
    }
}

//! What the outside sees of a call (ISO C99, 6.5.2.2 and 7.1.1p1): numbers with their types, and texts as they
//! stand now.

ghost use Rattle.std.specs.Prelude.{◌≡◌, ◌++◌, map, Ok};
ghost use Rattle.cr_world.specs.Texts.{text_at, text_of};
ghost use Rattle.cx_access.specs.Finds.{Finds};
ghost use Rattle.cx_access.specs.Views.{view_setting};
ghost use Rattle.cx_mean.specs.Calls.{argument_of, arguments, number_argument, text_argument, values_of};
ghost use Rattle.cx_mean.specs.Operands.{accessed};
ghost use Rattle.cx_outside.specs.Texts.{argument_in, byte_in};
ghost use Rattle.cx_work.specs.Views.{view_operand};
ghost use Rattle.mem_bytes.specs.Access.{and_then, cell_at};

use cr_base::{Items, Name, Scalar, URule};
use cx_access::{Setting, Trouble, rule_of, scalar_of, scalar_value};
use cx_work::{Operand, OperandTy};
use ext_calls::Arg;
use mem_bytes::{Cell, Ptr, Store, Value};
use std::alloc::Global;

// The byte at a place, of which all bits have to be set.
fn byte_at<S: Store>(store: &S, at: Ptr) -> Result<u8, Trouble>
    ensures { Finds (λ byte. byte) result (byte_in (cell_at (S.memory store.now) at)) }
{
    match store.cell(at) {
        Ok(Cell::Bits { value, set }) => {
            if set == 255 {
                Ok(value)
            } else {
                Err(Trouble::Undefined(URule::U7))
            }
        }
        Ok(Cell::PtrByte { .. }) => Err(Trouble::Undefined(URule::U9)),
        Err(fault) => Err(Trouble::Undefined(rule_of(fault))),
    }
}

// The text at a place: its bytes up to the first zero byte.
#[tactic(auto, using(crate::proofs::Written::text_step))]
fn text_from<S: Store>(alloc: Global, store: &S, at: Ptr) -> Result<Name, Trouble>
    ensures { Finds (λ text. text) result (accessed (text_at (S.memory store.now) at)) }
{
    let mut bytes = Vec::new(alloc);
    for offset in at.offset..u64::MAX {
        let byte = match byte_at(
            store,
            Ptr {
                block: at.block,
                offset,
            },
        ) {
            Ok(byte) => byte,
            Err(trouble) => return Err(trouble),
        };
        if byte == 0 {
            return Ok(Name::of(bytes));
        }
        if bytes.push(byte).is_err() {
            return Err(Trouble::Memory);
        }
    }
    Err(Trouble::Memory)
}

fn text_of_object<S: Store>(alloc: Global, store: &S, at: Ptr) -> Result<Arg, Trouble>
    ensures { Finds (λ arg. arg) result (text_argument (text_of (S.memory store.now) (Value.Object at))) }
{
    match text_from(alloc, store, at) {
        Ok(text) => Ok(Arg::Text(text)),
        Err(trouble) => Err(trouble),
    }
}

fn text<S: Store>(alloc: Global, store: &S, at: Value) -> Result<Arg, Trouble>
    ensures { Finds (λ arg. arg) result (text_argument (text_of (S.memory store.now) at)) }
{
    match at {
        Value::Object(at) => text_of_object(alloc, store, at),
        Value::Null => Err(Trouble::Undefined(URule::U6)),
        Value::Whole(_) => Err(Trouble::Memory),
        Value::Code(_) => Err(Trouble::Memory),
    }
}

fn number(scalar: Scalar, value: Value) -> Result<Arg, Trouble>
    ensures { Finds (λ arg. arg) result (number_argument scalar value) }
{
    match value {
        Value::Whole(value) => Ok(Arg::Whole { scalar, value }),
        _ => Err(Trouble::Memory),
    }
}

// An argument of a scalar type as the outside sees it.
fn argument_of<S: Store>(
    alloc: Global,
    store: &S,
    kind: Option<Scalar>,
    value: Value,
) -> Result<Arg, Trouble>
    ensures { Finds (λ arg. arg) result (argument_of (S.memory store.now) kind value) }
{
    match kind {
        Some(Scalar::Truth) => number(Scalar::Truth, value),
        Some(Scalar::Whole { width, signed }) => number(Scalar::Whole { width, signed }, value),
        Some(Scalar::Object) => text(alloc, store, value),
        Some(Scalar::Code) => Err(Trouble::Memory),
        None => Err(Trouble::Memory),
    }
}

fn argument<S: Store>(
    alloc: Global,
    setting: &Setting<'_>,
    store: &S,
    one: &Operand<'_>,
) -> Result<Arg, Trouble>
    ensures { Finds (λ arg. arg) result (argument_in (view_setting setting.now) (S.memory store.now) (view_operand one.now)) }
{
    match scalar_value(&one.value) {
        Ok(value) => argument_of(
            alloc,
            store,
            scalar_of(setting, OperandTy::Of(one.ty)),
            value,
        ),
        Err(trouble) => Err(trouble),
    }
}

// The arguments from the left, behind others.
fn arguments_into<S: Store>(
    alloc: Global,
    setting: &Setting<'_>,
    store: &S,
    list: &[Operand<'_>],
    into: &mut Items<Arg>,
) -> Result<(), Trouble>
    ensures { Finds (λ _. into.new) result (and_then (arguments (view_setting setting.now) (S.memory store.now) (map view_operand list.now)) (λ others. Ok (into.old ++ others))) }
{
    for one in list {
        let arg = match argument(alloc, setting, store, one) {
            Ok(arg) => arg,
            Err(trouble) => return Err(trouble),
        };
        if into.push(arg).is_err() {
            return Err(Trouble::Memory);
        }
    }
    Ok(())
}

/// Arguments as the outside sees them, from the left.
pub(crate) fn arguments<S: Store>(
    alloc: Global,
    setting: &Setting<'_>,
    store: &S,
    list: &[Operand<'_>],
) -> Result<Items<Arg>, Trouble>
    ensures { Finds (λ args. args) result (arguments (view_setting setting.now) (S.memory store.now) (map view_operand list.now)) }
{
    let mut args = Items::new(alloc);
    match arguments_into(alloc, setting, store, list, &mut args) {
        Ok(()) => Ok(args),
        Err(trouble) => Err(trouble),
    }
}

// The values of arguments from the left, behind others.
fn values_into(list: &[Operand<'_>], into: &mut Items<Value>) -> Result<(), Trouble>
    ensures { Finds (λ _. into.new) result (and_then (values_of (map view_operand list.now)) (λ others. Ok (into.old ++ others))) }
{
    for one in list {
        let value = match scalar_value(&one.value) {
            Ok(value) => value,
            Err(trouble) => return Err(trouble),
        };
        if into.push(value).is_err() {
            return Err(Trouble::Memory);
        }
    }
    Ok(())
}

/// The values of arguments, from the left.
pub(crate) fn values_of(alloc: Global, list: &[Operand<'_>]) -> Result<Items<Value>, Trouble>
    ensures { Finds (λ values. values) result (values_of (map view_operand list.now)) }
{
    let mut values = Items::new(alloc);
    match values_into(list, &mut values) {
        Ok(()) => Ok(values),
        Err(trouble) => Err(trouble),
    }
}

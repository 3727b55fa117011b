//! Calls of external functions (the Rust Reference, "External blocks"), and copies of bytes.

ghost use Rattle.std.specs.Prelude.{◌≡◌, Option, map, option_map};
ghost use Rattle.std.specs.Option.{option_copied};
ghost use Rattle.rs_machine.specs.Called.{CopiesTo, EndsBy, copy_of};
ghost use Rattle.rs_machine.specs.Does.{Does, Stays, end_of, stopped_by};
ghost use Rattle.rs_machine.specs.Effects.{given, library_view};
ghost use Rattle.rs_machine.specs.States.{state};
ghost use Rattle.rs_machine.specs.Steps.{MachineDoes, StoreDoes};
ghost use Rattle.rs_mean.specs.Calls as piece;
ghost use Rattle.rs_mean.specs.Lookups.{symbol_of};
ghost use Rattle.mem_bytes.specs.Counted.{Limit};
ghost use Rattle.rs_mean.specs.World.{grants, or_fails, pure, seq};
ghost use Rattle.rs_text.specs.Names.{bare_name};
ghost use Rattle.rs_tree.specs.Views.{outer_view, ty_view};
ghost use Rattle.rs_value.specs.Views.{seen_as, typed_view};

use crate::events::event;
use crate::halt::{Halt, halt_of};
use crate::library::{Done, Library, copied, effect_of, library_named, natural};
use crate::machine::Machine;
use crate::outside::{grant, tell};
use cr_base::Int;
use ext_calls::Host;
use mem_bytes::{Store, Value};
use rs_mean::Cause;
use rs_tree::{Outer, RTy};
use rs_value::{
    Trouble, TypedValue, ValueTy, converted_to, integer, result_ty, truth_of, value_ty,
};

fn bare_name(name: &[u8]) -> &[u8]
    ensures { result.now ≡ bare_name name.now }
{
    match name.strip_prefix("r#".as_bytes()) {
        Some(bare) => bare,
        None => name,
    }
}

// The symbol by which the linker knows an external function.
fn symbol_of(fun: &Outer) -> &[u8]
    ensures { result.now ≡ symbol_of (outer_view fun.now) }
{
    match &fun.link_name {
        Some(symbol) => symbol.bytes(),
        None => bare_name(fun.name.bytes()),
    }
}

// ---- functions of the library

fn given<'t>(ty: Option<&'t RTy>, value: Value) -> Option<TypedValue<'t>>
    ensures { option_map typed_view result ≡ given (option_map ty_view (option_copied ty.entry)) value }
{
    match ty {
        Some(ty) => Some(TypedValue {
            ty: value_ty(ty),
            value,
        }),
        None => None,
    }
}

/// The program ends with a status; no well typed crate has one that isn't an `i32`.
pub fn ended<'t>(status: &Int) -> Halt<'t>
    ensures { EndsBy (stopped_by result) status.now }
{
    let status = *status;
    if status < -0x8000_0000 {
        return Halt::Memory;
    }
    if 0x7fff_ffff < status {
        return Halt::Memory;
    }
    Halt::Ended(status as i32)
}

// A call of a function of the library whose meaning is known.
fn library_call<'t, S: Store>(
    machine: &mut Machine,
    store: &mut S,
    which: Library,
    ty: Option<&'t RTy>,
    list: &[TypedValue<'t>],
) -> Result<Option<TypedValue<'t>>, Halt<'t>>
    ensures { MachineDoes (piece.known_call (library_view which) (option_map ty_view (option_copied ty.entry)) (map typed_view list.now)) (end_of (option_map typed_view) result)
        machine.old machine.new (S.memory store.old) (S.memory store.new) (S.limit store.old) (S.limit store.new) }
{
    let done = match effect_of(machine, store, which, list) {
        Ok(done) => done,
        Err(trouble) => return Err(halt_of(trouble)),
    };
    match done {
        Done::Gives(value) => Ok(given(ty, value)),
        Done::Nothing => Ok(None),
        Done::Ends(status) => Err(ended(&status)),
        Done::Wants { is_zero, size } => granted(machine, store, ty, is_zero, size),
    }
}

fn granted<'t, S: Store>(
    machine: &mut Machine,
    store: &mut S,
    ty: Option<&'t RTy>,
    is_zero: bool,
    size: u64,
) -> Result<Option<TypedValue<'t>>, Halt<'t>>
    ensures { MachineDoes (seq (grants is_zero size) (λ value. pure (given (option_map ty_view (option_copied ty.entry)) value))) (end_of (option_map typed_view) result)
        machine.old machine.new (S.memory store.old) (S.memory store.new) (S.limit store.old) (S.limit store.new) }
{
    match grant(machine, store, is_zero, size) {
        Ok(value) => Ok(given(ty, value)),
        Err(halt) => Err(halt),
    }
}

// ---- other external functions

// What an answer gives: it is converted to the result type, and dropped where there is none.
fn answer_as<'t>(ty: Option<&'t RTy>, answer: &Int) -> Result<Option<TypedValue<'t>>, Halt<'t>>
    ensures { Stays (piece.answer_as (option_map ty_view (option_copied ty.entry)) answer.now) (end_of (option_map typed_view) result) }
{
    match answer_value(ty, answer) {
        Ok(value) => Ok(value),
        Err(why) => Err(Halt::Wrong(why)),
    }
}

fn answer_value<'t>(ty: Option<&'t RTy>, answer: &Int) -> Result<Option<TypedValue<'t>>, Cause>
    ensures { piece.answer_as (option_map ty_view (option_copied ty.entry)) answer.now ≡ or_fails (seen_as (option_map typed_view) result) }
{
    let Some(ty) = ty else {
        return Ok(None);
    };
    match ty {
        RTy::Integer(ty) => Ok(Some(integer(*ty, converted_to(*ty, *answer)))),
        RTy::Boolean => Ok(Some(TypedValue {
            ty: ValueTy::Boolean,
            value: Value::Whole(truth_of(*answer)),
        })),
        RTy::Void => Err(Cause::WrongCall),
        RTy::Pointer(_) => Err(Cause::WrongCall),
        RTy::Array(_, _) => Err(Cause::WrongCall),
        RTy::Code(_, _) => Err(Cause::WrongCall),
        RTy::Record(_) => Err(Cause::WrongCall),
    }
}

// A call of another function: one event, with texts as they stand now, and one answer.
fn opaque_call<'t, S: Store, H: Host>(
    machine: &mut Machine,
    store: &S,
    host: &mut H,
    fun: &'t Outer,
    list: &[TypedValue<'t>],
) -> Result<Option<TypedValue<'t>>, Halt<'t>>
    ensures { (limit : Option Limit) → Does (piece.opaque_call (outer_view fun.now) (map typed_view list.now)) (end_of (option_map typed_view) result)
        (state machine.old (S.memory store.now) limit (H.state host.old)) (state machine.new (S.memory store.now) limit (H.state host.new)) }
{
    let call = match event(machine.alloc(), store, symbol_of(fun), list) {
        Ok(call) => call,
        Err(trouble) => return Err(halt_of(trouble)),
    };
    let answer = match tell(machine, host, &call, symbol_of(fun)) {
        Ok(answer) => answer,
        Err(halt) => return Err(halt),
    };
    let answer = Int::from(answer);
    answer_as(result_ty(&fun.result), &answer)
}

/// A call of an external function.
pub fn outer_call<'t, S: Store, H: Host>(
    machine: &mut Machine,
    store: &mut S,
    host: &mut H,
    fun: &'t Outer,
    list: &[TypedValue<'t>],
) -> Result<Option<TypedValue<'t>>, Halt<'t>>
    ensures { Does (piece.outer_call (outer_view fun.now) (map typed_view list.now)) (end_of (option_map typed_view) result)
        (state machine.old (S.memory store.old) (S.limit store.old) (H.state host.old)) (state machine.new (S.memory store.new) (S.limit store.new) (H.state host.new)) }
{
    let Some(which) = library_named(symbol_of(fun)) else {
        return opaque_call(machine, store, host, fun, list);
    };
    library_call(machine, store, which, result_ty(&fun.result), list)
}

// ---- copies

fn copy_of<S: Store>(store: &mut S, from: Value, to: Value, count: Value) -> Result<(), Trouble>
    ensures blocks { CopiesTo result (copy_of from to count) (S.memory store.old) (S.memory store.new) }
    ensures limit { S.limit store.new ≡ S.limit store.old }
{
    let Value::Whole(count) = count else {
        return Err(Trouble::Wrong(Cause::WrongCall));
    };
    let count = match natural(count) {
        Ok(count) => count,
        Err(trouble) => return Err(trouble),
    };
    match copied(store, true, to, from, count) {
        Ok(Done::Gives(_)) => Ok(()),
        Ok(Done::Nothing) => Err(Trouble::Memory),
        Ok(Done::Ends(_)) => Err(Trouble::Memory),
        Ok(Done::Wants { .. }) => Err(Trouble::Memory),
        Err(trouble) => Err(trouble),
    }
}

/// `core::ptr::copy` of bytes, which may overlap; a copy of none asks for nothing.
pub fn copy_bytes<'t, S: Store>(
    store: &mut S,
    from: TypedValue<'t>,
    to: TypedValue<'t>,
    count: TypedValue<'t>,
) -> Result<(), Halt<'t>>
    ensures { StoreDoes (piece.copies (typed_view from.entry) (typed_view to.entry) (typed_view count.entry)) (end_of (λ _. tt) result)
        (S.memory store.old) (S.memory store.new) (S.limit store.old) (S.limit store.new) }
{
    match copy_of(store, from.value, to.value, count.value) {
        Ok(()) => Ok(()),
        Err(trouble) => Err(halt_of(trouble)),
    }
}

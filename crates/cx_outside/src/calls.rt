//! Calls of functions that no unit defines (ISO C99, 6.5.2.2 and 7.20).

ghost use Rattle.std.specs.Prelude.{◌≡◌, Option, IfOk, IfSome};
ghost use Rattle.cx_access.specs.Views.{view_setting};
ghost use Rattle.cx_core.specs.Views.{view_outer};
ghost use Rattle.cx_mean.specs.Calls as meaning;
ghost use Rattle.cx_outside.specs.Called.{Calls, Ends, Granted, IsHalt, library_piece};
ghost use Rattle.cx_outside.specs.Effects.{library_view};
ghost use Rattle.cx_outside.specs.States.{around};
ghost use Rattle.cx_outside.specs.Wanting.{CallWants};
ghost use Rattle.cx_work.specs.Views.{view_called, view_finished};
ghost use Rattle.ext_calls.specs.Host.{HostState};
ghost use Rattle.mem_bytes.specs.Coding.{IsScalar};
ghost use Rattle.mem_bytes.specs.Counted.{Limit};

use crate::kept::Kept;
use crate::library::{Done, Library, effect_of, library_named};
use crate::outside::{Lack, grant, tell};
use crate::texts::{arguments, values_of};
use cr_base::{Int, Items, Memory, Name, Place, Scalar, URule, convert};
use cx_access::{Setting, Trouble, scalar_of};
use cx_core::Outer;
use cx_work::{Called, Finished, OperandTy};
use ext_calls::{Arg, Call, Host};
use mem_bytes::{Store, Value};
use std::alloc::Global;

/// How a call ends.
#[derive(Drop)]
pub enum Returned {
    /// It gives a value, or none.
    Gives(Finished),
    /// The program ends with this status.
    Ends(i32),
}

/// Why a run goes no further.
#[derive(Clone, Copy)]
pub enum Halt<'a> {
    /// Its step is undefined, by this rule and at this place.
    Undefined(URule, Place),
    Lacks(Lack<'a>),
}

fn halt_of<'a>(trouble: Trouble, place: Place) -> Halt<'a>
    ensures { IsHalt trouble place result }
{
    match trouble {
        Trouble::Undefined(rule) => Halt::Undefined(rule, place),
        Trouble::Memory => Halt::Lacks(Lack::Memory),
    }
}

// The program ends with a status; no typed program has one that isn't an `int`.
fn ends<'a>(status: &Int) -> Result<Returned, Halt<'a>>
    ensures { Ends result status.now }
{
    let status = *status;
    if status < -0x8000_0000 {
        return Err(Halt::Lacks(Lack::Memory));
    }
    if 0x7fff_ffff < status {
        return Err(Halt::Lacks(Lack::Memory));
    }
    Ok(Returned::Ends(status as i32))
}

fn given<'a>(value: Result<Value, Lack<'a>>) -> Result<Returned, Halt<'a>>
    ensures { Granted value.entry result }
{
    match value {
        Ok(value) => Ok(Returned::Gives(Finished::Scalar(value))),
        Err(lack) => Err(Halt::Lacks(lack)),
    }
}

// A call of a function of the library with these arguments.
fn library_call<'a, S: Store>(
    kept: &mut Kept,
    store: &mut S,
    which: Library,
    place: Place,
    values: &[Value],
) -> Result<Returned, Halt<'a>>
    ensures calls { (host : HostState) → Calls (library_piece (library_view which).does place values.now) result
        (around kept.old (S.memory store.old) (S.limit store.old) host) (around kept.new (S.memory store.new) (S.limit store.new) host) }
    ensures limit { S.limit store.new ≡ S.limit store.old }
{
    let done = match effect_of(kept, store, which, values) {
        Ok(done) => done,
        Err(trouble) => return Err(halt_of(trouble, place)),
    };
    match done {
        Done::Gives(value) => Ok(Returned::Gives(Finished::Scalar(value))),
        Done::Nothing => Ok(Returned::Gives(Finished::Missing)),
        Done::Ends(status) => ends(&status),
        Done::Wants { is_zero, size } => given(grant(kept, store, is_zero, size)),
    }
}

// A call of a function of the library whose meaning is known.
fn known_call<'a, S: Store>(
    kept: &mut Kept,
    store: &mut S,
    which: Library,
    called: &Called<'_>,
) -> Result<Returned, Halt<'a>>
    ensures calls { (host : HostState) → Calls (meaning.known_call (view_called called.now) (library_view which).does) result
        (around kept.old (S.memory store.old) (S.limit store.old) host) (around kept.new (S.memory store.new) (S.limit store.new) host) }
    ensures limit { S.limit store.new ≡ S.limit store.old }
{
    let values = match values_of(kept.alloc(), called.args.as_slice()) {
        Ok(values) => values,
        Err(trouble) => return Err(halt_of(trouble, called.place)),
    };
    library_call(kept, store, which, called.place, values.as_slice())
}

fn call_of(alloc: Global, name: &[u8], args: Items<Arg>) -> Result<Call, Memory>
    ensures { IfOk result (λ call. call ≡ record { name = name.now; args = args }) }
{
    match Vec::from_slice(alloc, name) {
        Ok(bytes) => Ok(Call {
            name: Name::of(bytes),
            args,
        }),
        Err(_) => Err(Memory),
    }
}

// What an answer gives: it is converted to the result type, and dropped where that is `void`.
fn answer_as(kind: Option<Scalar>, answer: &Int) -> Finished
    requires { IfSome kind IsScalar }
    ensures { view_finished result ≡ meaning.answer_as kind answer.now }
{
    let answer = *answer;
    match kind {
        Some(Scalar::Truth) => Finished::Scalar(Value::Whole(convert(Scalar::Truth, answer))),
        Some(Scalar::Whole { width, signed }) => {
            Finished::Scalar(Value::Whole(convert(Scalar::Whole { width, signed }, answer)))
        }
        Some(Scalar::Object) => Finished::Scalar(Value::Whole(answer)),
        Some(Scalar::Code) => Finished::Scalar(Value::Whole(answer)),
        None => Finished::Missing,
    }
}

// A call of another function: the texts among its arguments are read now.
fn opaque_call<'a, S: Store, H: Host>(
    kept: &mut Kept,
    store: &S,
    host: &mut H,
    setting: &Setting<'_>,
    called: &Called<'_>,
    outer: &'a Outer,
) -> Result<Returned, Halt<'a>>
    ensures calls { (limit : Option Limit) → Calls (meaning.opaque_call (view_setting setting.now) (view_called called.now) (view_outer outer.now)) result
        (around kept.old (S.memory store.now) limit (H.state host.old)) (around kept.new (S.memory store.now) limit (H.state host.new)) }
    ensures wants { (limit : Option Limit) → CallWants (meaning.opaque_call (view_setting setting.now) (view_called called.now) (view_outer outer.now)) result
        (around kept.old (S.memory store.now) limit (H.state host.old)) (around kept.new (S.memory store.now) limit (H.state host.new)) }
{
    let args = match arguments(kept.alloc(), setting, store, called.args.as_slice()) {
        Ok(args) => args,
        Err(trouble) => return Err(halt_of(trouble, called.place)),
    };
    let call = match call_of(kept.alloc(), outer.name.bytes(), args) {
        Ok(call) => call,
        Err(_) => return Err(Halt::Lacks(Lack::Memory)),
    };
    let answer = match tell(kept, host, &call, outer.name.bytes()) {
        Ok(answer) => answer,
        Err(lack) => return Err(Halt::Lacks(lack)),
    };
    let answer = Int::from(answer);
    Ok(Returned::Gives(answer_as(scalar_of(setting, OperandTy::Of(called.ty)), &answer)))
}

/// A call of a function that no unit defines.
pub fn external_call<'a, S: Store, H: Host>(
    kept: &mut Kept,
    store: &mut S,
    host: &mut H,
    setting: &Setting<'_>,
    called: &Called<'_>,
    outer: &'a Outer,
) -> Result<Returned, Halt<'a>>
    ensures calls { Calls (meaning.external_call (view_setting setting.now) (view_called called.now) (view_outer outer.now)) result
        (around kept.old (S.memory store.old) (S.limit store.old) (H.state host.old)) (around kept.new (S.memory store.new) (S.limit store.new) (H.state host.new)) }
    ensures wants { CallWants (meaning.external_call (view_setting setting.now) (view_called called.now) (view_outer outer.now)) result
        (around kept.old (S.memory store.old) (S.limit store.old) (H.state host.old)) (around kept.new (S.memory store.new) (S.limit store.new) (H.state host.new)) }
    ensures limit { S.limit store.new ≡ S.limit store.old }
{
    match library_named(outer.name.bytes()) {
        Some(which) => known_call(kept, store, which, called),
        None => opaque_call(kept, store, host, setting, called, outer),
    }
}

//! Returns of functions (ISO C99, 6.8.6.4), and the end of the program (5.1.2.2.3).

ghost use Rattle.std.specs.Prelude.{◌≡◌, IfOk};
ghost use Rattle.cx_mean.specs.State as meaning;
ghost use Rattle.cx_moves.specs.Sites.{view_site};
ghost use Rattle.cx_machine.specs.Machines.{view_machine};
ghost use Rattle.cx_machine.specs.Returns.{EndsBy, IsEnd, Resumes};
ghost use Rattle.cx_machine.specs.Steps.{StoreAdvances};
ghost use Rattle.cx_work.specs.Views.{view_finished};

use crate::machine::{Caller, Machine};
use crate::steps::{end_site, goes_on, takes_up};
use crate::stop::Stop;
use cr_base::{Int, Memory, Place, URule};
use cx_outside::Lack;
use cx_work::Finished;
use mem_bytes::{Store, Value};
use std::alloc::Global;

// A value that a function gives back isn't read from an object any more.
fn given_back(value: Finished) -> Finished
    ensures { view_finished result ≡ meaning.given_back (view_finished value) }
{
    match value {
        Finished::Cells(held, _) => Finished::Cells(held, None),
        Finished::Scalar(value) => Finished::Scalar(value),
        Finished::Names(number) => Finished::Names(number),
        Finished::Designates(to) => Finished::Designates(to),
        Finished::Bits(at, bit, width) => Finished::Bits(at, bit, width),
        Finished::Missing => Finished::Missing,
    }
}

// The program ends with a status; no typed program has one that isn't an `int`.
fn ended<'a>(status: &Int) -> Stop<'a>
    ensures { IsEnd result status.now }
{
    let status = *status;
    if status < -0x8000_0000 {
        return Stop::Lacks(Lack::Memory);
    }
    if 0x7fff_ffff < status {
        return Stop::Lacks(Lack::Memory);
    }
    Stop::Ended(status as i32)
}

// The place of what has none of its own in the program's text.
const NO_PLACE: Place = Place { unit: 0, line: 0 };

fn ended_by<'a>(value: &Finished) -> Stop<'a>
    ensures { EndsBy result (meaning.status_in (view_finished value.now)) }
{
    match value {
        Finished::Scalar(Value::Whole(status)) => ended(status),
        Finished::Missing => Stop::Undefined(URule::U14, NO_PLACE),
        _ => Stop::Lacks(Lack::Memory),
    }
}

// The function that called goes on with what it was given.
fn goes_back<'a, S: Store>(
    alloc: Global,
    machine: &mut Machine<'a>,
    store: &mut S,
    caller: Caller<'a>,
    value: Finished,
) -> Result<(), Memory>
    ensures back { IfOk result (λ _. Resumes machine.old machine.new caller.entry (view_finished value) (S.memory store.old) (S.memory store.new)) }
    ensures limit { S.limit store.new ≡ S.limit store.old }
{
    match takes_up(alloc, machine, caller, value) {
        Ok(purpose) => goes_on(alloc, machine, store, purpose),
        Err(memory) => Err(memory),
    }
}

/// A function returns with a value: its objects die, and the function that called goes on, or the program ends.
///
/// # Errors
///
/// `Ended` where no function waits, or `Undefined` by U14 where `main` gives no value then.
pub fn returns<'a, S: Store>(
    alloc: Global,
    machine: &mut Machine<'a>,
    store: &mut S,
    value: Finished,
) -> Result<(), Stop<'a>>
    ensures steps { StoreAdvances (λ world. meaning.returning (view_machine machine.old world) (view_finished value) (view_site machine.old.site)) result (view_machine machine.new)
        (S.memory store.old) (S.memory store.new) (S.limit store.old) (S.limit store.new) }
    ensures limit { S.limit store.new ≡ S.limit store.old }
{
    end_site(&mut machine.site, store);
    let value = given_back(value);
    match machine.callers.pop() {
        None => Err(ended_by(&value)),
        Some(caller) => match goes_back(alloc, machine, store, caller, value) {
            Ok(()) => Ok(()),
            Err(_) => Err(Stop::Lacks(Lack::Memory)),
        },
    }
}

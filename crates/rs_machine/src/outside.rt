//! What the outside gives to a run: answers of calls, and blocks of allocations.

ghost use Rattle.std.specs.Prelude.{◌≡◌, Option};
ghost use Rattle.mem_bytes.specs.Counted.{Limit};
ghost use Rattle.mem_bytes.specs.Memory.{Blocks};
ghost use Rattle.rs_machine.specs.Does.{Does, end_of};
ghost use Rattle.rs_machine.specs.States.{state};
ghost use Rattle.rs_machine.specs.Steps.{MachineDoes};
ghost use Rattle.rs_mean.specs.World.{tells, grants};

use crate::halt::Halt;
use crate::machine::Machine;
use crate::steps::new_block;
use ext_calls::{Call, Host, HostFault};
use mem_bytes::{Ptr, Store, StoreFault, Value};

/// The answer to a call of the function with this symbol, whose effect isn't known.
pub(crate) fn tell<'t, H: Host>(
    machine: &mut Machine,
    host: &mut H,
    call: &Call,
    name: &'t [u8],
) -> Result<i64, Halt<'t>>
    requires { call.now.name ≡ name.now }
    ensures { (blocks : Blocks) (limit : Option Limit) → Does (tells call.now) (end_of (λ answer. answer) result)
        (state machine.old blocks limit (H.state host.old)) (state machine.new blocks limit (H.state host.new)) }
{
    let answer = match host.answer(call) {
        Ok(answer) => answer,
        Err(HostFault::Failed) => return Err(Halt::Failed),
        Err(HostFault::Refused) => return Err(Halt::Refused(name)),
        Err(HostFault::Memory) => return Err(Halt::Memory),
    };
    match machine.note(answer) {
        Ok(()) => Ok(answer),
        Err(_) => Err(Halt::Memory),
    }
}

// The alignment of a block that `malloc` or `calloc` gives.
const HEAP_ALIGN: u64 = 16;

/// What an allocation of so many bytes gives: null, or a pointer to a new block.
pub(crate) fn grant<'t, S: Store>(
    machine: &mut Machine,
    store: &mut S,
    is_zero: bool,
    size: u64,
) -> Result<Value, Halt<'t>>
    ensures { MachineDoes (grants is_zero size) (end_of (λ value. value) result) machine.old machine.new
        (S.memory store.old) (S.memory store.new) (S.limit store.old) (S.limit store.new) }
{
    let block = match new_block(store, is_zero, size, HEAP_ALIGN) {
        Ok(block) => block,
        Err(StoreFault::Full { .. }) => {
            return match machine.note(0) {
                Ok(()) => Ok(Value::Null),
                Err(_) => Err(Halt::Memory),
            };
        }
        Err(StoreFault::Memory) => return Err(Halt::Memory),
    };
    match machine.granted(block) {
        Ok(()) => Ok(Value::Object(Ptr { block, offset: 0 })),
        Err(_) => Err(Halt::Memory),
    }
}

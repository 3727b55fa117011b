//! Loads (ISO C99, 6.3.2.1p2).

ghost use Rattle.std.specs.Prelude.{◌≡◌, true, IfOk};
ghost use Rattle.cx_access.specs.Finds.{Finds};
ghost use Rattle.cx_mean.specs.Accesses.{loaded_bits, loaded_scalar};
ghost use Rattle.cx_mean.specs.Operands.{scalar};
ghost use Rattle.mem_bytes.specs.Coding.{IsScalar};

use crate::places::part_fault;
use crate::ranges::{bits_of_bytes, bits_of_field, is_unsequenced};
use crate::trouble::{Trouble, rule_of};
use crate::values::{field_value, is_field_place};
use cr_base::{Scalar, URule};
use cx_work::Marks;
use mem_bytes::{Ptr, Store, Value, bytes_touched, scalar_size};

#[tactic(auto, using(crate::proofs::Parts::by_fault))]
pub(crate) fn loaded_scalar<S: Store>(
    store: &S,
    at: Ptr,
    marks: &mut Marks,
    kind: Scalar,
) -> Result<Value, Trouble>
    requires { IsScalar kind }
    ensures { Finds (λ value. record { value = scalar value; marks = marks.new }) result (loaded_scalar (S.memory store.now) at marks.old kind) }
{
    let size = scalar_size(kind) as u64;
    if let Some(fault) = part_fault(store, at, size) {
        return Err(Trouble::Undefined(rule_of(fault)));
    }
    let Some(range) = bits_of_bytes(at, size) else {
        return Err(Trouble::Memory);
    };
    if is_unsequenced(marks, range) {
        return Err(Trouble::Undefined(URule::U1));
    }
    let value = match store.load(at, kind) {
        Ok(value) => value,
        Err(fault) => return Err(Trouble::Undefined(rule_of(fault))),
    };
    match marks.read(range) {
        Ok(()) => Ok(value),
        Err(_) => Err(Trouble::Memory),
    }
}

#[tactic(auto, using(crate::proofs::Parts::by_fault))]
pub(crate) fn loaded_bits<S: Store>(
    store: &S,
    at: Ptr,
    bit: u32,
    width: u32,
    marks: &mut Marks,
    kind: Scalar,
) -> Result<Value, Trouble>
    ensures { Finds (λ value. record { value = scalar value; marks = marks.new }) result (loaded_bits (S.memory store.now) at bit width marks.old kind) }
{
    if !is_field_place(bit, width) {
        return Err(Trouble::Memory);
    }
    if let Some(fault) = part_fault(store, at, bytes_touched(bit, width)) {
        return Err(Trouble::Undefined(rule_of(fault)));
    }
    let Some(range) = bits_of_field(at, bit, width) else {
        return Err(Trouble::Memory);
    };
    if is_unsequenced(marks, range) {
        return Err(Trouble::Undefined(URule::U1));
    }
    let bits = match store.load_bits(at, bit, width) {
        Ok(bits) => bits,
        Err(fault) => return Err(Trouble::Undefined(rule_of(fault))),
    };
    let value = match field_value(kind, width, bits) {
        Ok(value) => value,
        Err(trouble) => return Err(trouble),
    };
    match marks.read(range) {
        Ok(()) => Ok(value),
        Err(_) => Err(Trouble::Memory),
    }
}

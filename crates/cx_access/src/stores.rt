//! Stores of scalars and bit-fields (ISO C99, 6.5.16.1p2, 6.7.2.1p9).

ghost use Rattle.std.specs.Prelude.{◌≡◌, ◌<◌, ◌≤◌, ◌^◌};
ghost use Rattle.cr_base.specs.Scalar.{residue};
ghost use Rattle.cx_access.specs.Finds.{Finds};
ghost use Rattle.cx_mean.specs.Accesses.{stored_bits, stored_scalar};
ghost use Rattle.cx_mean.specs.Operands.{scalar};
ghost use Rattle.cx_work.specs.Views.{view_finished};
ghost use Rattle.cx_access.specs.Fields.{field_stored};
ghost use Rattle.mem_bytes.specs.Calls.{IsFieldPlace};
ghost use Rattle.mem_bytes.specs.Coding.{IsScalar};

use crate::places::part_fault;
use crate::ranges::{bits_of_bytes, bits_of_field, is_unsequenced};
use crate::trouble::{Trouble, rule_of};
use crate::values::{field_value, is_field_place, number_in, value_of_kind};
use cr_base::{Int, Scalar, URule};
use cx_work::{Finished, Marks};
use mem_bytes::{Ptr, Store, Value, bytes_touched, scalar_size};

#[tactic(auto, using(crate::proofs::Parts::by_fault))]
pub(crate) fn stored_scalar<S: Store>(
    store: &mut S,
    at: Ptr,
    marks: &mut Marks,
    new: &Finished,
    kind: Scalar,
) -> Result<Value, Trouble>
    requires { IsScalar kind }
    ensures stored { Finds (λ value. record { value = scalar value; marks = marks.new; blocks = S.memory store.new }) result
        (stored_scalar (S.memory store.old) at marks.old (view_finished new.now) kind) }
    ensures limit { S.limit store.new ≡ S.limit store.old }
{
    let value = match value_of_kind(kind, new) {
        Ok(value) => value,
        Err(trouble) => return Err(trouble),
    };
    let size = scalar_size(kind) as u64;
    if let Some(fault) = part_fault(store, at, size) {
        return Err(Trouble::Undefined(rule_of(fault)));
    }
    let Some(range) = bits_of_bytes(at, size) else {
        return Err(Trouble::Memory);
    };
    if is_unsequenced(marks, range) {
        return Err(Trouble::Undefined(URule::U1));
    }
    if let Err(fault) = store.put(at, kind, value) {
        return Err(Trouble::Undefined(rule_of(fault)));
    }
    match marks.write(range) {
        Ok(()) => Ok(value),
        Err(_) => Err(Trouble::Memory),
    }
}

// As many low bits of a number as a bit-field has.
fn low_bits(number: Int, width: u32) -> u64
    requires least { 1 ≤ width }
    requires most { width ≤ 32 }
    ensures value { result ≡ residue number (2 ^ width) }
    ensures fits { result < 2 ^ width }
{
    number.rem_euclid(1i128 << width) as u64
}

#[tactic(auto, using(crate::proofs::Parts::by_fault))]
pub(crate) fn stored_bits<S: Store>(
    store: &mut S,
    at: Ptr,
    bit: u32,
    width: u32,
    marks: &mut Marks,
    number: Int,
    kind: Scalar,
) -> Result<Value, Trouble>
    requires { IsFieldPlace bit width }
    ensures stored { Finds (λ value. record { value = scalar value; marks = marks.new; blocks = S.memory store.new }) result
        (field_stored (S.memory store.old) at bit width marks.old kind number) }
    ensures limit { S.limit store.new ≡ S.limit store.old }
{
    if let Some(fault) = part_fault(store, at, bytes_touched(bit, width)) {
        return Err(Trouble::Undefined(rule_of(fault)));
    }
    let Some(range) = bits_of_field(at, bit, width) else {
        return Err(Trouble::Memory);
    };
    if is_unsequenced(marks, range) {
        return Err(Trouble::Undefined(URule::U1));
    }
    let bits = low_bits(number, width);
    if let Err(fault) = store.put_bits(at, bit, width, bits) {
        return Err(Trouble::Undefined(rule_of(fault)));
    }
    let value = match field_value(kind, width, bits) {
        Ok(value) => value,
        Err(trouble) => return Err(trouble),
    };
    match marks.write(range) {
        Ok(()) => Ok(value),
        Err(_) => Err(Trouble::Memory),
    }
}

/// The same of the number that an operand gives.
pub(crate) fn stored_field<S: Store>(
    store: &mut S,
    at: Ptr,
    bit: u32,
    width: u32,
    marks: &mut Marks,
    new: &Finished,
    kind: Scalar,
) -> Result<Value, Trouble>
    requires { IsScalar kind }
    ensures stored { Finds (λ value. record { value = scalar value; marks = marks.new; blocks = S.memory store.new }) result
        (stored_bits (S.memory store.old) at bit width marks.old (view_finished new.now) kind) }
    ensures limit { S.limit store.new ≡ S.limit store.old }
{
    if !is_field_place(bit, width) {
        return Err(Trouble::Memory);
    }
    let value = match value_of_kind(kind, new) {
        Ok(value) => value,
        Err(trouble) => return Err(trouble),
    };
    match number_in(value) {
        Ok(number) => stored_bits(store, at, bit, width, marks, number, kind),
        Err(trouble) => Err(trouble),
    }
}

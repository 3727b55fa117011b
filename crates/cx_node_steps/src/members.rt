//! Members of structures and unions, and addresses (ISO C99, 6.5.2.3, 6.5.3.2).

ghost use Rattle.std.specs.Prelude.{◌≡◌, ◌<◌, length, option_map, Ok, IfOk, IfErr, IfSome};
ghost use Rattle.cx_access.specs.Calls.{IsKind};
ghost use Rattle.cx_access.specs.Finds.{Finds, fault_in};
ghost use Rattle.cx_access.specs.Views.{view_kind, view_setting};
ghost use Rattle.cx_core.specs.Views.{view_type};
ghost use Rattle.cx_mean.specs.Accesses.{of_record};
ghost use Rattle.cx_mean.specs.Initialisers.{part_with};
ghost use Rattle.cx_mean.specs.Nodes.{aligned_place, deref_value, member_at, member_bits, member_of_kind, member_of_place, member_value, member_with, moved_by, value_part};
ghost use Rattle.cx_mean.specs.Operands.{designates, place_in, scalar};
ghost use Rattle.cx_work.specs.Views.{view_finished};
ghost use Rattle.cx_node_steps.specs.Parts.{scalar_part};
ghost use Rattle.mem_bytes.specs.Coding.{IsScalar};

use cr_base::{Int, Items, Laid, Scalar, Spot, URule};
use cx_access::{
    Kind, Setting, Trouble, extent_of, field_value, is_field_place, kind_of, place_of, rule_of,
    scalar_of, scalar_value,
};
use cx_core::Ty;
use cx_operations::pointer_trouble;
use cx_work::{Finished, Objects, OperandTy};
use mem_bytes::{
    Cell, Fault, Ptr, Store, Value, bytes_touched, decode, field_in, place_moved, scalar_size,
};
use std::alloc::Global;

/// What a pointer points to; by itself that is never wrong.
pub(crate) fn deref_value(value: &Finished) -> Result<Value, Trouble>
    ensures { Finds designates result (deref_value (view_finished value.now)) }
{
    match scalar_value(value) {
        Ok(Value::Object(at)) => Ok(Value::Object(at)),
        Ok(Value::Null) => Ok(Value::Null),
        Ok(Value::Whole(_)) => Err(Trouble::Memory),
        Ok(Value::Code(_)) => Err(Trouble::Memory),
        Err(trouble) => Err(trouble),
    }
}

// The place of a part of an object: a bit-field has a width.
fn part_with(at: Ptr, bit: u32, width: u32) -> Finished
    ensures { view_finished result ≡ part_with at bit width }
{
    if width == 0 {
        return Finished::Designates(Value::Object(at));
    }
    Finished::Bits(at, bit, width)
}

// What is wrong with a place for a structure or union of an alignment, if something is (6.3.2.3p7).
fn place_fault<S: Store>(store: &S, align: u64, at: Ptr) -> Option<Fault>
    requires { 0 < align }
    ensures { result ≡ fault_in (aligned_place (S.memory store.now) align at) }
{
    let Some(state) = store.state(at.block) else {
        return Some(Fault::Dead);
    };
    if !state.live {
        return Some(Fault::Dead);
    }
    if at.offset % align != 0 {
        return Some(Fault::Misaligned);
    }
    if state.align < align {
        return Some(Fault::Misaligned);
    }
    None
}

// A member of the structure or union of an alignment at a place: the object lives, the member begins in it or at its
// end, and the structure or union may stand there.
fn member_at<S: Store>(store: &S, spot: Spot, align: u64, at: Ptr) -> Result<Finished, Trouble>
    ensures { Finds view_finished result (member_at (S.memory store.now) spot align at) }
{
    let new = match place_moved(store, at, Int::from(spot.byte)) {
        Ok(new) => new,
        Err(fault) => return Err(pointer_trouble(URule::U11, fault)),
    };
    if align == 0 {
        return Err(Trouble::Memory);
    }
    match place_fault(store, align, at) {
        None => Ok(part_with(new, spot.bit, spot.width)),
        Some(fault) => Err(Trouble::Undefined(rule_of(fault))),
    }
}

// So many cells of a value.
fn value_part(held: &[Cell], offset: u64, count: u64) -> Option<&[Cell]>
    ensures part { IfSome result (λ part. value_part held.now offset count ≡ Ok part.now) }
    ensures length { IfSome result (λ part. length part.now ≡ count) }
{
    match offset.checked_add(count) {
        Some(end) if end <= held.len() as u64 => Some(&held[offset as usize..end as usize]),
        _ => None,
    }
}

#[tactic(auto, using(crate::proofs::Sliced::whole_part))]
fn scalar_member(byte: u64, held: &[Cell], kind: Scalar) -> Result<Value, Trouble>
    requires { IsScalar kind }
    ensures { Finds (λ one. one) result (scalar_part byte held.now kind) }
{
    let Some(part) = value_part(held, byte, scalar_size(kind) as u64) else {
        return Err(Trouble::Memory);
    };
    match decode(kind, part) {
        Ok(value) => Ok(value),
        Err(fault) => Err(Trouble::Undefined(rule_of(fault))),
    }
}

fn moved_by(bytes: u64, from: Option<Ptr>) -> Result<Option<Ptr>, Trouble>
    ensures ok { IfOk result (λ place. place ≡ option_map (moved_by bytes) from) }
    ensures err { IfErr result (λ trouble. trouble ≡ Trouble.Memory) }
{
    let Some(at) = from else {
        return Ok(None);
    };
    match at.offset.checked_add(bytes) {
        Some(offset) => Ok(Some(Ptr {
            block: at.block,
            offset,
        })),
        None => Err(Trouble::Memory),
    }
}

fn record_member(
    alloc: Global,
    byte: u64,
    held: &[Cell],
    from: Option<Ptr>,
    laid: Laid,
) -> Result<Finished, Trouble>
    ensures { Finds view_finished result (member_of_kind byte held.now from (of_record laid)) }
{
    let Some(part) = value_part(held, byte, laid.size) else {
        return Err(Trouble::Memory);
    };
    let from = match moved_by(byte, from) {
        Ok(from) => from,
        Err(_) => return Err(Trouble::Memory),
    };
    match Items::from_slice(alloc, part) {
        Ok(cells) => Ok(Finished::Cells(cells, from)),
        Err(_) => Err(Trouble::Memory),
    }
}

fn member_of_kind(
    alloc: Global,
    byte: u64,
    held: &[Cell],
    from: Option<Ptr>,
    kind: Kind,
) -> Result<Finished, Trouble>
    requires { IsKind kind }
    ensures { Finds view_finished result (member_of_kind byte held.now from (view_kind kind)) }
{
    match kind {
        Kind::Scalar(kind) => match scalar_member(byte, held, kind) {
            Ok(value) => Ok(Finished::Scalar(value)),
            Err(trouble) => Err(trouble),
        },
        Kind::Record(laid) => record_member(alloc, byte, held, from, laid),
    }
}

fn member_bits(spot: Spot, held: &[Cell], kind: Scalar) -> Result<Value, Trouble>
    ensures { Finds scalar result (member_bits spot spot.width held.now kind) }
{
    if !is_field_place(spot.bit, spot.width) {
        return Err(Trouble::Memory);
    }
    let Some(part) = value_part(held, spot.byte, bytes_touched(spot.bit, spot.width)) else {
        return Err(Trouble::Memory);
    };
    if part.len() > 8 {
        return Err(Trouble::Memory);
    }
    match field_in(spot.bit, spot.width, part) {
        Ok(bits) => field_value(kind, spot.width, bits),
        Err(fault) => Err(Trouble::Undefined(rule_of(fault))),
    }
}

// A member of a value.
fn member_with(
    alloc: Global,
    setting: &Setting<'_>,
    ty: &Ty,
    spot: Spot,
    held: &[Cell],
    from: Option<Ptr>,
) -> Result<Finished, Trouble>
    ensures { Finds view_finished result (member_with (view_setting setting.now) (view_type ty.now) spot spot.width held.now from) }
{
    if spot.width == 0 {
        return match kind_of(setting, OperandTy::Of(ty)) {
            Ok(kind) => member_of_kind(alloc, spot.byte, held, from, kind),
            Err(trouble) => Err(trouble),
        };
    }
    let Some(kind) = scalar_of(setting, OperandTy::Of(ty)) else {
        return Err(Trouble::Memory);
    };
    match member_bits(spot, held, kind) {
        Ok(value) => Ok(Finished::Scalar(value)),
        Err(trouble) => Err(trouble),
    }
}

fn member_of_place<S: Store, O: Objects>(
    store: &S,
    objects: &O,
    spot: Spot,
    laid: Option<Laid>,
    place: &Finished,
) -> Result<Finished, Trouble>
    ensures { Finds view_finished result (member_of_place (S.memory store.now) spot laid (place_in (O.frame objects.now) (view_finished place.now))) }
{
    let Some(laid) = laid else {
        return Err(Trouble::Memory);
    };
    match place_of(objects, place) {
        Ok(at) => member_at(store, spot, laid.align, at),
        Err(trouble) => Err(trouble),
    }
}

/// A member of an lvalue is an lvalue, and one of a value is a value (6.5.2.3p3), in a structure or union of the type
/// `holder`.
///
/// # Errors
///
/// `Undefined` by U5, U6, U11 or U10 of an lvalue, by U7, U8, U9 or U14 of a value.
pub(crate) fn member_value<S: Store, O: Objects>(
    alloc: Global,
    store: &S,
    objects: &O,
    setting: &Setting<'_>,
    ty: &Ty,
    holder: &Ty,
    spot: Spot,
    value: &Finished,
) -> Result<Finished, Trouble>
    ensures { Finds view_finished result
        (member_value (view_setting setting.now) (O.frame objects.now) (S.memory store.now) (view_type ty.now) (view_type holder.now) spot (view_finished value.now)) }
{
    let laid = extent_of(setting, OperandTy::Of(holder));
    match value {
        Finished::Cells(held, from) => {
            member_with(alloc, setting, ty, spot, held.as_slice(), *from)
        }
        Finished::Missing => Err(Trouble::Undefined(URule::U14)),
        Finished::Names(_) => member_of_place(store, objects, spot, laid, value),
        Finished::Designates(_) => member_of_place(store, objects, spot, laid, value),
        Finished::Scalar(_) => member_of_place(store, objects, spot, laid, value),
        Finished::Bits(_, _, _) => member_of_place(store, objects, spot, laid, value),
    }
}

//! Objects that lvalues designate (ISO C99, 6.3.2.1, 6.5.16.1).

ghost use Rattle.std.specs.Prelude.{◌≡◌, IfSome};
ghost use Rattle.cx_access.specs.Calls.{IsKind};
ghost use Rattle.cx_access.specs.Finds.{Finds};
ghost use Rattle.cx_access.specs.Views.{view_kind, view_setting};
ghost use Rattle.cx_mean.specs.Accesses.{loaded, loaded_bits, loaded_from, loaded_kind, stored, stored_bits, stored_kind, stored_record, stored_to};
ghost use Rattle.cx_mean.specs.Operands.{needed, place_in};
ghost use Rattle.cx_work.specs.Views.{view_finished, view_operand_ty};
ghost use Rattle.mem_bytes.specs.Access.{and_then};
ghost use Rattle.mem_bytes.specs.Coding.{IsScalar};

use crate::kinds::{Kind, kind_of, scalar_of};
use crate::loads::{loaded_bits, loaded_scalar};
use crate::places::place_of;
use crate::records::{loaded_record, stored_record};
use crate::setting::Setting;
use crate::stores::{stored_field, stored_scalar};
use crate::trouble::Trouble;
use cr_base::{Laid, Scalar, URule};
use cx_work::{Finished, Marks, Objects, OperandTy};
use mem_bytes::{Ptr, Store};
use std::alloc::Global;

fn loaded_kind<S: Store>(
    alloc: Global,
    store: &S,
    at: Ptr,
    marks: &mut Marks,
    kind: Kind,
) -> Result<Finished, Trouble>
    requires { IsKind kind }
    ensures { Finds (λ value. record { value = view_finished value; marks = marks.new }) result (loaded_kind (S.memory store.now) at marks.old (view_kind kind)) }
{
    match kind {
        Kind::Scalar(kind) => match loaded_scalar(store, at, marks, kind) {
            Ok(value) => Ok(Finished::Scalar(value)),
            Err(trouble) => Err(trouble),
        },
        Kind::Record(laid) => match loaded_record(alloc, store, at, marks, laid) {
            Ok(held) => Ok(Finished::Cells(held, Some(at))),
            Err(trouble) => Err(trouble),
        },
    }
}

fn loaded_from<S: Store, O: Objects>(
    alloc: Global,
    store: &S,
    objects: &O,
    setting: &Setting<'_>,
    ty: OperandTy<'_>,
    place: &Finished,
    marks: &mut Marks,
) -> Result<Finished, Trouble>
    ensures { Finds (λ value. record { value = view_finished value; marks = marks.new }) result
        (loaded_from (view_setting setting.now) (S.memory store.now) (view_operand_ty ty.entry) marks.old (place_in (O.frame objects.now) (view_finished place.now))) }
{
    let kind = match kind_of(setting, ty) {
        Ok(kind) => kind,
        Err(trouble) => return Err(trouble),
    };
    match place_of(objects, place) {
        Ok(at) => loaded_kind(alloc, store, at, marks, kind),
        Err(trouble) => Err(trouble),
    }
}

fn loaded_field<S: Store>(
    store: &S,
    at: Ptr,
    bit: u32,
    width: u32,
    marks: &mut Marks,
    kind: Option<Scalar>,
) -> Result<Finished, Trouble>
    ensures { Finds (λ value. record { value = view_finished value; marks = marks.new }) result
        (and_then (needed kind) (loaded_bits (S.memory store.now) at bit width marks.old)) }
{
    let Some(kind) = kind else {
        return Err(Trouble::Memory);
    };
    match loaded_bits(store, at, bit, width, marks, kind) {
        Ok(value) => Ok(Finished::Scalar(value)),
        Err(trouble) => Err(trouble),
    }
}

/// The value of a type that the object holds which an lvalue designates (6.3.2.1p2); what is read is marked.
///
/// # Errors
///
/// `Undefined` by U1, U5, U6, U7, U8, U9 or U10.
pub fn loaded<S: Store, O: Objects>(
    alloc: Global,
    store: &S,
    objects: &O,
    setting: &Setting<'_>,
    ty: OperandTy<'_>,
    place: &Finished,
    marks: &mut Marks,
) -> Result<Finished, Trouble>
    ensures { Finds (λ value. record { value = view_finished value; marks = marks.new }) result
        (loaded (view_setting setting.now) (O.frame objects.now) (S.memory store.now) (view_operand_ty ty.entry) (view_finished place.now) marks.old) }
{
    match place {
        Finished::Bits(at, bit, width) => {
            loaded_field(store, *at, *bit, *width, marks, scalar_of(setting, ty))
        }
        Finished::Names(_) => loaded_from(alloc, store, objects, setting, ty, place, marks),
        Finished::Designates(_) => loaded_from(alloc, store, objects, setting, ty, place, marks),
        Finished::Scalar(_) => loaded_from(alloc, store, objects, setting, ty, place, marks),
        Finished::Cells(_, _) => loaded_from(alloc, store, objects, setting, ty, place, marks),
        Finished::Missing => loaded_from(alloc, store, objects, setting, ty, place, marks),
    }
}

fn stored_cells<S: Store>(
    store: &mut S,
    at: Ptr,
    marks: &mut Marks,
    new: Finished,
    laid: Laid,
) -> Result<Finished, Trouble>
    ensures stored { Finds (λ value. record { value = view_finished value; marks = marks.new; blocks = S.memory store.new }) result
        (stored_record (S.memory store.old) at marks.old (view_finished new) laid) }
    ensures limit { S.limit store.new ≡ S.limit store.old }
{
    match new {
        Finished::Cells(held, from) => {
            match stored_record(store, at, marks, held.as_slice(), from, laid) {
                Ok(()) => Ok(Finished::Cells(held, None)),
                Err(trouble) => Err(trouble),
            }
        }
        Finished::Missing => Err(Trouble::Undefined(URule::U14)),
        Finished::Scalar(_) => Err(Trouble::Memory),
        Finished::Names(_) => Err(Trouble::Memory),
        Finished::Designates(_) => Err(Trouble::Memory),
        Finished::Bits(_, _, _) => Err(Trouble::Memory),
    }
}

fn stored_kind<S: Store>(
    store: &mut S,
    at: Ptr,
    marks: &mut Marks,
    new: Finished,
    kind: Kind,
) -> Result<Finished, Trouble>
    requires { IsKind kind }
    ensures stored { Finds (λ value. record { value = view_finished value; marks = marks.new; blocks = S.memory store.new }) result
        (stored_kind (S.memory store.old) at marks.old (view_finished new) (view_kind kind)) }
    ensures limit { S.limit store.new ≡ S.limit store.old }
{
    match kind {
        Kind::Scalar(kind) => match stored_scalar(store, at, marks, &new, kind) {
            Ok(value) => Ok(Finished::Scalar(value)),
            Err(trouble) => Err(trouble),
        },
        Kind::Record(laid) => stored_cells(store, at, marks, new, laid),
    }
}

fn stored_to<S: Store, O: Objects>(
    store: &mut S,
    objects: &O,
    setting: &Setting<'_>,
    ty: OperandTy<'_>,
    place: &Finished,
    new: Finished,
    marks: &mut Marks,
) -> Result<Finished, Trouble>
    ensures stored { Finds (λ value. record { value = view_finished value; marks = marks.new; blocks = S.memory store.new }) result
        (stored_to (view_setting setting.now) (S.memory store.old) (view_operand_ty ty.entry) (view_finished new) marks.old (place_in (O.frame objects.now) (view_finished place.now))) }
    ensures limit { S.limit store.new ≡ S.limit store.old }
{
    let kind = match kind_of(setting, ty) {
        Ok(kind) => kind,
        Err(trouble) => return Err(trouble),
    };
    match place_of(objects, place) {
        Ok(at) => stored_kind(store, at, marks, new, kind),
        Err(trouble) => Err(trouble),
    }
}

fn stored_in_field<S: Store>(
    store: &mut S,
    at: Ptr,
    bit: u32,
    width: u32,
    marks: &mut Marks,
    new: Finished,
    kind: Option<Scalar>,
) -> Result<Finished, Trouble>
    requires { IfSome kind IsScalar }
    ensures stored { Finds (λ value. record { value = view_finished value; marks = marks.new; blocks = S.memory store.new }) result
        (and_then (needed kind) (stored_bits (S.memory store.old) at bit width marks.old (view_finished new))) }
    ensures limit { S.limit store.new ≡ S.limit store.old }
{
    let Some(kind) = kind else {
        return Err(Trouble::Memory);
    };
    match stored_field(store, at, bit, width, marks, &new, kind) {
        Ok(value) => Ok(Finished::Scalar(value)),
        Err(trouble) => Err(trouble),
    }
}

/// Stores a value of a type in the object that an lvalue designates (6.5.16.1p2); what is written is marked. It gives
/// what the object then holds (6.5.16p3).
///
/// # Errors
///
/// `Undefined` by U1, U5, U6, U9, U10, U14 or U16.
pub fn stored<S: Store, O: Objects>(
    store: &mut S,
    objects: &O,
    setting: &Setting<'_>,
    ty: OperandTy<'_>,
    place: &Finished,
    new: Finished,
    marks: &mut Marks,
) -> Result<Finished, Trouble>
    ensures stored { Finds (λ value. record { value = view_finished value; marks = marks.new; blocks = S.memory store.new }) result
        (stored (view_setting setting.now) (O.frame objects.now) (S.memory store.old) (view_operand_ty ty.entry) (view_finished place.now) (view_finished new) marks.old) }
    ensures limit { S.limit store.new ≡ S.limit store.old }
{
    match place {
        Finished::Bits(at, bit, width) => {
            stored_in_field(store, *at, *bit, *width, marks, new, scalar_of(setting, ty))
        }
        Finished::Names(_) => stored_to(store, objects, setting, ty, place, new, marks),
        Finished::Designates(_) => stored_to(store, objects, setting, ty, place, new, marks),
        Finished::Scalar(_) => stored_to(store, objects, setting, ty, place, new, marks),
        Finished::Cells(_, _) => stored_to(store, objects, setting, ty, place, new, marks),
        Finished::Missing => stored_to(store, objects, setting, ty, place, new, marks),
    }
}

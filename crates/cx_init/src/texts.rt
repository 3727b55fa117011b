//! String literals that initialise arrays of characters (ISO C99, 6.7.8p14).

ghost use Rattle.std.specs.Prelude.{◌≡◌, ◌++◌, [], ◌∷◌, map, pos, IfOk, option_map};
ghost use Rattle.cr_base.specs.Scalar.{wrapped};
ghost use Rattle.cx_core.specs.Conversions.{scalar_of_basic};
ghost use Rattle.cx_core.specs.Trees.{form_of_type};
ghost use Rattle.cx_core.specs.Views.{view_type, view_types, view_expr};
ghost use Rattle.cx_init.specs.Views.{view_stored};
ghost use Rattle.cx_kinds.specs.Known.{IsKnown, types_in};
ghost use Rattle.cx_parts.specs.Views.{view_at};
ghost use Rattle.cx_rules.specs.Initial.{as_scalar, byte_value, bytes_from, fits_length, text_fits_in, text_in};
ghost use Rattle.cx_rules.specs.Pieces.{bytes_stored, text_fits_at};

use crate::stored::Stored;
use crate::values::StoredValues;
use cr_base::{Boxed, Int, Items, Memory, Place, convert};
use cx_core::{Basic, CoreExpr, Ty, TyForm, Types, basic_of};
use cx_forms::whole_node;
use cx_kinds::Known;
use cx_parts::{At, has_element};
use cx_values::unqualified_copy;
use std::alloc::Global;

/// Whether a string literal isn't longer than the array that it fills, without the zero byte at its end; there is no such array where it
/// has no place (ISO C99, 6.7.8p2, p14).
pub fn fits_text(bytes: &[u8], at: Option<&At>) -> bool
    ensures { result ≡ text_fits_at bytes.now (option_map (λ one. view_at one.now) at.entry) }
{
    match at {
        None => false,
        Some(at) => fits_array(bytes.len() as u64, at.ty.get()),
    }
}

fn fits_array(count: u64, t: &Ty) -> bool
    ensures { result ≡ text_fits_in count (form_of_type (view_type t.now)) }
{
    match &t.form {
        TyForm::Array(_, length) => fits_length(count, *length),
        TyForm::Void
        | TyForm::Basic(_)
        | TyForm::Enum(_)
        | TyForm::Pointer(_)
        | TyForm::Record(_)
        | TyForm::Function(_) => false,
    }
}

#[tactic(auto, using(crate::proofs::TextBytes::fits_by))]
fn fits_length(count: u64, length: Option<u64>) -> bool
    ensures { result ≡ fits_length count length }
{
    match length {
        None => true,
        Some(length) => count.saturating_sub(1) <= length,
    }
}

/// What a string literal stores in the array of characters at which it lands, where there is one; its bytes have the zero byte at their end.
/// Refused only for want of memory.
pub fn text_stored(
    alloc: Global,
    known: Known,
    place: Place,
    bytes: &[u8],
    at: Option<At>,
) -> Result<StoredValues, Memory>
    requires { IsKnown known }
    ensures { IfOk result (λ made. map view_stored made ≡ bytes_stored (types_in known.entry) place bytes.now (option_map view_at at)) }
{
    match at {
        None => Ok(StoredValues::new(alloc)),
        Some(at) => text_in(alloc, known, place, bytes, &at),
    }
}

fn text_in(
    alloc: Global,
    known: Known,
    place: Place,
    bytes: &[u8],
    at: &At,
) -> Result<StoredValues, Memory>
    requires { IsKnown known }
    ensures { IfOk result (λ made. map view_stored made ≡ text_in (types_in known.entry) place (view_at at.now) bytes.now (form_of_type (view_type at.now.ty))) }
{
    match &at.ty.get().form {
        TyForm::Array(element, length) => bytes_from(
            alloc,
            known,
            place,
            at,
            element.get(),
            *length,
            bytes,
        ),
        TyForm::Void
        | TyForm::Basic(_)
        | TyForm::Enum(_)
        | TyForm::Pointer(_)
        | TyForm::Record(_)
        | TyForm::Function(_) => Ok(StoredValues::new(alloc)),
    }
}

// The bytes for which the array has elements.
fn bytes_from(
    alloc: Global,
    known: Known,
    place: Place,
    at: &At,
    element: &Ty,
    length: Option<u64>,
    bytes: &[u8],
) -> Result<StoredValues, Memory>
    requires { IsKnown known }
    ensures { IfOk result (λ made. map view_stored made ≡ bytes_from (types_in known.entry) place (view_at at.now) (view_type element.now) length 0 bytes.now) }
{
    let mut made = StoredValues::new(alloc);
    for index in 0..bytes.len() {
        if !has_element(known, element, length, index as u64) {
            return Ok(made);
        }
        let one = byte_stored(
            alloc,
            known.types,
            place,
            at.path.as_slice(),
            element,
            index as u64,
            bytes[index],
        )?;
        made.push(one)?;
    }
    Ok(made)
}

fn byte_stored(
    alloc: Global,
    types: &Types,
    place: Place,
    path: &[u64],
    element: &Ty,
    index: u64,
    byte: u8,
) -> Result<Stored, Memory>
    ensures { IfOk result (λ made. view_stored made ≡ record { path = path.now ++ index ∷ []; type = view_type element.now; value = byte_value (view_types types.now) place (view_type element.now) byte }) }
{
    let mut whole = Items::from_slice(alloc, path)?;
    whole.push(index)?;
    let ty = element.copy(alloc)?;
    let value = byte_expr(alloc, types, place, element, byte)?;
    Ok(Stored {
        path: whole,
        ty,
        value,
    })
}

#[tactic(auto, using(crate::proofs::TextBytes::scalar_by))]
fn byte_expr(
    alloc: Global,
    types: &Types,
    place: Place,
    element: &Ty,
    byte: u8,
) -> Result<Boxed<CoreExpr>, Memory>
    ensures { IfOk result (λ made. view_expr made ≡ byte_value (view_types types.now) place (view_type element.now) byte) }
{
    let ty = unqualified_copy(alloc, element)?;
    let value = number_of(basic_of(element, types), byte);
    whole_node(alloc, ty, place, value)
}

// A byte as a number of a type.
fn number_of(which: Option<Basic>, byte: u8) -> Int
    ensures { result ≡ as_scalar (option_map scalar_of_basic which) byte }
{
    match which {
        None => Int::from(byte),
        Some(which) => byte_number(which, byte),
    }
}

fn byte_number(which: Basic, byte: u8) -> Int
    ensures { result ≡ wrapped (scalar_of_basic which) (pos byte) }
{
    match which {
        Basic::Truth => Int::from(byte),
        Basic::Char
        | Basic::SignedChar
        | Basic::UnsignedChar
        | Basic::Short
        | Basic::UnsignedShort
        | Basic::Int
        | Basic::Unsigned
        | Basic::Long
        | Basic::UnsignedLong
        | Basic::LongLong
        | Basic::UnsignedLongLong => convert(which.scalar(), Int::from(byte)),
    }
}

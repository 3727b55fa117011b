ghost use Rattle.std.specs.Prelude.{◌≡◌, ◌≤◌, ◌-◌, ◌^◌, ◌++◌, if◌then◌else◌, IsTrue, length, map, take, replicate, pos, Err, IfOk, IfSome, All};
ghost use Rattle.std.specs.List.{list_all};
ghost use Rattle.cr_base.specs.Scalar.{is_width, IsInteger, modulus, residue};
ghost use Rattle.mem_bytes.specs.Calls.{IsCell};
ghost use Rattle.mem_bytes.specs.Coding.{IsScalar, IsValueOf, scalar_size, bytes_of, cells_of, value_of, number_of, number_value, whole_value, pointer_value, pointer_bytes, is_set, is_zero, is_same_pointer, is_pointer_of, is_byte_of, are_bytes_of};
ghost use Rattle.mem_bytes.specs.Memory.{unset_cell, byte_cell};
ghost use Rattle.mem_bytes.specs.Reading.{set_number, IsWholePointer};

use crate::cell::Cell;
use crate::fault::Fault;
use crate::field::bit_cells;
use crate::value::Value;
use cr_base::{Int, Scalar, wrap};

/// The cells of a value of the scalar's type, in memory order (ISO C99, 6.2.6). The cells past the
/// scalar's size are unset.
pub fn encode(scalar: Scalar, value: Value) -> [Cell; 8]
    requires scalar { IsScalar scalar }
    requires value { IsValueOf scalar value }
    ensures cells { result ≡ cells_of scalar value ++ replicate (8 - scalar_size scalar) unset_cell }
    ensures held { All IsCell result }
{
    match value {
        Value::Whole(number) => bit_cells(
            scalar_size(scalar),
            residue_of(scalar, number),
            u64::MAX,
        ),
        Value::Null => bit_cells(8, 0, u64::MAX),
        Value::Object(_) | Value::Code(_) => pointer_bytes(value),
    }
}

#[tactic(auto, using(crate::proofs::Decoding::read_typed))]
/// The value of the scalar whose cells come first (ISO C99, 6.2.6). It is a value of the scalar's
/// type.
///
/// # Errors
///
/// In this order: `Unset` where a bit is unset, `BadBool` where the byte of a `_Bool` is neither 0 nor
/// 1, or `MixedPointer` where a number holds a pointer's byte, or a pointer is neither eight zero bytes
/// nor the eight bytes of one pointer of its kind.
#[inline(always)]
pub fn decode(scalar: Scalar, cells: &[Cell]) -> Result<Value, Fault>
    requires scalar { IsScalar scalar }
    requires cells { scalar_size scalar ≤ length cells.now }
    ensures value { result ≡ value_of scalar (take (scalar_size scalar) cells.now) }
    ensures in_type { IfOk result (IsValueOf scalar) }
{
    let cells = &cells[..scalar_size(scalar)];
    match scalar {
        Scalar::Object | Scalar::Code => decode_pointer(scalar, cells),
        Scalar::Truth | Scalar::Whole { .. } => decode_number(scalar, cells),
    }
}

#[tactic(auto, using(crate::proofs::Puts::value_cells))]
// Writes the cells of a value of the scalar's type over as many others.
#[inline(always)]
pub(crate) fn write_value(cells: &mut [Cell], scalar: Scalar, value: Value)
    requires scalar { IsScalar scalar }
    requires value { IsValueOf scalar value }
    requires cells { length cells.old ≡ scalar_size scalar }
    ensures cells { cells.new ≡ cells_of scalar value }
    ensures held { All IsCell cells.new }
{
    match value {
        Value::Whole(number) => write_number(cells, residue_of(scalar, number)),
        Value::Null => write_number(cells, 0),
        Value::Object(_) | Value::Code(_) => write_pointer(cells, value),
    }
}

/// The size of a scalar type in bytes, 1 to 8, which is its alignment too (the choice of the profile,
/// which ISO C99, 6.2.6.1p2, leaves to it).
#[inline(always)]
pub fn scalar_size(scalar: Scalar) -> usize
    requires { IsScalar scalar }
    ensures size { result ≡ scalar_size scalar }
    ensures small { result ≤ 8 }
{
    match scalar {
        Scalar::Truth => 1,
        Scalar::Whole { width, .. } => usize::from(width / 8),
        Scalar::Object | Scalar::Code => 8,
    }
}

// The number as its bits stand in memory: two's complement.
#[inline(always)]
fn residue_of(scalar: Scalar, number: Int) -> u64
    requires scalar { IsScalar scalar }
    requires value { IsValueOf scalar (Value.Whole number) }
    ensures { result ≡ residue number (modulus scalar) }
{
    match scalar {
        Scalar::Whole { width, .. } => residue_in_width(width, number),
        _ => number.rem_euclid(2) as u64,
    }
}

// The number modulo 2^width. A case for each width, so that no division is by a variable.
#[inline(always)]
fn residue_in_width(width: u8, number: Int) -> u64
    requires { IsTrue (is_width width) }
    ensures { result ≡ residue number (2 ^ width) }
{
    match width {
        8 => number.rem_euclid(1 << 8) as u64,
        16 => number.rem_euclid(1 << 16) as u64,
        32 => number.rem_euclid(1 << 32) as u64,
        _ => number.rem_euclid(1 << 64) as u64,
    }
}

// Writes the bytes of a number over cells, the lowest first.
#[inline(always)]
fn write_number(cells: &mut [Cell], number: u64)
    ensures { cells.new ≡ map byte_cell (bytes_of (length cells.old) number) }
{
    let mut left = number;
    for index in 0..cells.len() {
        cells[index] = Cell::Bits {
            value: (left % 256) as u8,
            set: 255,
        };
        left /= 256;
    }
}

// Writes the bytes of a pointer that isn't null over eight cells.
fn write_pointer(cells: &mut [Cell], of: Value)
    requires { length cells.old ≡ 8 }
    ensures { cells.new ≡ pointer_bytes of }
{
    for index in 0..8 {
        cells[index] = Cell::PtrByte {
            of,
            index: index as u8,
        };
    }
}

fn pointer_bytes(of: Value) -> [Cell; 8]
    ensures { result ≡ pointer_bytes of }
{
    [
        Cell::PtrByte { of, index: 0 },
        Cell::PtrByte { of, index: 1 },
        Cell::PtrByte { of, index: 2 },
        Cell::PtrByte { of, index: 3 },
        Cell::PtrByte { of, index: 4 },
        Cell::PtrByte { of, index: 5 },
        Cell::PtrByte { of, index: 6 },
        Cell::PtrByte { of, index: 7 },
    ]
}

// The value of an integer type that the cells hold.
#[inline(always)]
fn decode_number(scalar: Scalar, cells: &[Cell]) -> Result<Value, Fault>
    requires scalar { IsInteger scalar }
    requires cells { length cells.now ≤ 8 }
    ensures value { result ≡ (if list_all is_set cells.now
        then whole_value scalar cells.now else Err Fault.Unset) }
    ensures in_type { IfOk result (IsValueOf scalar) }
{
    match set_number(cells) {
        Some(number) => number_value(scalar, number),
        None => Err(number_fault(cells)),
    }
}

// The number that the cells hold, where all their bits are set and none is a pointer's byte.
#[inline(always)]
fn set_number(cells: &[Cell]) -> Option<u64>
    requires { length cells.now ≤ 8 }
    ensures { result ≡ set_number cells.now }
{
    let mut number = 0;
    for index in 0..cells.len() {
        let Some(byte) = cells[index].set_byte() else {
            return None;
        };
        number += u64::from(byte) << (8 * index);
    }
    Some(number)
}

// Why the cells hold no number.
#[cold]
fn number_fault(cells: &[Cell]) -> Fault
    ensures { result ≡ (if list_all is_set cells.now then Fault.MixedPointer else Fault.Unset) }
{
    if are_set(cells) {
        Fault::MixedPointer
    } else {
        Fault::Unset
    }
}

// The pointer that the cells hold.
fn decode_pointer(scalar: Scalar, cells: &[Cell]) -> Result<Value, Fault>
    ensures { result ≡ (if list_all is_set cells.now
        then pointer_value scalar cells.now else Err Fault.Unset) }
{
    if let Some(pointer) = whole_pointer(scalar, cells) {
        return Ok(pointer);
    }
    if !are_set(cells) {
        return Err(Fault::Unset);
    }
    pointer_value(scalar, cells)
}

// The pointer that isn't null whose bytes the cells are.
fn whole_pointer(scalar: Scalar, cells: &[Cell]) -> Option<Value>
    ensures { IfSome result (λ of. IsWholePointer scalar of cells.now) }
{
    match cells.first() {
        Some(Cell::PtrByte { of, .. }) if is_pointer_of(scalar, *of) && are_bytes_of(*of, cells) =>
            { Some(*of) }
        _ => None,
    }
}

fn are_set(cells: &[Cell]) -> bool
    ensures { result ≡ list_all is_set cells.now }
{
    cells.iter().all(|cell| cell.is_set())
}

fn are_zero(cells: &[Cell]) -> bool
    ensures { result ≡ list_all is_zero cells.now }
{
    cells.iter().all(|cell| cell.is_zero())
}

// What the bytes of a number mean.
#[inline(always)]
fn number_value(scalar: Scalar, number: u64) -> Result<Value, Fault>
    requires { IsScalar scalar }
    ensures value { result ≡ number_value scalar number }
    ensures in_type { IfOk result (IsValueOf scalar) }
{
    match scalar {
        Scalar::Truth if number < 2 => Ok(Value::Whole(Int::from(number))),
        Scalar::Truth => Err(Fault::BadBool),
        Scalar::Whole { .. } => Ok(Value::Whole(wrap(scalar, Int::from(number)))),
        Scalar::Object | Scalar::Code => Err(Fault::MixedPointer),
    }
}

// What the cells of a pointer mean.
fn pointer_value(scalar: Scalar, cells: &[Cell]) -> Result<Value, Fault>
    ensures value { result ≡ pointer_value scalar cells.now }
{
    if are_zero(cells) {
        return Ok(Value::Null);
    }
    match cells.first() {
        Some(Cell::PtrByte { of, .. }) if is_pointer_of(scalar, *of) && are_bytes_of(*of, cells) =>
            { Ok(*of) }
        _ => Err(Fault::MixedPointer),
    }
}

// Whether the cells are the bytes of this pointer, from the first on.
fn are_bytes_of(of: Value, cells: &[Cell]) -> bool
    ensures { result ≡ are_bytes_of of 0 cells.now }
{
    for (index, cell) in cells.iter().enumerate() {
        if !is_byte_of(of, index, *cell) {
            return false;
        }
    }
    true
}

// Whether the cell is the byte of this pointer with this index.
fn is_byte_of(of: Value, index: usize, cell: Cell) -> bool
    ensures { result ≡ is_byte_of of index cell }
{
    match cell {
        Cell::PtrByte {
            of: stored,
            index: place,
        } => is_same_pointer(stored, of) && usize::from(place) == index,
        Cell::Bits { .. } => false,
    }
}

pub(crate) fn is_same_pointer(one: Value, other: Value) -> bool
    ensures { result ≡ is_same_pointer one other }
{
    match (one, other) {
        (Value::Object(p), Value::Object(q)) => p.block == q.block && p.offset == q.offset,
        (Value::Code(f), Value::Code(g)) => f == g,
        _ => false,
    }
}

fn is_pointer_of(scalar: Scalar, value: Value) -> bool
    ensures { result ≡ is_pointer_of scalar value }
{
    matches!(
        (scalar, value),
        (Scalar::Object, Value::Object(_)) | (Scalar::Code, Value::Code(_))
    )
}

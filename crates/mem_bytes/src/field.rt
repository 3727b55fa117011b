ghost use Rattle.std.specs.Prelude.{◌≡◌, ◌≤◌, ◌<◌, ◌-◌, ◌^◌, ◌++◌, length, replicate, Ok, IfOk, All};
ghost use Rattle.std.specs.List.{list_all};
ghost use Rattle.mem_bytes.specs.Access.{and_then};
ghost use Rattle.mem_bytes.specs.Bits.{bytes_touched, field_of, with_field, bit_cells, field_in, with_field_in};
ghost use Rattle.mem_bytes.specs.Calls.{IsCell, IsFieldPlace};
ghost use Rattle.mem_bytes.specs.Coding.{is_bits, bits_in, set_in, bits_of, set_of};
ghost use Rattle.mem_bytes.specs.Memory.{unset_cell};

use crate::cell::Cell;
use crate::fault::Fault;

/// How many bytes a bit-field touches (ISO C99, 6.7.2.1p10), 1 to 5: it begins at the bit `bit`, from
/// 0 to 7, of the first one, and has `width` bits, from 1 to 32.
pub fn bytes_touched(bit: u32, width: u32) -> u64
    requires { IsFieldPlace bit width }
    ensures { result ≡ bytes_touched bit width }
{
    u64::from((bit + width + 7) / 8)
}

/// The bits of a bit-field, as a number from 0 on, in the cells that it touches (ISO C99, 6.7.2.1p9).
/// Cells past them, up to eight in all, are looked at for bytes of pointers alone.
///
/// # Errors
///
/// `Unset` where a bit of the field is unset, then `MixedPointer` where one of the cells is a byte of
/// a pointer.
pub fn field_in(bit: u32, width: u32, cells: &[Cell]) -> Result<u64, Fault>
    requires place { IsFieldPlace bit width }
    requires cells { length cells.now ≤ 8 }
    ensures { result ≡ field_in bit width cells.now }
{
    let set = field_of(bit, width, set_of(cells));
    if set != (1 << width) - 1 {
        return Err(Fault::Unset);
    }
    if !are_bits(cells) {
        return Err(Fault::MixedPointer);
    }
    Ok(field_of(bit, width, bits_of(cells)))
}

#[tactic(auto, using(crate::proofs::Fields::touched_below))]
/// The cells that a bit-field touches after a number below 2^`width` was stored in it. The bits beside
/// it stay, and the cells past them are unset.
///
/// # Errors
///
/// `MixedPointer` where one of the cells is a pointer's byte.
pub fn with_field_in(bit: u32, width: u32, field: u64, cells: &[Cell]) -> Result<[Cell; 8], Fault>
    requires place { IsFieldPlace bit width }
    requires value { field < 2 ^ width }
    requires cells { length cells.now ≡ bytes_touched bit width }
    ensures cells { result ≡ and_then (with_field_in bit width field cells.now)
        (λ new. Ok (new ++ replicate (8 - length cells.now) unset_cell)) }
    ensures held { IfOk result (All IsCell) }
{
    if !are_bits(cells) {
        return Err(Fault::MixedPointer);
    }
    let bits = with_field(bit, width, field, bits_of(cells));
    let set = with_field(bit, width, (1 << width) - 1, set_of(cells));
    Ok(bit_cells(cells.len(), bits, set))
}

fn field_of(bit: u32, width: u32, number: u64) -> u64
    requires { IsFieldPlace bit width }
    ensures { result ≡ field_of bit width number }
{
    (number >> bit) % (1 << width)
}

// The number with another field; it has at most 40 bits, as many as a bit-field touches.
fn with_field(bit: u32, width: u32, field: u64, number: u64) -> u64
    requires place { IsFieldPlace bit width }
    requires field { field < 2 ^ width }
    requires number { number < 2 ^ 40 }
    ensures { result ≡ with_field bit width field number }
{
    let above = bit + width;
    let high = number >> above << above;
    let low = number % (1 << bit);
    high + (field << bit) + low
}

// So many cells of bits, from the bytes of two numbers; those past them are unset.
pub(crate) fn bit_cells(count: usize, bits: u64, set: u64) -> [Cell; 8]
    requires { count ≤ 8 }
    ensures cells { result ≡ bit_cells count bits set ++ replicate (8 - count) unset_cell }
    ensures held { All IsCell result }
{
    let mut cells = [Cell::UNSET; 8];
    let mut bits_left = bits;
    let mut set_left = set;
    for index in 0..count {
        cells[index] = Cell::Bits {
            value: (bits_left % 256) as u8,
            set: (set_left % 256) as u8,
        };
        bits_left /= 256;
        set_left /= 256;
    }
    cells
}

// Whether no cell is a pointer's byte.
pub(crate) fn are_bits(cells: &[Cell]) -> bool
    ensures { result ≡ list_all is_bits cells.now }
{
    cells.iter().all(|cell| cell.is_bits())
}

#[tactic(auto, using(crate::proofs::Bytes::more_bytes, crate::proofs::Bytes::power_fits))]
// The bits of the cells as one number, the lowest byte first.
pub(crate) fn bits_of(cells: &[Cell]) -> u64
    requires { length cells.now ≤ 8 }
    ensures value { result ≡ bits_of cells.now }
    ensures small { result < 256 ^ length cells.now }
{
    match cells.split_first() {
        None => 0,
        Some((lowest, others)) => u64::from(lowest.bits()) + 256 * bits_of(others),
    }
}

#[tactic(auto, using(crate::proofs::Bytes::more_bytes, crate::proofs::Bytes::power_fits))]
// Which bits of the cells are set, as one number.
fn set_of(cells: &[Cell]) -> u64
    requires { length cells.now ≤ 8 }
    ensures value { result ≡ set_of cells.now }
    ensures small { result < 256 ^ length cells.now }
{
    match cells.split_first() {
        None => 0,
        Some((lowest, others)) => u64::from(lowest.set_bits()) + 256 * set_of(others),
    }
}

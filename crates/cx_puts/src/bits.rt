//! Bit-fields that become unset (ISO C99, 6.7.2.1p9).

ghost use Rattle.std.specs.Prelude.{◌≡◌, ◌≤◌, ◌<◌, ◌-◌, ◌^◌, ◌++◌, length, replicate};
ghost use Rattle.cx_mean.specs.Initialisers.{field_unset};
ghost use Rattle.mem_bytes.specs.Bits.{bit_cells, bytes_touched, with_field};
ghost use Rattle.mem_bytes.specs.Calls.{IsFieldPlace};
ghost use Rattle.mem_bytes.specs.Coding.{bits_in, bits_of, set_in, set_of};
ghost use Rattle.mem_bytes.specs.Memory.{unset_cell};

use crate::parts::UNSET;
use mem_bytes::Cell;

// The bits of a cell; 0 for a pointer's byte.
fn bits_in(cell: &Cell) -> u8
    ensures { result ≡ bits_in cell.now }
{
    match *cell {
        Cell::Bits { value, .. } => value,
        Cell::PtrByte { .. } => 0,
    }
}

// Which bits of a cell are set; all of a pointer's byte.
fn set_in(cell: &Cell) -> u8
    ensures { result ≡ set_in cell.now }
{
    match *cell {
        Cell::Bits { set, .. } => set,
        Cell::PtrByte { .. } => 255,
    }
}

// The bits of the cells as one number, the lowest byte first.
#[tactic(auto, using(crate::proofs::Numbers::more_bytes, crate::proofs::Numbers::power_fits))]
fn bits_of(cells: &[Cell]) -> u64
    requires { length cells.now ≤ 8 }
    ensures value { result ≡ bits_of cells.now }
    ensures small { result < 256 ^ length cells.now }
{
    match cells.split_first() {
        None => 0,
        Some((lowest, others)) => u64::from(bits_in(lowest)) + 256 * bits_of(others),
    }
}

// Which bits of the cells are set, as one number.
#[tactic(auto, using(crate::proofs::Numbers::more_bytes, crate::proofs::Numbers::power_fits))]
fn set_of(cells: &[Cell]) -> u64
    requires { length cells.now ≤ 8 }
    ensures value { result ≡ set_of cells.now }
    ensures small { result < 256 ^ length cells.now }
{
    match cells.split_first() {
        None => 0,
        Some((lowest, others)) => u64::from(set_in(lowest)) + 256 * set_of(others),
    }
}

// The number without a field; it has at most 40 bits, as many as a bit-field touches.
fn without_field(bit: u32, width: u32, number: u64) -> u64
    requires place { IsFieldPlace bit width }
    requires number { number < 2 ^ 40 }
    ensures { result ≡ with_field bit width 0 number }
{
    let above = bit + width;
    let high = number >> above << above;
    let low = number % (1 << bit);
    high + low
}

// So many cells of bits, from the bytes of two numbers; those past them are unset.
fn bit_cells(count: usize, bits: u64, set: u64) -> [Cell; 8]
    requires { count ≤ 8 }
    ensures { result ≡ bit_cells count bits set ++ replicate (8 - count) unset_cell }
{
    let mut cells = [UNSET; 8];
    let mut bits_left = bits;
    let mut set_left = set;
    for index in 0..count {
        cells[index] = Cell::Bits {
            value: (bits_left % 256) as u8,
            set: (set_left % 256) as u8,
        };
        bits_left /= 256;
        set_left /= 256;
    }
    cells
}

/// The cells that a bit-field touches, without its bits, and unset cells past them.
#[tactic(auto, using(crate::proofs::Numbers::touched_below))]
pub(crate) fn field_unset(bit: u32, width: u32, cells: &[Cell]) -> [Cell; 8]
    requires place { IsFieldPlace bit width }
    requires cells { length cells.now ≡ bytes_touched bit width }
    ensures { result ≡ field_unset bit width cells.now ++ replicate (8 - length cells.now) unset_cell }
{
    let set = without_field(bit, width, set_of(cells));
    bit_cells(cells.len(), bits_of(cells), set)
}

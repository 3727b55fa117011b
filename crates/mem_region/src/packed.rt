ghost use Rattle.std.specs.Prelude.{◌≡◌, ◌+◌, ◌-◌, ◌^◌, ◌<◌, ◌≤◌, ◌++◌, length, map, take, drop, replicate, All, IfOk, vec_capacity, vec_len};
ghost use Rattle.std.specs.Int.{w64, from_le_bytes};
ghost use Rattle.mem_bytes.specs.Bits.{bytes_touched};
ghost use Rattle.mem_bytes.specs.Calls.{IsCell, IsFieldPlace, IsPointer};
ghost use Rattle.mem_bytes.specs.Memory.{byte_cell, unset_cell};
ghost use Rattle.mem_region.specs.Packed.{cell_of, field_stored, Wrote};

use mem_bytes::{Cell, Fault, Ptr, Value, bytes_touched, with_field_in};

// A cell in 18 bytes, where `Cell` takes 64.
#[derive(Clone, Copy)]
pub(crate) struct Packed {
    // Which bits are set; the number of the block, or of the function, that a pointer leads to.
    first: [u8; 8],
    // The offset of a pointer to an object, in bytes.
    second: [u8; 8],
    // The bits; the index of a pointer's byte.
    byte: u8,
    kind: Kind,
}

// What a cell is.
#[derive(Clone, Copy)]
pub(crate) enum Kind {
    // A byte of bits.
    Bits,
    // A byte of a pointer to an object.
    Object,
    // A byte of a pointer to a function.
    Code,
}

impl Packed {
    // A byte of which no bit is set.
    pub(crate) fn unset() -> Packed
        ensures { cell_of result ≡ unset_cell }
    {
        Packed::new(Kind::Bits, 0, 0, 0)
    }

    fn new(kind: Kind, first: u64, second: u64, byte: u8) -> Packed
        ensures first { from_le_bytes w64 result.first ≡ first }
        ensures second { from_le_bytes w64 result.second ≡ second }
        ensures byte { result.byte ≡ byte }
        ensures kind { result.kind ≡ kind }
    {
        Packed {
            first: first.to_le_bytes(),
            second: second.to_le_bytes(),
            byte,
            kind,
        }
    }

    // Holds a cell.
    pub(crate) fn of(cell: Cell) -> Packed
        requires { IsCell cell }
        ensures { cell_of result ≡ cell }
    {
        match cell {
            Cell::Bits { value, set } => Packed::new(Kind::Bits, u64::from(set), 0, value),
            Cell::PtrByte { of, index } => Packed::pointer_byte(of, index),
        }
    }

    fn pointer_byte(of: Value, index: u8) -> Packed
        requires pointer { IsPointer of }
        requires index { index < 8 }
        ensures { cell_of result ≡ Cell.PtrByte of index }
    {
        match of {
            Value::Object(at) => Packed::new(Kind::Object, at.block, at.offset, index),
            Value::Code(function) => Packed::new(Kind::Code, u64::from(function), 0, index),
            Value::Whole(_) | Value::Null => unreachable!(),
        }
    }

    // The cell that is held.
    pub(crate) fn cell(&self) -> Cell
        ensures value { result ≡ cell_of self.now }
        ensures held { IsCell result }
    {
        let first = u64::from_le_bytes(self.first);
        match self.kind {
            Kind::Bits => Cell::Bits {
                value: self.byte,
                set: (first % 256) as u8,
            },
            Kind::Object => Cell::PtrByte {
                of: Value::Object(Ptr {
                    block: first,
                    offset: u64::from_le_bytes(self.second),
                }),
                index: self.byte % 8,
            },
            Kind::Code => Cell::PtrByte {
                of: Value::Code((first % (1 << 32)) as u32),
                index: self.byte % 8,
            },
        }
    }
}

// So many cells from a place on, eight at most; behind them stand unset ones.
pub(crate) fn read(held: &[Packed], start: usize, count: usize) -> [Cell; 8]
    requires few { count ≤ 8 }
    requires within { start + count ≤ length held.now }
    ensures { result ≡ take count (drop start (map cell_of held.now)) ++ replicate (8 - count) unset_cell }
{
    unpacked(&held[start..start + count])
}

// Eight cells at most; behind them stand unset ones.
fn unpacked(held: &[Packed]) -> [Cell; 8]
    requires { length held.now ≤ 8 }
    ensures { result ≡ map cell_of held.now ++ replicate (8 - length held.now) unset_cell }
{
    let mut cells = [Cell::Bits { value: 0, set: 0 }; 8];
    for index in 0..held.len() {
        cells[index] = held[index].cell();
    }
    cells
}

// The cells that a bit-field at a place touches, after a number was stored in it.
pub(crate) fn with_field(
    held: &[Packed],
    start: usize,
    bit: u32,
    width: u32,
    field: u64,
) -> Result<[Cell; 8], Fault>
    requires place { IsFieldPlace bit width }
    requires value { field < 2 ^ width }
    requires within { start + bytes_touched bit width ≤ length held.now }
    ensures cells { result ≡ field_stored held.now start bit width field }
    ensures held { IfOk result (All IsCell) }
{
    let count = bytes_touched(bit, width) as usize;
    let cells = read(held, start, count);
    with_field_in(bit, width, field, &cells[..count])
}

// Writes cells over others.
pub(crate) fn write(held: &mut Vec<Packed>, start: usize, cells: &[Cell])
    requires cells { All IsCell cells.now }
    requires within { start + length cells.now ≤ length held.old.items }
    ensures { Wrote held.old start cells.now held.new }
{
    let end = start + cells.len();
    pack(&mut held.as_mut_slice()[start..end], cells);
}

// Writes cells over all others.
fn pack(held: &mut [Packed], cells: &[Cell])
    requires cells { All IsCell cells.now }
    requires many { length held.old ≡ length cells.now }
    ensures { map cell_of held.new ≡ cells.now }
{
    for index in 0..cells.len() {
        held[index] = Packed::of(cells[index]);
    }
}

// Sets so many cells to a byte.
pub(crate) fn set_bytes(held: &mut Vec<Packed>, start: usize, count: usize, byte: u8)
    requires { start + count ≤ length held.old.items }
    ensures { Wrote held.old start (replicate count (byte_cell byte)) held.new }
{
    let cell = Packed::of(Cell::Bits {
        value: byte,
        set: 255,
    });
    held.as_mut_slice()[start..start + count].fill(cell);
}

// Copies so many cells to another place.
pub(crate) fn copy(held: &mut Vec<Packed>, from: usize, to: usize, count: usize)
    requires from { from + count ≤ length held.old.items }
    requires to { to + count ≤ length held.old.items }
    ensures { Wrote held.old to (take count (drop from (map cell_of held.old.items))) held.new }
{
    held.copy_within(from..from + count, to);
}

// Appends so many unset cells, where there is room.
pub(crate) fn extend(held: &mut Vec<Packed>, count: usize)
    requires { vec_len held.old + count ≤ vec_capacity held.old }
    ensures cells { map cell_of held.new.items ≡ map cell_of held.old.items ++ replicate count unset_cell }
    ensures room { vec_capacity held.old ≤ vec_capacity held.new }
{
    let len = held.len() + count;
    let _ = held.resize(len, Packed::unset());
}

// Takes out so many cells; those behind them slide to where they began.
pub(crate) fn close_gap(held: &mut Vec<Packed>, start: usize, count: usize)
    requires { start + count ≤ length held.old.items }
    ensures cells { held.new.items ≡ take start held.old.items ++ drop (start + count) held.old.items }
    ensures room { vec_capacity held.new ≡ vec_capacity held.old }
{
    let len = held.len();
    held.copy_within(start + count..len, start);
    held.truncate(len - count);
}

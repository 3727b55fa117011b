ghost use Rattle.std.specs.Prelude.{◌≡◌};
ghost use Rattle.mem_bytes.specs.Coding.{is_set, is_bits, is_zero, bits_in, set_in};
ghost use Rattle.mem_bytes.specs.Reading.{set_byte};

use crate::value::Value;

/// One byte of memory (ISO C99, 3.6 and 6.2.6.1).
#[derive(Clone, Copy, Debug, PartialEq, Eq)]
pub enum Cell {
    /// A byte of bits. A bit of `set` that is 0 is an unset bit, and then the same bit of `value`
    /// has no meaning.
    Bits { value: u8, set: u8 },
    /// The byte with the number `index`, from 0 to 7, of a stored pointer that isn't null.
    PtrByte { of: Value, index: u8 },
}

impl Cell {
    // A byte of which no bit is set.
    pub(crate) const UNSET: Cell = Cell::Bits { value: 0, set: 0 };

    pub(crate) fn is_set(&self) -> bool
        ensures { result ≡ is_set self.now }
    {
        match *self {
            Cell::Bits { set, .. } => set == 255,
            Cell::PtrByte { .. } => true,
        }
    }

    // The bits of a cell all of whose bits are set, unless it is a pointer's byte.
    #[inline(always)]
    pub(crate) fn set_byte(&self) -> Option<u8>
        ensures { result ≡ set_byte self.now }
    {
        match *self {
            Cell::Bits { value, set } if set == 255 => Some(value),
            _ => None,
        }
    }

    pub(crate) fn is_bits(&self) -> bool
        ensures { result ≡ is_bits self.now }
    {
        match *self {
            Cell::Bits { .. } => true,
            Cell::PtrByte { .. } => false,
        }
    }

    pub(crate) fn is_zero(&self) -> bool
        ensures { result ≡ is_zero self.now }
    {
        match *self {
            Cell::Bits { value, .. } => value == 0,
            Cell::PtrByte { .. } => false,
        }
    }

    // The bits of a cell; 0 for a pointer's byte.
    pub(crate) fn bits(&self) -> u8
        ensures { result ≡ bits_in self.now }
    {
        match *self {
            Cell::Bits { value, .. } => value,
            Cell::PtrByte { .. } => 0,
        }
    }

    // Which bits of a cell are set; all of a pointer's byte.
    pub(crate) fn set_bits(&self) -> u8
        ensures { result ≡ set_in self.now }
    {
        match *self {
            Cell::Bits { set, .. } => set,
            Cell::PtrByte { .. } => 255,
        }
    }
}

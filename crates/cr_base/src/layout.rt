ghost use Rattle.std.specs.Prelude.{◌≡◌, ◌<◌, ◌≤◌, ◌*◌, All};
ghost use Rattle.cr_base.specs.declared.layout.Piece.TheVariants.{Bits};
ghost use Rattle.cr_base.specs.Layout.{width_of, align_of, bits_start, struct_start, start, after, raised, spot, laid, no_front, laid_record, IsPiece, IsFront, most_bytes};

/// The most bytes that an object of the profile has.
pub const MOST_BYTES: u64 = 16_777_216;

/// A member of a record, as its layout sees it (ISO C99, 6.7.2.1).
#[derive(Clone, Copy)]
pub enum Piece {
    /// A member that is no bit-field: its size and its alignment in bytes.
    Plain {
        size: u64,
        align: u64,
    },
    /// A bit-field: the size of its declared type in bytes, which is that type's alignment too, its width
    /// in bits, and whether it has a name.
    Bits {
        size: u64,
        width: u32,
        is_named: bool,
    },
}

/// Where a member or an element stands in the object that holds it.
#[derive(Clone, Copy, PartialEq, Eq)]
pub struct Spot {
    /// The byte, from 0.
    pub byte: u64,
    /// The bit within that byte from the lowest, from 0; 0 for what isn't a bit-field.
    pub bit: u32,
    /// The width of a bit-field in bits; 0 for what isn't one.
    pub width: u32,
}

/// The size and the alignment of a type in bytes (ISO C99, 6.5.3.4 and 3.2).
#[derive(Clone, Copy, PartialEq, Eq)]
pub struct Laid {
    pub size: u64,
    pub align: u64,
}

/// What the members that stand in front of a member have taken of a record.
#[derive(Clone, Copy)]
pub struct Front {
    /// Whether the record is a union, whose members all begin at its first bit.
    pub is_union: bool,
    /// The first bit that is behind all of them, from 0.
    pub bits: u64,
    /// The greatest alignment that they ask for, in bytes; 1 without any.
    pub align: u64,
}

impl Piece {
    /// How many bits the member takes.
    pub fn width(self) -> u64
        requires { IsPiece self }
        ensures { result ≡ width_of self }
    {
        match self {
            Piece::Plain { size, .. } => 8 * size,
            Piece::Bits { width, .. } => u64::from(width),
        }
    }

    /// The alignment that the member asks of its record, in bytes. An unnamed bit-field asks for none.
    pub fn align(self) -> u64
        ensures { result ≡ align_of self }
    {
        match self {
            Piece::Plain { align, .. } => align,
            Piece::Bits { size, is_named, .. } => named_align(size, is_named),
        }
    }
}

impl Front {
    /// What stands in front of the first member of a struct or a union.
    pub fn new(is_union: bool) -> Front
        ensures { result ≡ no_front is_union }
    {
        Front {
            is_union,
            bits: 0,
            align: 1,
        }
    }

    /// The first bit of the next member, from 0.
    pub fn start(self, piece: Piece) -> u64
        requires { IsFront self × IsPiece piece }
        ensures { result ≡ start self piece }
    {
        if self.is_union {
            0
        } else {
            start_in_struct(self.bits, piece)
        }
    }

    /// What the next member and those in front of it take.
    pub fn after(self, piece: Piece) -> Front
        requires { IsFront self × IsPiece piece }
        ensures { result ≡ after self piece }
    {
        let end = self.start(piece) + piece.width();
        Front {
            is_union: self.is_union,
            bits: self.bits.max(end),
            align: self.align.max(piece.align()),
        }
    }

    /// The same with the alignment raised to so many bytes.
    pub fn raised(self, align: u64) -> Front
        ensures { result ≡ raised align self }
    {
        Front {
            is_union: self.is_union,
            bits: self.bits,
            align: align.max(self.align),
        }
    }

    /// Where the next member stands.
    pub fn spot(self, piece: Piece) -> Spot
        requires { IsFront self × IsPiece piece }
        ensures { result ≡ spot self piece }
    {
        let start = self.start(piece);
        match piece {
            Piece::Plain { .. } => Spot {
                byte: start / 8,
                bit: 0,
                width: 0,
            },
            Piece::Bits { width, .. } => Spot {
                byte: start / 8,
                bit: (start % 8) as u32,
                width,
            },
        }
    }

    /// The size and the alignment of a record that has these members and no more.
    pub fn laid(self) -> Laid
        requires { IsFront self }
        ensures { result ≡ laid self }
    {
        Laid {
            size: self.bits.next_multiple_of(8 * self.align) / 8,
            align: self.align,
        }
    }
}

/// The size and the alignment of a record with these members, or None where it has more than
/// `MOST_BYTES` bytes.
pub fn laid_record(is_union: bool, pieces: &[Piece]) -> Option<Laid>
    requires { All IsPiece pieces.now }
    ensures { result ≡ laid_record is_union pieces.now }
{
    let mut front = Front::new(is_union);
    for &piece in pieces {
        front = front.after(piece);
        if front.bits > 8 * MOST_BYTES {
            return None;
        }
    }
    let laid = front.laid();
    if laid.size <= MOST_BYTES {
        Some(laid)
    } else {
        None
    }
}

fn named_align(size: u64, is_named: bool) -> u64
    ensures { result ≡ align_of (Bits size 0 is_named) }
{
    if is_named { size } else { 1 }
}

// The first bit of the next member of a struct, from 0.
fn start_in_struct(free: u64, piece: Piece) -> u64
    requires { (free ≤ 8 * most_bytes) × IsPiece piece }
    ensures { result ≡ struct_start free piece }
{
    match piece {
        Piece::Plain { align, .. } => free.next_multiple_of(8 * align),
        Piece::Bits { size, width, .. } => start_of_bits(free, 8 * size, u64::from(width)),
    }
}

// The first bit of a bit-field of a declared type of `unit` bits, from 0.
fn start_of_bits(free: u64, unit: u64, width: u64) -> u64
    requires { (free ≤ 8 * most_bytes) × (0 < unit) × (unit ≤ 64) × (width ≤ unit) }
    ensures { result ≡ bits_start free unit width }
{
    if width > 0 && free % unit + width <= unit {
        free
    } else {
        free.next_multiple_of(unit)
    }
}

ghost use Rattle.std.specs.Prelude.{◌≡◌, ◌^◌};
ghost use Rattle.cr_base.specs.Scalar.{residue};
ghost use Rattle.std_host.specs.Conversions.{plain_conversion, long_conversion, bits_of, is_of_bits};

use cr_base::{Int, Scalar};

/// How many bits the argument of a conversion has (ISO C99, 7.19.6.1p7).
#[derive(Clone, Copy)]
pub enum Length {
    /// Those of `int`: 32.
    Plain,
    /// Those of `long`, behind `l`: 64.
    Long,
}

/// How a conversion shows a number (ISO C99, 7.19.6.1p8).
#[derive(Clone, Copy)]
pub enum Style {
    /// `d` and `i`: in decimal, with a sign where it is negative.
    Signed,
    /// `u`: in decimal, without a sign.
    Unsigned,
    /// `x`: in lower-case hexadecimal, without a sign.
    Hexadecimal,
}

/// A conversion of `printf` that takes an argument, as far as the standard host knows it
/// (ISO C99, 7.19.6.1p8).
#[derive(Clone, Copy)]
pub enum Conversion {
    /// `%d`, `%i`, `%u`, `%x`, `%ld`, `%lu` and `%lx`: a number.
    Number { style: Style, length: Length },
    /// `%c`: a number of 32 bits, modulo 256 as a byte.
    Byte,
    /// `%s`: a text.
    Text,
}

impl Length {
    // The number of bits.
    pub(crate) fn bits(self) -> u8
        ensures { result ≡ bits_of self }
    {
        match self {
            Length::Plain => 32,
            Length::Long => 64,
        }
    }

    // The number modulo 2 to the power of these bits.
    pub(crate) fn residue(self, value: Int) -> u64
        ensures { result ≡ residue value (2 ^ bits_of self) }
    {
        match self {
            Length::Plain => value.rem_euclid(1 << 32) as u64,
            Length::Long => value.rem_euclid(1 << 64) as u64,
        }
    }

    // Whether a type is an integer type of these bits, with a sign or without one.
    pub(crate) fn is_of(self, scalar: Scalar) -> bool
        ensures { result ≡ is_of_bits (bits_of self) scalar }
    {
        match scalar {
            Scalar::Whole { width, .. } => width == self.bits(),
            _ => false,
        }
    }
}

impl Conversion {
    /// The conversion that a letter behind `%` asks for, or None where it asks for none that takes an argument.
    pub fn plain(letter: u8) -> Option<Conversion>
        ensures { result ≡ plain_conversion letter }
    {
        match letter {
            b'd' | b'i' => Some(number(Style::Signed, Length::Plain)),
            b'u' => Some(number(Style::Unsigned, Length::Plain)),
            b'x' => Some(number(Style::Hexadecimal, Length::Plain)),
            b'c' => Some(Conversion::Byte),
            b's' => Some(Conversion::Text),
            _ => None,
        }
    }

    /// The conversion that a letter behind `%l` asks for, or None where it asks for none.
    pub fn long(letter: u8) -> Option<Conversion>
        ensures { result ≡ long_conversion letter }
    {
        match letter {
            b'd' => Some(number(Style::Signed, Length::Long)),
            b'u' => Some(number(Style::Unsigned, Length::Long)),
            b'x' => Some(number(Style::Hexadecimal, Length::Long)),
            _ => None,
        }
    }
}

// A conversion of a number.
fn number(style: Style, length: Length) -> Conversion
    ensures { result ≡ Conversion.Number style length }
{
    Conversion::Number { style, length }
}

ghost use Rattle.std.specs.Prelude.{◌≡◌, IsTrue, slice_get, option_map};
ghost use Rattle.cx_core.specs.Conversions.{width_of_basic, is_signed, scalar_of_basic, scalar_of_pointer, basic_of, basic_of_enum, rank, precision, without_sign, higher_rank, promoted_basic, promoted, unsigned_of, common_basic, common_mixed, common_type, scalar_of, IsIntegerType, IsPromoted};
ghost use Rattle.cx_core.specs.Trees.{form_of_type};
ghost use Rattle.cx_core.specs.Views.{view_type, view_types};

use crate::ty::{Basic, Ty, TyForm, Types};
use cr_base::Scalar;

/// The type of a value of integer type after the integer promotions (ISO C99, 6.3.1.1p2). The width is that
/// of a bit-field in bits, and None for what isn't one.
pub fn promote(t: &Ty, width: Option<u32>, types: &Types) -> Ty
    requires { IsIntegerType (view_types types.now) (view_type t.now) }
    ensures { view_type result ≡ promoted (view_types types.now) (view_type t.now) width }
{
    let Some(which) = basic_of(t, types) else {
        unreachable!()
    };
    Ty::basic(promoted_basic(which, width))
}

/// The common type of two values of promoted integer types (ISO C99, 6.3.1.8).
pub fn usual(a: &Ty, b: &Ty) -> Ty
    requires { IsPromoted (view_type a.now) × IsPromoted (view_type b.now) }
    ensures { view_type result ≡ common_type (view_type a.now) (view_type b.now) }
{
    let TyForm::Basic(first) = &a.form else {
        unreachable!()
    };
    let TyForm::Basic(second) = &b.form else {
        unreachable!()
    };
    Ty::basic(common_basic(*first, *second))
}

/// The scalar type that memory sees in a type (ISO C99, 6.2.5p21), or None where the type isn't scalar.
pub fn scalar_of(t: &Ty, types: &Types) -> Option<Scalar>
    ensures { result ≡ scalar_of (view_types types.now) (form_of_type (view_type t.now)) }
{
    match &t.form {
        TyForm::Pointer(to) => Some(scalar_of_pointer(to.get())),
        _ => Some(basic_of(t, types)?.scalar()),
    }
}

fn scalar_of_pointer(to: &Ty) -> Scalar
    ensures { result ≡ scalar_of_pointer (view_type to.now) }
{
    match &to.form {
        TyForm::Function(_) => Scalar::Code,
        _ => Scalar::Object,
    }
}

// The basic type with which an enumerated type is compatible (6.7.2.2p4), where there is such a type.
pub(crate) fn basic_of_enum(types: &Types, number: u32) -> Option<Basic>
    ensures { result ≡ option_map basic_of_enum (slice_get (view_types types.now).enums number) }
{
    match types.enums.get(number as usize) {
        Some(&true) => Some(Basic::Int),
        Some(&false) => Some(Basic::Unsigned),
        None => None,
    }
}

/// The basic type that an integer type is, or with which it is compatible (ISO C99, 6.7.2.2p4), or None
/// for another type.
pub fn basic_of(t: &Ty, types: &Types) -> Option<Basic>
    ensures { result ≡ basic_of (view_types types.now) (form_of_type (view_type t.now)) }
{
    match &t.form {
        TyForm::Basic(which) => Some(*which),
        TyForm::Enum(number) => basic_of_enum(types, *number),
        _ => None,
    }
}

impl Basic {
    /// The width in bits, with the sign bit (ISO C99, 6.2.6.2p6).
    pub fn width(self) -> u32
        ensures { result ≡ width_of_basic self }
    {
        match self {
            Basic::Truth | Basic::Char | Basic::SignedChar | Basic::UnsignedChar => 8,
            Basic::Short | Basic::UnsignedShort => 16,
            Basic::Int | Basic::Unsigned => 32,
            Basic::Long | Basic::UnsignedLong | Basic::LongLong | Basic::UnsignedLongLong => 64,
        }
    }

    /// Whether the type has negative values (ISO C99, 6.2.5p4).
    pub fn is_signed(self) -> bool
        ensures { result ≡ is_signed self }
    {
        match self {
            Basic::Char
            | Basic::SignedChar
            | Basic::Short
            | Basic::Int
            | Basic::Long
            | Basic::LongLong => true,
            _ => false,
        }
    }

    /// The scalar type that memory sees in it.
    pub fn scalar(self) -> Scalar
        ensures { result ≡ scalar_of_basic self }
    {
        match self {
            Basic::Truth => Scalar::Truth,
            Basic::Char | Basic::SignedChar => Scalar::Whole {
                width: 8,
                signed: true,
            },
            Basic::UnsignedChar => Scalar::Whole {
                width: 8,
                signed: false,
            },
            Basic::Short => Scalar::Whole {
                width: 16,
                signed: true,
            },
            Basic::UnsignedShort => Scalar::Whole {
                width: 16,
                signed: false,
            },
            Basic::Int => Scalar::Whole {
                width: 32,
                signed: true,
            },
            Basic::Unsigned => Scalar::Whole {
                width: 32,
                signed: false,
            },
            Basic::Long | Basic::LongLong => Scalar::Whole {
                width: 64,
                signed: true,
            },
            Basic::UnsignedLong | Basic::UnsignedLongLong => Scalar::Whole {
                width: 64,
                signed: false,
            },
        }
    }

    /// The conversion rank (ISO C99, 6.3.1.1p1): 0 for `_Bool`, 3 for `int`, 5 for `long long`.
    pub fn rank(self) -> u32
        ensures { result ≡ rank self }
    {
        match self {
            Basic::Truth => 0,
            Basic::Char | Basic::SignedChar | Basic::UnsignedChar => 1,
            Basic::Short | Basic::UnsignedShort => 2,
            Basic::Int | Basic::Unsigned => 3,
            Basic::Long | Basic::UnsignedLong => 4,
            Basic::LongLong | Basic::UnsignedLongLong => 5,
        }
    }

    /// How many bits a value has beside its sign (ISO C99, 6.2.6.2p6): of the type, or of a bit-field of
    /// so many bits.
    pub fn precision(self, width: Option<u32>) -> u32
        ensures { result ≡ precision self width }
    {
        match (width, self) {
            (Some(bits), _) => self.without_sign(bits),
            (None, Basic::Truth) => 1,
            (None, _) => self.without_sign(self.width()),
        }
    }

    fn without_sign(self, width: u32) -> u32
        ensures { result ≡ without_sign (is_signed self) width }
    {
        if self.is_signed() {
            width.saturating_sub(1)
        } else {
            width
        }
    }

    // The unsigned type that corresponds to a signed one (6.2.5p6).
    fn unsigned(self) -> Basic
        ensures { result ≡ unsigned_of self }
    {
        match self {
            Basic::Truth => Basic::Truth,
            Basic::Char | Basic::SignedChar | Basic::UnsignedChar => Basic::UnsignedChar,
            Basic::Short | Basic::UnsignedShort => Basic::UnsignedShort,
            Basic::Int | Basic::Unsigned => Basic::Unsigned,
            Basic::Long | Basic::UnsignedLong => Basic::UnsignedLong,
            Basic::LongLong | Basic::UnsignedLongLong => Basic::UnsignedLongLong,
        }
    }
}

/// The basic type of a value of integer type after the integer promotions (ISO C99, 6.3.1.1p2): of a type, or of
/// a bit-field of so many bits.
pub fn promoted_basic(which: Basic, width: Option<u32>) -> Basic
    ensures { result ≡ promoted_basic which width }
{
    if which.rank() > Basic::Int.rank() {
        which
    } else if which.precision(width) <= Basic::Int.precision(None) {
        Basic::Int
    } else {
        Basic::Unsigned
    }
}

/// The common type of two promoted types (ISO C99, 6.3.1.8).
pub fn common_basic(first: Basic, second: Basic) -> Basic
    ensures { result ≡ common_basic first second }
{
    if first.is_signed() == second.is_signed() {
        higher_rank(first, second)
    } else if first.is_signed() {
        common_mixed(second, first)
    } else {
        common_mixed(first, second)
    }
}

fn higher_rank(first: Basic, second: Basic) -> Basic
    ensures { result ≡ higher_rank first second }
{
    if first.rank() <= second.rank() {
        second
    } else {
        first
    }
}

fn common_mixed(unsigned: Basic, signed: Basic) -> Basic
    ensures { result ≡ common_mixed unsigned signed }
{
    if signed.rank() <= unsigned.rank() {
        unsigned
    } else if unsigned.precision(None) <= signed.precision(None) {
        signed
    } else {
        signed.unsigned()
    }
}

ghost use Rattle.std.specs.Prelude.{◌≡◌, ◌↔◌, ◌+◌, ◌-◌, ◌^◌, ◌<◌, true, false, pos, neg_ℤ, ◌≤ℤ◌, ◌<ℤ◌, IsTrue};
ghost use Rattle.cr_base.specs.Scalar.{is_width, IsWhole, IsInteger, IsInRange, residue, modulus, from_half, wrapped, converted};

/// A whole number of the meanings. It holds each value of each integer type of the profile.
pub type Int = i128;

/// A scalar type, as memory sees it (ISO C99, 6.2.5).
#[derive(Clone, Copy, Debug, PartialEq, Eq)]
pub enum Scalar {
    /// `_Bool`: one byte, 0 or 1.
    Truth,
    /// Any other integer type; the width is 8, 16, 32 or 64 bits.
    Whole { width: u8, signed: bool },
    /// A pointer to an object type or an incomplete type.
    Object,
    /// A pointer to a function.
    Code,
}

/// The number reduced modulo 2^width into the range of the type (ISO C99, 6.3.1.3; where the target
/// is signed, the standard leaves the choice and this is the profile's).
pub fn wrap(scalar: Scalar, value: Int) -> Int
    requires { IsWhole scalar }
    ensures in_range { IsInRange scalar result }
    ensures congruent { residue result (modulus scalar) ≡ residue value (modulus scalar) }
    ensures value { result ≡ wrapped scalar value }
{
    match scalar {
        Scalar::Whole { width, signed } => wrap_whole(width, signed, value),
        _ => value,
    }
}

/// Whether the number is a value of the type (ISO C99, 6.2.6.2).
pub fn fits(scalar: Scalar, value: Int) -> bool
    requires { IsInteger scalar }
    ensures { IsTrue result ↔ IsInRange scalar value }
{
    match scalar {
        Scalar::Whole { width, signed } => fits_whole(width, signed, value),
        _ => is_within(0, value, 2),
    }
}

/// The number converted to an integer type (ISO C99, 6.3.1.2 and 6.3.1.3).
pub fn convert(scalar: Scalar, value: Int) -> Int
    requires { IsInteger scalar }
    ensures in_range { IsInRange scalar result }
    ensures value { result ≡ converted scalar value }
{
    match scalar {
        Scalar::Truth => Int::from(value != 0),
        _ => wrap(scalar, value),
    }
}

// Half of 2^width: the first number above the values of a signed type.
fn half_of(width: u8) -> u64
    requires { IsTrue (is_width width) }
    ensures { result ≡ 2 ^ (width - 1) }
{
    1u64 << (width - 1)
}

#[inline(always)]
fn wrap_whole(width: u8, signed: bool, value: Int) -> Int
    requires { IsTrue (is_width width) }
    ensures in_range { IsInRange (Scalar.Whole width signed) result }
    ensures congruent { residue result (2 ^ width) ≡ residue value (2 ^ width) }
    ensures value { result ≡ wrapped (Scalar.Whole width signed) value }
{
    if signed {
        wrap_signed_whole(width, value)
    } else {
        wrap_unsigned(width, value)
    }
}

// A case for each width, so that no division is by a variable.
#[inline(always)]
fn wrap_signed_whole(width: u8, value: Int) -> Int
    requires { IsTrue (is_width width) }
    ensures in_range { IsInRange (Scalar.Whole width true) result }
    ensures value { result ≡ wrapped (Scalar.Whole width true) value }
{
    match width {
        8 => wrap_signed(1 << 7, value),
        16 => wrap_signed(1 << 15, value),
        32 => wrap_signed(1 << 31, value),
        _ => wrap_signed(1 << 63, value),
    }
}

// The number modulo 2^width. A case for each width, so that no division is by a variable.
#[inline(always)]
fn wrap_unsigned(width: u8, value: Int) -> Int
    requires { IsTrue (is_width width) }
    ensures in_range { IsInRange (Scalar.Whole width false) result }
    ensures value { result ≡ pos (residue value (2 ^ width)) }
{
    match width {
        8 => value.rem_euclid(1 << 8),
        16 => value.rem_euclid(1 << 16),
        32 => value.rem_euclid(1 << 32),
        _ => value.rem_euclid(1 << 64),
    }
}

fn fits_whole(width: u8, signed: bool, value: Int) -> bool
    requires { IsTrue (is_width width) }
    ensures { IsTrue result ↔ IsInRange (Scalar.Whole width signed) value }
{
    if signed {
        let half = Int::from(half_of(width));
        is_within(-half, value, half)
    } else {
        is_within(0, value, 1i128 << width)
    }
}

// The number reduced modulo 2 * half, from -half to half - 1.
#[inline(always)]
fn wrap_signed(half: u64, value: Int) -> Int
    requires { 0 < half }
    ensures in_range { (neg_ℤ (pos half) ≤ℤ result) × (result <ℤ pos half) }
    ensures value { result ≡ from_half half (residue value (half + half)) }
{
    let modulus = 2 * Int::from(half);
    let rest = value.rem_euclid(modulus);
    if rest < Int::from(half) {
        rest
    } else {
        rest - modulus
    }
}

// Whether low <= value < above.
fn is_within(low: Int, value: Int, above: Int) -> bool
    ensures { IsTrue result ↔ ((low ≤ℤ value) × (value <ℤ above)) }
{
    low <= value && value < above
}

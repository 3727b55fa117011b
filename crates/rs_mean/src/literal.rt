ghost use Rattle.std.specs.Prelude.{◌≡◌, ◌&&◌, int_le, int_lt};
ghost use Rattle.rs_mean.specs.Scalars.{fits_integer, literal_fits};
ghost use Rattle.rs_tree.specs.Views.{ty_view};

use cr_base::Int;
use rs_tree::{IntegerTy, RTy};

/// Whether a number can be written as a literal of a type: the type is an integer type, and the number
/// a value of it (the Rust Reference, "Integer literals" and "Numeric types").
pub fn literal_fits(ty: &RTy, value: Int) -> bool
    ensures { result ≡ literal_fits (ty_view ty.now) value }
{
    match ty {
        RTy::Integer(integer) => fits_integer(*integer, value),
        _ => false,
    }
}

/// Whether a number is a value of an integer type (the Rust Reference, "Numeric types").
pub fn fits_integer(ty: IntegerTy, value: Int) -> bool
    ensures { result ≡ fits_integer ty value }
{
    match ty {
        IntegerTy::I8 => is_within(-0x80, value, 0x80),
        IntegerTy::I16 => is_within(-0x8000, value, 0x8000),
        IntegerTy::I32 => is_within(-0x8000_0000, value, 0x8000_0000),
        IntegerTy::I64 | IntegerTy::Isize => is_within(
            -0x8000_0000_0000_0000,
            value,
            0x8000_0000_0000_0000,
        ),
        IntegerTy::U8 => is_within(0, value, 0x100),
        IntegerTy::U16 => is_within(0, value, 0x1_0000),
        IntegerTy::U32 => is_within(0, value, 0x1_0000_0000),
        IntegerTy::U64 | IntegerTy::Usize => is_within(0, value, 0x1_0000_0000_0000_0000),
    }
}

// Whether low <= value < above.
fn is_within(low: Int, value: Int, above: Int) -> bool
    ensures { result ≡ (int_le low value && int_lt value above) }
{
    low <= value && value < above
}

ghost use Rattle.std.specs.Prelude.{◌≡◌, ◌&&◌, int_le, int_lt};
ghost use Rattle.straight_rust_mean.specs.Scalars.{literal_fits};
ghost use Rattle.straight_rust_tree.specs.View.{ty_view};

use cr_base::Int;
use straight_rust_tree::RTy;

/// Whether a number can be written as a literal of a type: the type is an integer type, and the number
/// a value of it (the Rust Reference, "Integer literals" and "Numeric types").
pub fn literal_fits(ty: &RTy, value: Int) -> bool
    ensures { result ≡ literal_fits (ty_view ty.now) value }
{
    match ty {
        RTy::I8 => is_within(-0x80, value, 0x80),
        RTy::I16 => is_within(-0x8000, value, 0x8000),
        RTy::I32 => is_within(-0x8000_0000, value, 0x8000_0000),
        RTy::I64 | RTy::Isize => is_within(-0x8000_0000_0000_0000, value, 0x8000_0000_0000_0000),
        RTy::U8 => is_within(0, value, 0x100),
        RTy::U16 => is_within(0, value, 0x1_0000),
        RTy::U32 => is_within(0, value, 0x1_0000_0000),
        RTy::U64 | RTy::Usize => is_within(0, value, 0x1_0000_0000_0000_0000),
        RTy::Bool => false,
    }
}

// Whether low <= value < above.
fn is_within(low: Int, value: Int, above: Int) -> bool
    ensures { result ≡ (int_le low value && int_lt value above) }
{
    low <= value && value < above
}

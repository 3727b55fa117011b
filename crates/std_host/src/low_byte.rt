ghost use Rattle.std.specs.Prelude.{◌≡◌};
ghost use Rattle.cr_base.specs.Scalar.{residue};

use cr_base::Int;

// The number modulo 256, as `putchar` and `%c` write it.
pub(crate) fn low_byte(value: Int) -> u8
    ensures { result ≡ residue value 256 }
{
    value.rem_euclid(256) as u8
}

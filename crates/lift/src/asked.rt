//! What surrounds the parts of an expression (ISO C99, 6.5).

ghost use Rattle.std.specs.Prelude.{◌≡◌, true, false};
ghost use Rattle.cx_core.specs.Views.{view_expr};
ghost use Rattle.lift_held.specs.Held as spec;

use cx_core::CoreExpr;
use lift_held::{Asked, is_void};

/// An operand whose value is used.
pub fn operand() -> Asked
    ensures { result ≡ spec.operand }
{
    operand_before(false)
}

/// An operand whose value is used, with a call to its right or without.
pub fn operand_before(call_behind: bool) -> Asked
    ensures { result ≡ spec.operand_before call_behind }
{
    Asked {
        used: true,
        pinned: call_behind,
        is_base: false,
    }
}

/// What is evaluated alone, whose value is used or not.
pub fn part_of(used: bool) -> Asked
    ensures { result ≡ spec.part_of used }
{
    Asked {
        used,
        pinned: false,
        is_base: false,
    }
}

/// What a member is of, a bit-field or another.
pub fn whole_of(is_bits: bool) -> Asked
    ensures { result ≡ record { used = true; pinned = false; is_base = is_bits } }
{
    Asked {
        used: true,
        pinned: false,
        is_base: is_bits,
    }
}

/// A full expression: its value is used where it has one.
pub fn full(e: &CoreExpr) -> Asked
    ensures { result ≡ spec.full (view_expr e.now) }
{
    part_of(!is_void(&e.ty))
}

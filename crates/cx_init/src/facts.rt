//! What a value is to its place (ISO C99, 6.7.8p11).

ghost use Rattle.std.specs.Prelude.{◌≡◌, option_map};
ghost use Rattle.cx_core.specs.Views.{view_types};
ghost use Rattle.cx_operands.specs.Views.{view_operand};
ghost use Rattle.cx_parts.specs.Views.{view_at};
ghost use Rattle.cx_rules.specs.Pieces.{assignable_at};

use cx_core::Types;
use cx_operands::Operand;
use cx_pairs::may_be_assigned;
use cx_parts::At;

/// Whether the value of an operand may be assigned to the part that it lands at, where there is one (ISO C99, 6.7.8p11).
pub fn assignable_at(types: &Types, value: &Operand, at: Option<&At>) -> bool
    ensures { result ≡ assignable_at (view_types types.now) (view_operand value.now) (option_map (λ one. view_at one.now) at.entry) }
{
    match at {
        None => true,
        Some(at) => may_be_assigned(types, at.ty.get(), value),
    }
}

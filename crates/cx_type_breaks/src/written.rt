//! Constants that are written in declarations: lengths, widths and values of enumerators (ISO C99, 6.6).

ghost use Rattle.std.specs.Prelude.{◌≡◌, option_map};
ghost use Rattle.cx_core.specs.Views.{view_types};
ghost use Rattle.cx_kinds.specs.Known.{IsKnown, types_in};
ghost use Rattle.cx_operands.specs.Views.{view_operand};
ghost use Rattle.cx_type_breaks.specs.Written.{is_unconstant, constant_written, lacks_written, is_fixed_written};

use cr_base::Int;
use cx_breaks::{is_fixed, lacks_value};
use cx_core::Types;
use cx_kinds::Known;
use cx_operands::{Operand, operand_constant};

// Whether what is written isn't an integer constant expression.
#[tactic(auto, unfolding(crate::specs::Written::is_unconstant))]
pub(crate) fn is_unconstant(types: &Types, written: Option<&Operand>) -> bool
    ensures { result ≡ is_unconstant (view_types types.now) (option_map (λ one. view_operand one.now) written.entry) }
{
    match written {
        None => false,
        Some(one) => operand_constant(types, one).is_none(),
    }
}

// The value of what is written, where it is an integer constant expression.
#[tactic(auto, unfolding(crate::specs::Written::constant_written))]
pub(crate) fn constant_written(types: &Types, written: Option<&Operand>) -> Option<Int>
    ensures { result ≡ constant_written (view_types types.now) (option_map (λ one. view_operand one.now) written.entry) }
{
    match written {
        None => None,
        Some(one) => operand_constant(types, one),
    }
}

// Whether its value can't be taken.
#[tactic(auto, unfolding(crate::specs::Written::lacks_written))]
pub(crate) fn lacks_written(known: Known, written: Option<&Operand>) -> bool
    requires { IsKnown known }
    ensures { result ≡ lacks_written (types_in known.entry) (option_map (λ one. view_operand one.now) written.entry) }
{
    match written {
        None => false,
        Some(one) => lacks_value(known, one),
    }
}

// Whether it is an array whose address can't be taken.
#[tactic(auto, unfolding(crate::specs::Written::is_fixed_written))]
pub(crate) fn is_fixed_written(written: Option<&Operand>) -> bool
    ensures { result ≡ is_fixed_written (option_map (λ one. view_operand one.now) written.entry) }
{
    match written {
        None => false,
        Some(one) => is_fixed(one),
    }
}

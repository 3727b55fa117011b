//! Operands of expressions that were made.

ghost use Rattle.std.specs.Prelude.{◌≡◌, false};
ghost use Rattle.cx_core.specs.Views.{view_expr};
ghost use Rattle.cx_operands.specs.Views.{view_operand};
ghost use Rattle.cx_rules.specs.Operands.{a_value, a_place};

use cr_base::Boxed;
use cx_core::CoreExpr;
use cx_operands::Operand;
use cx_rules::OperandKind;

/// A value.
pub fn a_value(core: Boxed<CoreExpr>) -> Operand
    ensures { view_operand result ≡ a_value (view_expr core) }
{
    of_kind(OperandKind::Value, core)
}

/// An lvalue, and whether the object that it names is declared `register` (ISO C99, 6.3.2.1p1).
pub fn a_place(is_register: bool, core: Boxed<CoreExpr>) -> Operand
    ensures { view_operand result ≡ a_place is_register (view_expr core) }
{
    Operand {
        kind: OperandKind::Place,
        is_register,
        core,
    }
}

/// An operand that names no object.
pub fn of_kind(kind: OperandKind, core: Boxed<CoreExpr>) -> Operand
    ensures { view_operand result ≡ record { kind = kind; is_register = false; core = view_expr core } }
{
    Operand {
        kind,
        is_register: false,
        core,
    }
}

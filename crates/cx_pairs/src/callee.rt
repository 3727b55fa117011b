//! The function that a call names (ISO C99, 6.5.2.2).

ghost use Rattle.std.specs.Prelude.{◌≡◌, option_map};
ghost use Rattle.cx_core.specs.Trees.{form_of_type};
ghost use Rattle.cx_core.specs.Views.{view_type, view_function_type};
ghost use Rattle.cx_operands.specs.Views.{view_operand};
ghost use Rattle.cx_pairs.specs.Callees.{callee_form, function_form};
ghost use Rattle.cx_rules.specs.Meanings.{callee_type};

use cx_core::{FunctionTy, Ty, TyForm};
use cx_operands::{Operand, value_type};

/// The type of the function to which an operand's value points, or None where it is no pointer to a function (ISO C99,
/// 6.5.2.2p1).
pub fn callee_of(callee: &Operand) -> Option<&FunctionTy>
    ensures { option_map (λ one. view_function_type one.now) result ≡ callee_form (option_map form_of_type (callee_type (view_operand callee.now))) }
{
    match value_type(callee).target() {
        None => None,
        Some(to) => function_of(to),
    }
}

fn function_of(t: &Ty) -> Option<&FunctionTy>
    ensures { option_map (λ one. view_function_type one.now) result ≡ function_form (form_of_type (view_type t.now)) }
{
    match &t.form {
        TyForm::Function(held) => Some(held.get()),
        _ => None,
    }
}

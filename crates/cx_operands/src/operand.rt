ghost use Rattle.std.specs.Prelude.{◌≡◌};
ghost use Rattle.cx_core.specs.Views.{view_type};
ghost use Rattle.cx_operands.specs.Views.{view_operand, view_value_type, place_value_type};
ghost use Rattle.cx_rules.specs.Operands.{value_type, value_of_place};

use crate::value_ty::ValueTy;
use cr_base::Boxed;
use cx_core::{CoreExpr, Ty, TyForm};
use cx_rules::OperandKind;

/// An expression as its parent finds it, before its value is taken (ISO C99, 6.3.2.1).
#[derive(Drop)]
pub struct Operand {
    pub kind: OperandKind,
    /// Whether the object that it names, or one of which it names a part, is declared `register`.
    pub is_register: bool,
    pub core: Boxed<CoreExpr>,
}

/// The type of an operand's value (ISO C99, 6.3.2.1p2 to p4).
pub fn value_type(operand: &Operand) -> ValueTy<'_>
    ensures { view_value_type result ≡ value_type (view_operand operand.now) }
{
    let t = &operand.core.get().ty;
    match operand.kind {
        OperandKind::Place => place_value_type(t),
        OperandKind::VoidPlace => ValueTy::Void,
        OperandKind::Value | OperandKind::Function => ValueTy::Plain(t),
    }
}

// The type of the value of an lvalue of a type: of an array that of the address of its first element.
fn place_value_type(t: &Ty) -> ValueTy<'_>
    ensures { view_value_type result ≡ place_value_type (view_type t.now) }
{
    match &t.form {
        TyForm::Array(element, _) => ValueTy::PointerTo(element.get()),
        _ => ValueTy::Unqualified(t),
    }
}

//! Values and string literals as operands.

ghost use Rattle.std.specs.Prelude.{◌≡◌, IfOk, length};
ghost use Rattle.cx_core.specs.Views.{view_expr, view_type};
ghost use Rattle.cx_operands.specs.Views.{view_operand};
ghost use Rattle.cx_place.specs.Placing.{text_operand};
ghost use Rattle.cx_rules.specs.Initial.{text_type};
ghost use Rattle.cx_rules.specs.Operands.{a_value};

use cr_base::{Boxed, Memory, Place};
use cx_core::{Basic, CoreExpr, Form, Ty, TyForm};
use cx_operands::Operand;
use cx_rules::OperandKind;
use std::alloc::Global;

/// A value as an operand.
pub(crate) fn a_value(core: Boxed<CoreExpr>) -> Operand
    ensures { view_operand result ≡ a_value (view_expr core) }
{
    Operand {
        kind: OperandKind::Value,
        is_register: false,
        core,
    }
}

/// The operand that a string literal is where it fills no array: its object. Refused only for want of memory.
pub(crate) fn text_operand(
    alloc: Global,
    bytes: &[u8],
    number: u32,
    place: Place,
) -> Result<Operand, Memory>
    ensures { IfOk result (λ made. view_operand made ≡ text_operand bytes.now number place) }
{
    let ty = text_type(alloc, bytes)?;
    let core = Boxed::new(
        alloc,
        CoreExpr {
            ty,
            place,
            form: Form::Object(number),
        },
    )?;
    Ok(Operand {
        kind: OperandKind::Place,
        is_register: false,
        core,
    })
}

// The type of a string literal.
fn text_type(alloc: Global, bytes: &[u8]) -> Result<Ty, Memory>
    ensures { IfOk result (λ made. view_type made ≡ text_type bytes.now) }
{
    let element = Boxed::new(
        alloc,
        Ty {
            form: TyForm::Basic(Basic::Char),
            is_const: false,
        },
    )?;
    Ok(Ty {
        form: TyForm::Array(element, Some(bytes.len() as u64)),
        is_const: false,
    })
}

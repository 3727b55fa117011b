//! Expressions that give the same whatever is stored, and those that do something (ISO C99, 6.5).

ghost use Rattle.std.specs.Prelude.{◌≡◌};
ghost use Rattle.cx_core.specs.Views.{view_expr};
ghost use Rattle.lift_held.specs.Held.{is_steady, acts};

use crate::forms::{is_held_base, is_record, is_void};
use cx_core::{CoreExpr, Form};

/// Only constants, addresses of objects and functions, and operators over these.
pub fn is_steady(e: &CoreExpr) -> bool
    ensures { result ≡ is_steady (view_expr e.now) }
{
    match &e.form {
        Form::Whole(_) | Form::Null | Form::Object(_) | Form::Code(_) => true,
        Form::Deref(of) | Form::Member(of, _) | Form::Address(of) => is_steady(of.get()),
        Form::Convert(of) | Form::Unary(_, of) => is_steady(of.get()),
        Form::Binary(_, left, right) | Form::And(left, right) | Form::Or(left, right) => {
            is_steady(left.get()) && is_steady(right.get())
        }
        Form::Comma(left, right) => is_steady(left.get()) && is_steady(right.get()),
        Form::Cond(test, first, second) => {
            is_steady(test.get()) && is_steady(first.get()) && is_steady(second.get())
        }
        _ => false,
    }
}

/// An assignment, a step, a call, a compound literal or a held operand stands in it, where its value is used or not.
pub fn acts(used: bool, e: &CoreExpr) -> bool
    ensures { result ≡ acts used (view_expr e.now) }
{
    match &e.form {
        Form::Whole(_) | Form::Null | Form::Object(_) | Form::Code(_) => false,
        Form::Load(of) | Form::Deref(of) | Form::Address(of) | Form::Unary(_, of) => {
            acts(true, of.get())
        }
        Form::Member(of, spot) => is_held_base(*spot, of.get()) || acts(true, of.get()),
        Form::Convert(of) => acts(!is_void(&e.ty), of.get()),
        Form::Binary(_, left, right) | Form::And(left, right) | Form::Or(left, right) => {
            acts(true, left.get()) || acts(true, right.get())
        }
        Form::Cond(test, first, second) => {
            (used && is_record(&e.ty))
                || acts(true, test.get())
                || acts(used, first.get())
                || acts(used, second.get())
        }
        Form::Comma(first, second) => acts(false, first.get()) || acts(used, second.get()),
        _ => true,
    }
}

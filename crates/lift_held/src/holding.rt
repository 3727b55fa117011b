//! Which nodes are held (ISO C99, 6.5p2, 6.5.2.2p10 and 6.5.13 to 6.5.16).

ghost use Rattle.std.specs.Prelude.{◌≡◌};
ghost use Rattle.cx_core.specs.Views.{view_expr};
ghost use Rattle.lift_held.specs.Held.{is_taken_node, is_always_held_node, is_held};

use crate::effects::{acts, is_steady};
use crate::asked::Asked;
use crate::forms::{is_bit_field, is_lvalue, is_named, is_record};
use cx_core::{CoreExpr, Form};

/// A node whose own value is to be taken when it is evaluated, if it is used.
pub fn is_taken(e: &CoreExpr) -> bool
    ensures { result ≡ is_taken_node (view_expr e.now) }
{
    match &e.form {
        Form::Call(_, _) | Form::CallBy(_, _) | Form::Step { .. } => true,
        Form::Assign(_, _) | Form::AssignBy(_, _, _, _) => true,
        Form::And(_, second) | Form::Or(_, second) => acts(true, second.get()),
        Form::Cond(_, first, second) => {
            is_record(&e.ty) || acts(true, first.get()) || acts(true, second.get())
        }
        _ => false,
    }
}

// A call that gives a structure or union, and what stores in a bit-field, is held whether its value is used or not.
fn is_always_held(e: &CoreExpr) -> bool
    ensures { result ≡ is_always_held_node (view_expr e.now) }
{
    match &e.form {
        Form::Call(_, _) | Form::CallBy(_, _) => is_record(&e.ty),
        Form::Step { on, .. } => is_bit_field(on.get()),
        Form::Assign(target, _) | Form::AssignBy(_, _, target, _) => is_bit_field(target.get()),
        _ => false,
    }
}

/// A node that is held in a temporary.
pub fn is_held(asked: Asked, e: &CoreExpr) -> bool
    ensures { result ≡ is_held asked (view_expr e.now) }
{
    is_always_held(e)
        || (asked.used && (is_taken(e) || (asked.pinned && !is_steady(e))))
        || (asked.is_base && is_lvalue(e) && !is_named(e))
}

//! Assignments, `op=`, `++` and `--` (ISO C99, 6.5.2.4, 6.5.3.1 and 6.5.16). Each maker is refused only for want of memory.

ghost use Rattle.std.specs.Prelude.{◌≡◌, ◌++◌, map, IfOk};
ghost use Rattle.cx_core.specs.Views.{view_expr, view_type};
ghost use Rattle.lift_nodes.specs.Texts as text;
ghost use Rattle.cx_core.specs.Typing.{width_of};
ghost use Rattle.lift_forms.specs.Given.{nothing};
ghost use Rattle.lift_stores.specs.Fits.{LvalueFits};
ghost use Rattle.lift_stores.specs.Names.{lift_names};
ghost use Rattle.lift_stores.specs.Views.{text_view};
ghost use Rattle.rs_items.specs.Known.{view_names};
ghost use Rattle.rs_tree.specs.Views.{stmt_view};

use cr_base::{Items, Memory};
use cx_core::{CoreExpr, Form, Op2, Ty};
use lift_forms_code::RGiven;
use lift_stores::{
    Change, Written, changed_behind, changed_first, promoted_type, step_by_one, stored,
    stored_value, target_of, target_type, type_in,
};
use rs_items::NameMap;
use rs_tree::RStmt;
use std::alloc::Global;

// The statements of both operands, whose values are told.
fn bodies(first: Items<RStmt>, second: Items<RStmt>, next: u32) -> Result<Written, Memory>
    ensures { IfOk result (λ made. text_view made ≡ record { body = map stmt_view first ++ map stmt_view second; given = nothing; next = next }) }
{
    let mut body = first;
    body.append(second)?;
    Ok(Written {
        body,
        given: RGiven::Nothing,
        next,
    })
}

/// A simple assignment.
pub fn assigned(
    alloc: Global,
    names: &NameMap,
    used: bool,
    ty: &Ty,
    to: &CoreExpr,
    first: Written,
    second: Written,
) -> Result<Written, Memory>
    requires { LvalueFits (view_expr to.now) }
    ensures { IfOk result (λ made. text_view made ≡
        text.assigned (lift_names (view_names names.now)) used (view_type ty.now) (view_expr to.now) (text_view first) (text_view second)) }
{
    let target = target_of(alloc, names, ty, to, first.given)?;
    let value = stored_value(alloc, &target, second.given)?;
    let both = bodies(first.body, second.body, second.next)?;
    stored(alloc, names, used, target, value, both)
}

/// A compound assignment.
pub fn assigned_by(
    alloc: Global,
    names: &NameMap,
    used: bool,
    ty: &Ty,
    op: Op2,
    computes: &Ty,
    to: &CoreExpr,
    from: &CoreExpr,
    first: Written,
    second: Written,
) -> Result<Written, Memory>
    requires { LvalueFits (view_expr to.now) }
    ensures { IfOk result (λ made. text_view made ≡
        text.assigned_by (lift_names (view_names names.now)) used (view_type ty.now) op (view_type computes.now) (view_expr to.now) (view_expr from.now) (text_view first) (text_view second)) }
{
    let target = target_of(alloc, names, ty, to, first.given)?;
    let change = Change {
        op,
        computes: type_in(alloc, names, computes)?,
        right_ty: type_in(alloc, names, &from.ty)?,
        right: second.given,
    };
    let both = bodies(first.body, second.body, second.next)?;
    changed_first(alloc, names, used, target, change, both)
}

// The width of a bit-field.
fn width_of(e: &CoreExpr) -> Option<u32>
    ensures { result ≡ width_of (view_expr e.now) }
{
    match &e.form {
        Form::Member(_, spot) if spot.width > 0 => Some(spot.width),
        _ => None,
    }
}

/// `++` or `--`, behind its operand or in front of it.
pub fn stepped_by_one(
    alloc: Global,
    names: &NameMap,
    ty: &Ty,
    used: bool,
    up: bool,
    post: bool,
    on: &CoreExpr,
    one: Written,
) -> Result<Written, Memory>
    requires { LvalueFits (view_expr on.now) }
    ensures { IfOk result (λ made. text_view made ≡
        text.stepped_by_one (lift_names (view_names names.now)) (view_type ty.now) used up post (view_expr on.now) (text_view one)) }
{
    let Written { body, given, next } = one;
    let target = target_of(alloc, names, ty, on, given)?;
    let computes = promoted_type(alloc, target_type(&target), width_of(on))?;
    let change = step_by_one(alloc, up, computes)?;
    let before = Written {
        body,
        given: RGiven::Nothing,
        next,
    };
    if used && post {
        changed_behind(alloc, names, target, change, before)
    } else {
        changed_first(alloc, names, used, target, change, before)
    }
}

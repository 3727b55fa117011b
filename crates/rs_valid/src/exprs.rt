//! Valid places and expressions.

ghost use Rattle.std.specs.Prelude.{◌≡◌, map, option_map};
ghost use Rattle.rs_text.specs.Forms as forms;
ghost use Rattle.rs_text.specs.Tree.{exprs, tys, option_ty};
ghost use Rattle.rs_text.specs.Valid as valid;
ghost use Rattle.rs_tree.specs.Views.{ty_view, place_view, expr_view};

use crate::types::{are_valid_tys, is_valid_result, is_valid_target, is_valid_ty};
use crate::words::{is_identifier, is_valid_path};
use cr_base::{Int, Items};
use rs_tree::{RExpr, RPlace};

/// Whether a literal's number without its sign is one of 127 bits.
pub(crate) fn is_value(value: Int) -> bool
    ensures { result ≡ valid.is_value value }
{
    value != Int::MIN
}

fn is_literal(expr: &RExpr) -> bool
    ensures { result ≡ forms.is_literal (expr_view expr.now) }
{
    match expr {
        RExpr::Literal(_, _) => true,
        _ => false,
    }
}

#[cycle(exprs)]
pub(crate) fn is_valid_place(place: &RPlace) -> bool
    ensures { result ≡ valid.valid_place (place_view place.now) }
{
    match place {
        RPlace::Local(name) => is_identifier(name),
        RPlace::Static(path) => is_valid_path(path),
        RPlace::Deref(operand) => is_valid_expr(operand.get()),
        RPlace::Field(of, name) => is_valid_place(of.get()) && is_identifier(name),
    }
}

#[cycle(exprs)]
pub(crate) fn is_valid_expr(expr: &RExpr) -> bool
    ensures { result ≡ valid.valid_expr (expr_view expr.now) }
{
    match expr {
        RExpr::Literal(value, _) => is_value(*value),
        RExpr::Truth(_) | RExpr::NoFunction => true,
        RExpr::Read(place) | RExpr::AddressOf(place) => is_valid_place(place.get()),
        RExpr::Call(path, args) => is_valid_path(path) && are_valid_exprs(args),
        RExpr::CallBy(operand, args) => is_valid_expr(operand.get()) && are_valid_exprs(args),
        RExpr::Wrapping(operand, _, arg) => is_valid_expr(operand.get())
            && is_valid_expr(arg.get()),
        RExpr::WrappingNeg(operand) => is_valid_expr(operand.get()),
        RExpr::Offset(operand, arg) => is_valid_expr(operand.get()) && is_valid_expr(arg.get()),
        RExpr::OffsetFrom(operand, arg) => is_valid_expr(operand.get()) && is_valid_expr(arg.get()),
        RExpr::IsNull(operand) => is_valid_expr(operand.get()),
        RExpr::IsNone(operand) => is_valid_expr(operand.get()),
        RExpr::NullPointer(ty) => is_valid_target(ty.get()),
        RExpr::SomeFunction(path, params, given) => {
            is_valid_path(path) && are_valid_tys(params) && is_valid_result(given)
        }
        RExpr::Transmute(from, to, operand) => {
            is_valid_ty(from.get()) && is_valid_ty(to.get()) && is_valid_expr(operand.get())
        }
        RExpr::Neg(operand) => !is_literal(operand.get()) && is_valid_expr(operand.get()),
        RExpr::Not(operand) => is_valid_expr(operand.get()),
        RExpr::Cast(operand, ty) => is_valid_expr(operand.get()) && is_valid_ty(ty.get()),
        RExpr::Binary(left, _, right) => is_valid_expr(left.get()) && is_valid_expr(right.get()),
        RExpr::And(left, right) => is_valid_expr(left.get()) && is_valid_expr(right.get()),
        RExpr::Or(left, right) => is_valid_expr(left.get()) && is_valid_expr(right.get()),
        RExpr::Choose(condition, if_true, if_false) => {
            is_valid_expr(condition.get())
                && is_valid_expr(if_true.get())
                && is_valid_expr(if_false.get())
        }
    }
}

#[cycle(exprs)]
fn are_valid_exprs(args: &Items<RExpr>) -> bool
    ensures { result ≡ valid.valid_exprs (exprs (map expr_view args.now)) }
{
    for arg in args.as_slice() {
        if !is_valid_expr(arg) {
            return false;
        }
    }
    true
}

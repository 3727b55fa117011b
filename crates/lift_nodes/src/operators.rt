//! Operators and conversions (ISO C99, 6.3 and 6.5). Each maker is refused only for want of memory.

ghost use Rattle.std.specs.Prelude.{◌≡◌, [], map, if◌then◌else◌, IfOk};
ghost use Rattle.cx_core.specs.Views.{view_expr, view_type, view_put, puts_of};
ghost use Rattle.lift_exprs.specs.Lifted.{operand_of};
ghost use Rattle.lift_exprs.specs.Names.{type_in};
ghost use Rattle.lift_exprs.specs.Objects.{object_at, zeroed_where};
ghost use Rattle.lift_forms.specs.Given.{nothing};
ghost use Rattle.lift_forms.specs.Operators.{unary_form, converted};
ghost use Rattle.lift_forms_code.specs.Views.{given_view};
ghost use Rattle.lift_held.specs.Held.{is_void};
ghost use Rattle.lift_nodes.specs.Texts as text;
ghost use Rattle.lift_stores.specs.Names.{lift_names};
ghost use Rattle.lift_stores.specs.Views.{text_view};
ghost use Rattle.rs_items.specs.Known.{view_names};
ghost use Rattle.rs_tree.specs.Views.{stmt_view};

use cr_base::{Items, Memory};
use cx_core::{CoreExpr, Op1, Op2, Put, Ty};
use lift_forms_code::{RGiven, binary_form, converted, unary_form};
use lift_held::is_void;
use lift_objects::{is_zeroed, zeroed};
use lift_stores::{Written, object_at, type_in};
use rs_items::NameMap;
use rs_tree::RStmt;
use std::alloc::Global;

/// A unary operator.
pub fn unary_node(
    alloc: Global,
    names: &NameMap,
    op: Op1,
    from: &CoreExpr,
    one: Written,
) -> Result<Written, Memory>
    ensures { IfOk result (λ made. text_view made ≡
        text.then_gives (unary_form op (operand_of (lift_names (view_names names.now)) (view_expr from.now) (text_view one).given)) (text_view one)) }
{
    let Written { body, given, next } = one;
    let ty = type_in(alloc, names, &from.ty)?;
    let given = unary_form(alloc, op, ty.get(), given)?;
    Ok(Written { body, given, next })
}

/// A binary operator whose operands are both evaluated.
pub fn binary_node(
    alloc: Global,
    names: &NameMap,
    op: Op2,
    left: &CoreExpr,
    right: &CoreExpr,
    first: Written,
    second: Written,
) -> Result<Written, Memory>
    ensures { IfOk result (λ made. text_view made ≡
        text.binary_node (lift_names (view_names names.now)) op (view_expr left.now) (view_expr right.now) (text_view first) (text_view second)) }
{
    let left_ty = type_in(alloc, names, &left.ty)?;
    let right_ty = type_in(alloc, names, &right.ty)?;
    let next = second.next;
    let mut body = first.body;
    body.append(second.body)?;
    let given = binary_form(
        alloc,
        op,
        left_ty.get(),
        first.given,
        right_ty.get(),
        second.given,
    )?;
    Ok(Written { body, given, next })
}

// What is given as a value of a type, or nothing in the type `void`.
fn converted_given(
    alloc: Global,
    names: &NameMap,
    ty: &Ty,
    from: &CoreExpr,
    given: RGiven,
) -> Result<RGiven, Memory>
    ensures { IfOk result (λ made. given_view made ≡
        if is_void (view_type ty.now) then nothing
        else converted (type_in (lift_names (view_names names.now)) (view_type ty.now)) (operand_of (lift_names (view_names names.now)) (view_expr from.now) (given_view given))) }
{
    if is_void(ty) {
        return Ok(RGiven::Nothing);
    }
    let to = type_in(alloc, names, ty)?;
    let from = type_in(alloc, names, &from.ty)?;
    converted(alloc, to.get(), from.get(), given)
}

/// A conversion.
pub fn converted_node(
    alloc: Global,
    names: &NameMap,
    ty: &Ty,
    from: &CoreExpr,
    one: Written,
) -> Result<Written, Memory>
    ensures { IfOk result (λ made. text_view made ≡
        text.converted_node (lift_names (view_names names.now)) (view_type ty.now) (view_expr from.now) (text_view one)) }
{
    let Written { body, given, next } = one;
    let given = converted_given(alloc, names, ty, from, given)?;
    Ok(Written { body, given, next })
}

// An object that a literal fills becomes zero where that has to be.
fn zeroed_where(
    alloc: Global,
    names: &NameMap,
    ty: &Ty,
    number: u32,
    zero: bool,
) -> Result<Items<RStmt>, Memory>
    ensures { IfOk result (λ made. map stmt_view made ≡
        zeroed_where zero (lift_names (view_names names.now)) (view_type ty.now) (object_at (lift_names (view_names names.now)) (view_type ty.now) number)) }
{
    if !zero {
        return Ok(Items::new(alloc));
    }
    let place = object_at(alloc, names, ty, number)?;
    zeroed(alloc, names, ty, place)
}

/// What stands in front of the values of a compound literal.
pub fn literal_begun(
    alloc: Global,
    names: &NameMap,
    ty: &Ty,
    number: u32,
    puts: &[Put],
    next: u32,
) -> Result<Written, Memory>
    ensures { IfOk result (λ made. text_view made ≡
        text.literal_begun (lift_names (view_names names.now)) (view_type ty.now) number (puts_of (map view_put puts.now)) next) }
{
    let zero = is_zeroed(names, ty, puts)?;
    let body = zeroed_where(alloc, names, ty, number, zero)?;
    Ok(Written {
        body,
        given: RGiven::Nothing,
        next,
    })
}

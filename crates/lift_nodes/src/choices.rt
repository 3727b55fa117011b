//! `?:` (ISO C99, 6.5.15). Each maker is refused only for want of memory.

ghost use Rattle.std.specs.Prelude.{◌≡◌, ◌∷◌, ◌++◌, [], true, map, IfOk};
ghost use Rattle.cx_core.specs.Views.{view_expr, view_type};
ghost use Rattle.lift_exprs.specs.Lifted as spec;
ghost use Rattle.lift_exprs.specs.Written.{temporary_place};
ghost use Rattle.lift_forms.specs.Given as given;
ghost use Rattle.lift_forms_code.specs.Views.{given_view, operand_view};
ghost use Rattle.lift_nodes.specs.Texts as text;
ghost use Rattle.lift_nodes.specs.Views.{choice_view};
ghost use Rattle.lift_stores.specs.Names.{lift_names};
ghost use Rattle.lift_stores.specs.Views.{text_view};
ghost use Rattle.rs_items.specs.Known.{view_names};
ghost use Rattle.rs_text.specs.Tree as tree;
ghost use Rattle.rs_tree.specs.Views.{place_view, stmt_view};

use crate::branches::branch;
use cr_base::{Boxed, Items, Memory};
use cx_core::{CoreExpr, Ty};
use lift_forms_code::{RGiven, choice_form, value_of};
use lift_held::{acts, is_record};
use lift_stores::{
    Written, address_of_given, assign, copied, number_behind, temporary_place, type_in,
};
use rs_items::{NameMap, size_of};
use rs_makers::{address, read};
use rs_tree::{RPlace, RStmt, RTy};
use std::alloc::Global;

/// What is written for the parts of `?:`: the condition, and what is evaluated where it holds and where it doesn't.
#[derive(Drop)]
pub struct Choice {
    pub test: Written,
    pub first: Written,
    pub second: Written,
}

// The value of a part goes to a temporary.
fn taken(
    alloc: Global,
    names: &NameMap,
    ty: &Ty,
    place: Boxed<RPlace>,
    given: RGiven,
) -> Result<Boxed<RStmt>, Memory>
    ensures { IfOk result (λ made. stmt_view made ≡ text.taken_where (lift_names (view_names names.now)) (view_type ty.now) (place_view place) (given_view given)) }
{
    if is_record(ty) {
        let source = address_of_given(alloc, given)?;
        let to = address(alloc, place)?;
        let size = size_of(ty, names)?;
        return copied(alloc, source, to, size);
    }
    let value = value_of(alloc, given)?;
    assign(alloc, place, value)
}

// A part, and then its value to the temporary of a number.
fn part_taken(
    alloc: Global,
    names: &NameMap,
    ty: &Ty,
    number: u32,
    part: Written,
) -> Result<Items<RStmt>, Memory>
    ensures { IfOk result (λ made. map stmt_view made ≡
        text.part_taken (lift_names (view_names names.now)) (view_type ty.now) (temporary_place (lift_names (view_names names.now)) number) (text_view part)) }
{
    let place = temporary_place(alloc, names, number)?;
    let s = taken(alloc, names, ty, place, part.given)?;
    let mut body = part.body;
    body.push(s.into_inner())?;
    Ok(body)
}

// What the temporary of a number gives.
fn temporary_given(alloc: Global, names: &NameMap, ty: &Ty, number: u32) -> Result<RGiven, Memory>
    ensures { IfOk result (λ made. given_view made ≡
        text.temporary_given (view_type ty.now) (temporary_place (lift_names (view_names names.now)) number)) }
{
    let place = temporary_place(alloc, names, number)?;
    if is_record(ty) {
        Ok(RGiven::Value(address(alloc, place)?))
    } else {
        Ok(RGiven::Value(read(alloc, place)?))
    }
}

// Its value goes to a temporary.
fn chosen_held(
    alloc: Global,
    names: &NameMap,
    ty: &Ty,
    test_ty: &RTy,
    three: Choice,
) -> Result<Written, Memory>
    ensures { IfOk result (λ made. text_view made ≡
        text.chosen_by_branch (lift_names (view_names names.now)) true (view_type ty.now) (operand_view test_ty.now three.test.given) (choice_view three)) }
{
    let Choice {
        test,
        first,
        second,
    } = three;
    let number = second.next;
    let next = number_behind(number)?;
    let first = part_taken(alloc, names, ty, number, first)?;
    let second = part_taken(alloc, names, ty, number, second)?;
    let choice = branch(alloc, test_ty, test.given, first, second)?;
    let mut body = test.body;
    body.append(choice)?;
    let given = temporary_given(alloc, names, ty, number)?;
    Ok(Written { body, given, next })
}

// Its value isn't used.
fn chosen_unused(alloc: Global, test_ty: &RTy, three: Choice) -> Result<Written, Memory>
    ensures { IfOk result (λ made. text_view made ≡ record {
      body = (choice_view three).test.body ++ spec.branch (operand_view test_ty.now three.test.given) (choice_view three).first.body (choice_view three).second.body;
      given = given.nothing;
      next = three.second.next;
    }) }
{
    let Choice {
        test,
        first,
        second,
    } = three;
    let next = second.next;
    let choice = branch(alloc, test_ty, test.given, first.body, second.body)?;
    let mut body = test.body;
    body.append(choice)?;
    Ok(Written {
        body,
        given: RGiven::Nothing,
        next,
    })
}

// Its parts do nothing.
fn chosen_plainly(
    alloc: Global,
    used: bool,
    test_ty: &RTy,
    three: Choice,
) -> Result<Written, Memory>
    ensures { IfOk result (λ made. text_view made ≡ text.chosen_plainly used (operand_view test_ty.now three.test.given)
        (record { ty = tree.Void; given = given_view three.first.given }) (record { ty = tree.Void; given = given_view three.second.given }) (choice_view three)) }
{
    let Choice {
        test,
        first,
        second,
    } = three;
    let next = second.next;
    let body = test.body;
    if !used {
        return Ok(Written {
            body,
            given: RGiven::Nothing,
            next,
        });
    }
    let given = choice_form(alloc, test_ty, test.given, first.given, second.given)?;
    Ok(Written { body, given, next })
}

/// `?:`, whose value is used or not.
pub fn chosen_node(
    alloc: Global,
    names: &NameMap,
    used: bool,
    ty: &Ty,
    test: &CoreExpr,
    first: &CoreExpr,
    second: &CoreExpr,
    three: Choice,
) -> Result<Written, Memory>
    ensures { IfOk result (λ made. text_view made ≡
        text.chosen_node (lift_names (view_names names.now)) used (view_type ty.now) (view_expr test.now) (view_expr first.now) (view_expr second.now) (choice_view three)) }
{
    let test_ty = type_in(alloc, names, &test.ty)?;
    let acting = (used && is_record(ty)) || acts(used, first) || acts(used, second);
    if !acting {
        chosen_plainly(alloc, used, test_ty.get(), three)
    } else if used {
        chosen_held(alloc, names, ty, test_ty.get(), three)
    } else {
        chosen_unused(alloc, test_ty.get(), three)
    }
}

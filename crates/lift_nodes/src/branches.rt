//! Operators whose second operand isn't always evaluated (ISO C99, 6.5.13 and 6.5.14). Each maker is refused only for want of memory.

ghost use Rattle.std.specs.Prelude.{◌≡◌, ◌∷◌, ◌++◌, [], true, map, IfOk};
ghost use Rattle.cx_core.specs.Views.{view_expr};
ghost use Rattle.lift_exprs.specs.Lifted as spec;
ghost use Rattle.lift_exprs.specs.Lifted.{operand_of};
ghost use Rattle.lift_exprs.specs.Written.{temporary_place};
ghost use Rattle.lift_forms.specs.Given as given;
ghost use Rattle.lift_forms.specs.Given.{number_of};
ghost use Rattle.lift_forms.specs.Operators.{test_of};
ghost use Rattle.lift_forms_code.specs.Views.{given_view, operand_view};
ghost use Rattle.lift_nodes.specs.Texts as text;
ghost use Rattle.lift_nodes.specs.Views.{deciding_view};
ghost use Rattle.lift_stores.specs.Names.{lift_names};
ghost use Rattle.lift_stores.specs.Views.{text_view};
ghost use Rattle.rs_items.specs.Known.{view_names};
ghost use Rattle.rs_text.specs.Tree as tree;
ghost use Rattle.rs_text.specs.Tree.{stmts};
ghost use Rattle.rs_tree.specs.Views.{place_view, expr_view, stmt_view};

use cr_base::{Boxed, Int, Items, Memory};
use cx_core::CoreExpr;
use lift_forms_code::{RGiven, and_form, opposite_of, or_form, test_of, value_of};
use lift_held::acts;
use lift_stores::{
    Written, assign, in_turn, number_behind, one_stmt, temporary_place, temporary_value, type_in,
};
use rs_items::NameMap;
use rs_makers::literal;
use rs_tree::{IntegerTy, RExpr, RPlace, RStmt, RTy};
use std::alloc::Global;

/// Where the second operand is evaluated.
#[derive(Clone, Copy, Debug, PartialEq, Eq)]
pub enum Deciding {
    /// Where the first holds, as of `&&`.
    WhereTrue,
    /// Where it doesn't, as of `||`.
    WhereFalse,
}

// One `if`.
fn if_stmt(
    alloc: Global,
    test: Boxed<RExpr>,
    first: Items<RStmt>,
    second: Items<RStmt>,
) -> Result<Items<RStmt>, Memory>
    ensures { IfOk result (λ made. map stmt_view made ≡ spec.if_stmt (expr_view test) (map stmt_view first) (map stmt_view second) ∷ []) }
{
    let s = Boxed::new(alloc, RStmt::If(test, first, second))?;
    one_stmt(alloc, s)
}

/// Statements where a condition holds and where it doesn't: nothing where both are empty, and the opposite condition where only the second does something.
pub fn branch(
    alloc: Global,
    ty: &RTy,
    test: RGiven,
    first: Items<RStmt>,
    second: Items<RStmt>,
) -> Result<Items<RStmt>, Memory>
    ensures { IfOk result (λ made. map stmt_view made ≡ spec.branch (operand_view ty.now test) (map stmt_view first) (map stmt_view second)) }
{
    if !first.is_empty() {
        let test = test_of(alloc, ty, test)?;
        return if_stmt(alloc, test, first, second);
    }
    if second.is_empty() {
        return Ok(second);
    }
    let test = opposite_of(alloc, ty, test)?;
    if_stmt(alloc, test, second, first)
}

// The value that the first operand decides.
fn decided(alloc: Global, which: Deciding) -> Result<Boxed<RExpr>, Memory>
    ensures { IfOk result (λ made. expr_view made ≡ spec.decided (deciding_view which)) }
{
    let number = match which {
        Deciding::WhereTrue => 0,
        Deciding::WhereFalse => 1,
    };
    literal(alloc, Int::from(number), IntegerTy::I32)
}

// What is done where the second operand is evaluated, and otherwise.
fn decides(
    alloc: Global,
    which: Deciding,
    ty: &RTy,
    test: RGiven,
    second: Items<RStmt>,
    otherwise: Items<RStmt>,
) -> Result<Items<RStmt>, Memory>
    ensures { IfOk result (λ made. map stmt_view made ≡
        spec.decides (deciding_view which) (operand_view ty.now test) (map stmt_view second) (map stmt_view otherwise)) }
{
    match which {
        Deciding::WhereTrue => branch(alloc, ty, test, second, otherwise),
        Deciding::WhereFalse => branch(alloc, ty, test, otherwise, second),
    }
}

// Both operands as one expression.
fn decided_form(
    alloc: Global,
    which: Deciding,
    left_ty: &RTy,
    left: RGiven,
    right_ty: &RTy,
    right: RGiven,
) -> Result<RGiven, Memory>
    ensures { IfOk result (λ made. given_view made ≡
        spec.decided_form (deciding_view which) (operand_view left_ty.now left) (operand_view right_ty.now right)) }
{
    match which {
        Deciding::WhereTrue => and_form(alloc, left_ty, left, right_ty, right),
        Deciding::WhereFalse => or_form(alloc, left_ty, left, right_ty, right),
    }
}

// The second operand, and then the store of whether it holds.
fn then_tested(
    alloc: Global,
    body: Items<RStmt>,
    place: Boxed<RPlace>,
    ty: &RTy,
    other: RGiven,
) -> Result<Items<RStmt>, Memory>
    ensures { IfOk result (λ made. map stmt_view made ≡
        map stmt_view body ++ (tree.Assign (place_view place) (number_of (test_of (operand_view ty.now other))) ∷ [])) }
{
    let test = test_of(alloc, ty, other)?;
    let number = value_of(alloc, RGiven::Truth(test))?;
    let s = assign(alloc, place, number)?;
    let mut all = body;
    all.push(s.into_inner())?;
    Ok(all)
}

// The value that the first operand decides goes to a place.
fn decided_stmt(
    alloc: Global,
    which: Deciding,
    place: Boxed<RPlace>,
) -> Result<Items<RStmt>, Memory>
    ensures { IfOk result (λ made. map stmt_view made ≡ tree.Assign (place_view place) (spec.decided (deciding_view which)) ∷ []) }
{
    let number = decided(alloc, which)?;
    let s = assign(alloc, place, number)?;
    one_stmt(alloc, s)
}

// Its value goes to a temporary.
fn decided_held(
    alloc: Global,
    names: &NameMap,
    which: Deciding,
    test_ty: &RTy,
    other_ty: &RTy,
    first: Written,
    second: Written,
) -> Result<Written, Memory>
    ensures { IfOk result (λ made. text_view made ≡
        text.decided_by_branch (lift_names (view_names names.now)) true (deciding_view which)
        (operand_view test_ty.now first.given) (operand_view other_ty.now second.given) (text_view first) (text_view second)) }
{
    let number = second.next;
    let next = number_behind(number)?;
    let place = temporary_place(alloc, names, number)?;
    let evaluated = then_tested(alloc, second.body, place, other_ty, second.given)?;
    let place = temporary_place(alloc, names, number)?;
    let otherwise = decided_stmt(alloc, which, place)?;
    let choice = decides(alloc, which, test_ty, first.given, evaluated, otherwise)?;
    let mut body = first.body;
    body.append(choice)?;
    let given = RGiven::Value(temporary_value(alloc, names, number)?);
    Ok(Written { body, given, next })
}

// Its value isn't used.
fn decided_unused(
    alloc: Global,
    which: Deciding,
    test_ty: &RTy,
    first: Written,
    second: Written,
) -> Result<Written, Memory>
    ensures { IfOk result (λ made. text_view made ≡ record {
      body = (text_view first).body ++ spec.decides (deciding_view which) (operand_view test_ty.now first.given) (text_view second).body [];
      given = given.nothing;
      next = second.next;
    }) }
{
    let next = second.next;
    let nothing = Items::new(alloc);
    let choice = decides(alloc, which, test_ty, first.given, second.body, nothing)?;
    let mut body = first.body;
    body.append(choice)?;
    Ok(Written {
        body,
        given: RGiven::Nothing,
        next,
    })
}

// Its operands do nothing.
fn decided_plainly(
    alloc: Global,
    which: Deciding,
    test_ty: &RTy,
    other_ty: &RTy,
    first: Written,
    second: Written,
) -> Result<Written, Memory>
    ensures { IfOk result (λ made. text_view made ≡ text.in_turn (text_view first) (text_view second)
        (spec.decided_form (deciding_view which) (operand_view test_ty.now first.given) (operand_view other_ty.now second.given))) }
{
    let next = second.next;
    let mut body = first.body;
    body.append(second.body)?;
    let given = decided_form(alloc, which, test_ty, first.given, other_ty, second.given)?;
    Ok(Written { body, given, next })
}

/// `&&` or `||`, whose value is used or not.
pub fn decided_node(
    alloc: Global,
    names: &NameMap,
    used: bool,
    which: Deciding,
    left: &CoreExpr,
    right: &CoreExpr,
    first: Written,
    second: Written,
) -> Result<Written, Memory>
    ensures { IfOk result (λ made. text_view made ≡
        text.decided_node (lift_names (view_names names.now)) used (deciding_view which) (view_expr left.now) (view_expr right.now) (text_view first) (text_view second)) }
{
    let test_ty = type_in(alloc, names, &left.ty)?;
    let other_ty = type_in(alloc, names, &right.ty)?;
    if !acts(true, right) {
        decided_plainly(alloc, which, test_ty.get(), other_ty.get(), first, second)
    } else if used {
        decided_held(
            alloc,
            names,
            which,
            test_ty.get(),
            other_ty.get(),
            first,
            second,
        )
    } else {
        decided_unused(alloc, which, test_ty.get(), first, second)
    }
}

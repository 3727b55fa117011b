//! What is written for nodes of one part and of none, and how a node is held (ISO C99, 6.3.2.1, 6.5.1 to 6.5.3). Each maker is refused only for want of memory.

ghost use Rattle.std.specs.Prelude.{◌≡◌, ◌++◌, [], ◌∷◌, map, not, IfOk};
ghost use Rattle.cx_core.specs.Views.{puts_of, view_expr, view_put, view_type};
ghost use Rattle.lift.specs.Texts.{call_text, held_node, holds_itself_node, names_of, stored_text};
ghost use Rattle.lift.specs.Views.{arguments_view};
ghost use Rattle.lift_nodes.specs.Texts as nodes;
ghost use Rattle.lift_nodes.specs.Views.{choice_view, deciding_view};
ghost use Rattle.lift_forms.specs.Operators.{unary_form};
ghost use Rattle.cx_core.specs.Trees.{type_of};
ghost use Rattle.rs_tree.specs.Views.{expr_view};
ghost use Rattle.lift_call_forms.specs.Views.{argument_view};
ghost use Rattle.lift_exprs.specs.Calls as calls;
ghost use Rattle.lift_exprs.specs.Lifted as spec;
ghost use Rattle.lift_exprs.specs.Names.{function_or, type_in};
ghost use Rattle.lift_exprs.specs.Objects.{object_at};
ghost use Rattle.lift_forms.specs.Given as given;
ghost use Rattle.lift_forms.specs.Operators.{constant, null_of};
ghost use Rattle.lift_forms_code.specs.Views.{given_view};
ghost use Rattle.lift_nodes.specs.Texts.{then_gives};
ghost use Rattle.lift_stores.specs.Fits.{Fits, LvalueFits};
ghost use Rattle.lift_stores.specs.Views.{text_view};
ghost use Rattle.rs_tree.specs.Views.{stmt_view};

use cr_base::{Boxed, Int, Items, Memory, Spot};
use cx_core::{CoreExpr, Form, Op1, Op2, Put, Ty};
use lift_call_forms::{Argument, Arguments, Called, argument_of, called_with};
use lift_forms_code::{RGiven, constant, null_of};
use lift_held::{Asked, is_held, is_record, is_taken};
use lift_nodes::{
    Choice, Deciding, address_given, assigned, assigned_by, binary_node, chosen_node,
    converted_node, decided_node, deref_given, function_given, literal_begun, load_given,
    member_given, stepped_by_one, unary_node,
};
use lift_objects::put_in;
use lift_stores::{Written, gives, kind_of_node, object_at, then_held, type_in};
use rs_items::NameMap;
use rs_tree::{RExpr, RStmt};
use std::alloc::Global;

/// A constant.
#[tactic(auto, unfolding(crate::specs::Texts::names_of))]
pub fn constant_node(
    alloc: Global,
    names: &NameMap,
    ty: &Ty,
    number: Int,
    next: u32,
) -> Result<Written, Memory>
    ensures { IfOk result (λ made. text_view made ≡
        record { body = []; given = given.value (constant (type_in (names_of names.now) (view_type ty.now)) number); next = next }) }
{
    let here = type_in(alloc, names, ty)?;
    let made = constant(alloc, here.get(), number)?;
    Ok(gives(alloc, RGiven::Value(made), next))
}

/// A null pointer.
#[tactic(auto, unfolding(crate::specs::Texts::names_of))]
pub fn null_node(alloc: Global, names: &NameMap, ty: &Ty, next: u32) -> Result<Written, Memory>
    ensures { IfOk result (λ made. text_view made ≡
        record { body = []; given = given.value (null_of (type_in (names_of names.now) (view_type ty.now))); next = next }) }
{
    let here = type_in(alloc, names, ty)?;
    let made = null_of(alloc, here.get())?;
    Ok(gives(alloc, RGiven::Value(made), next))
}

/// An object, as an lvalue.
#[tactic(auto, unfolding(crate::specs::Texts::names_of))]
pub fn object_node(
    alloc: Global,
    names: &NameMap,
    ty: &Ty,
    number: u32,
    next: u32,
) -> Result<Written, Memory>
    ensures { IfOk result (λ made. text_view made ≡
        record { body = []; given = given.place (object_at (names_of names.now) (view_type ty.now) number); next = next }) }
{
    let place = object_at(alloc, names, ty, number)?;
    Ok(gives(alloc, RGiven::Place(place), next))
}

/// A pointer to a function.
#[tactic(auto, unfolding(crate::specs::Texts::names_of))]
pub fn function_node(
    alloc: Global,
    names: &NameMap,
    ty: &Ty,
    number: u32,
    next: u32,
) -> Result<Written, Memory>
    ensures { IfOk result (λ made. text_view made ≡ record {
      body = [];
      given = spec.function_given (names_of names.now) (view_type ty.now) (function_or ((names_of names.now).functions number));
      next = next;
    }) }
{
    let made = function_given(alloc, names, ty, number)?;
    Ok(gives(alloc, made, next))
}

/// The value of an lvalue.
#[tactic(auto, unfolding(crate::specs::Texts::names_of))]
pub fn load_node(
    alloc: Global,
    names: &NameMap,
    ty: &Ty,
    of: &CoreExpr,
    one: Written,
) -> Result<Written, Memory>
    requires { LvalueFits (view_expr of.now) }
    ensures { IfOk result (λ made. text_view made ≡
        then_gives (spec.load_given (names_of names.now) (view_type ty.now) (view_expr of.now) (text_view one).given) (text_view one)) }
{
    let Written { body, given, next } = one;
    let given = load_given(alloc, names, ty, of, given)?;
    Ok(Written { body, given, next })
}

/// What a pointer points to.
#[tactic(auto, unfolding(crate::specs::Texts::names_of))]
pub fn deref_node(
    alloc: Global,
    names: &NameMap,
    of: &CoreExpr,
    one: Written,
) -> Result<Written, Memory>
    ensures { IfOk result (λ made. text_view made ≡
        then_gives (spec.deref_given (names_of names.now) (view_expr of.now) (text_view one).given) (text_view one)) }
{
    let Written { body, given, next } = one;
    let given = deref_given(alloc, given)?;
    Ok(Written { body, given, next })
}

/// A member of a structure or union.
#[tactic(auto, unfolding(crate::specs::Texts::names_of))]
pub fn member_node(
    alloc: Global,
    names: &NameMap,
    ty: &Ty,
    of: &CoreExpr,
    spot: Spot,
    one: Written,
) -> Result<Written, Memory>
    requires { Fits spot }
    ensures { IfOk result (λ made. text_view made ≡
        then_gives (spec.member_given (names_of names.now) (view_type ty.now) (view_expr of.now) spot (text_view one).given) (text_view one)) }
{
    let Written { body, given, next } = one;
    let given = member_given(alloc, names, ty, of, spot, given)?;
    Ok(Written { body, given, next })
}

/// The address of an lvalue.
#[tactic(auto, unfolding(crate::specs::Texts::names_of))]
pub fn address_node(
    alloc: Global,
    names: &NameMap,
    ty: &Ty,
    of: &CoreExpr,
    one: Written,
) -> Result<Written, Memory>
    ensures { IfOk result (λ made. text_view made ≡
        then_gives (spec.address_given (names_of names.now) (view_type ty.now) (view_expr of.now) (text_view one).given) (text_view one)) }
{
    let Written { body, given, next } = one;
    let given = address_given(alloc, names, ty, of, given)?;
    Ok(Written { body, given, next })
}

/// A compound literal behind its values: its object, as an lvalue.
#[tactic(auto, unfolding(crate::specs::Texts::names_of))]
pub fn literal_node(
    alloc: Global,
    names: &NameMap,
    ty: &Ty,
    number: u32,
    one: Written,
) -> Result<Written, Memory>
    ensures { IfOk result (λ made. text_view made ≡
        then_gives (given.place (object_at (names_of names.now) (view_type ty.now) number)) (text_view one)) }
{
    let Written { body, next, .. } = one;
    let given = RGiven::Place(object_at(alloc, names, ty, number)?);
    Ok(Written { body, given, next })
}

/// One argument more behind others.
#[tactic(auto, unfolding(crate::specs::Texts::names_of))]
pub fn with_argument(
    alloc: Global,
    names: &NameMap,
    e: &CoreExpr,
    given: RGiven,
    list: Items<Argument>,
) -> Result<Items<Argument>, Memory>
    ensures { IfOk result (λ made. map argument_view made ≡
        map argument_view list ++ calls.argument_of (names_of names.now) (view_expr e.now) (given_view given) ∷ []) }
{
    let one = argument_of(alloc, names, e, given)?;
    let mut list = list;
    list.push(one)?;
    Ok(list)
}

/// Statements one behind the other, of which the value is told.
pub fn told_behind(first: Items<RStmt>, second: Items<RStmt>, next: u32) -> Result<Written, Memory>
    ensures { IfOk result (λ made. text_view made ≡ record { body = map stmt_view first ++ map stmt_view second; given = given.nothing; next = next }) }
{
    let mut body = first;
    body.append(second)?;
    Ok(Written {
        body,
        given: RGiven::Nothing,
        next,
    })
}

// A node whose statements hold its value in their own way.
fn holds_itself(e: &CoreExpr) -> bool
    ensures { result ≡ holds_itself_node (view_expr e.now) }
{
    match &e.form {
        Form::Call(_, _) | Form::CallBy(_, _) => is_record(&e.ty),
        _ => is_taken(e),
    }
}

/// A node, held where it has to be.
#[tactic(auto, unfolding(crate::specs::Texts::names_of))]
pub fn held_node(
    alloc: Global,
    names: &NameMap,
    asked: Asked,
    e: &CoreExpr,
    one: Written,
) -> Result<Written, Memory>
    ensures { IfOk result (λ made. text_view made ≡ held_node (names_of names.now) asked (view_expr e.now) (text_view one)) }
{
    if !is_held(asked, e) || holds_itself(e) {
        return Ok(one);
    }
    let kind = kind_of_node(alloc, names, e)?;
    then_held(alloc, names, &kind, one)
}

/// A conversion.
#[tactic(auto, unfolding(crate::specs::Texts::names_of))]
pub fn convert_node(
    alloc: Global,
    names: &NameMap,
    ty: &Ty,
    of: &CoreExpr,
    one: Written,
) -> Result<Written, Memory>
    ensures { IfOk result (λ made. text_view made ≡ nodes.converted_node (names_of names.now) (view_type ty.now) (view_expr of.now) (text_view one)) }
{
    converted_node(alloc, names, ty, of, one)
}

/// A unary operator.
#[tactic(auto, unfolding(crate::specs::Texts::names_of))]
pub fn operator_node(
    alloc: Global,
    names: &NameMap,
    op: Op1,
    of: &CoreExpr,
    one: Written,
) -> Result<Written, Memory>
    ensures { IfOk result (λ made. text_view made ≡
        then_gives (unary_form op (spec.operand_of (names_of names.now) (view_expr of.now) (text_view one).given)) (text_view one)) }
{
    unary_node(alloc, names, op, of, one)
}

/// `++` or `--`, behind its operand or in front of it.
#[tactic(auto, unfolding(crate::specs::Texts::names_of))]
pub fn step_node(
    alloc: Global,
    names: &NameMap,
    ty: &Ty,
    used: bool,
    up: bool,
    post: bool,
    on: &CoreExpr,
    one: Written,
) -> Result<Written, Memory>
    requires { LvalueFits (view_expr on.now) }
    ensures { IfOk result (λ made. text_view made ≡
        nodes.stepped_by_one (names_of names.now) (view_type ty.now) used up post (view_expr on.now) (text_view one)) }
{
    stepped_by_one(alloc, names, ty, used, up, post, on, one)
}

/// A call by name, behind what is written for its arguments.
#[tactic(auto, unfolding(crate::specs::Texts::names_of))]
pub fn call_node(
    alloc: Global,
    names: &NameMap,
    used: bool,
    ty: &Ty,
    number: u32,
    args: Arguments,
) -> Result<Written, Memory>
    ensures { IfOk result (λ made. text_view made ≡
        call_text (names_of names.now) used (view_type ty.now) (calls.called_by_name (names_of names.now) number) (arguments_view args)) }
{
    called_with(alloc, names, used, ty, Called::ByName(number), args)
}

/// A call of what a pointer points to, behind what is written for its arguments.
#[tactic(auto, unfolding(crate::specs::Texts::names_of))]
pub fn call_by_node(
    alloc: Global,
    names: &NameMap,
    used: bool,
    ty: &Ty,
    callee: &CoreExpr,
    pointer: Boxed<RExpr>,
    args: Arguments,
) -> Result<Written, Memory>
    ensures { IfOk result (λ made. text_view made ≡ call_text (names_of names.now) used (view_type ty.now)
        (calls.called_by_pointer (record { ty = type_in (names_of names.now) (type_of (view_expr callee.now)); given = given.value (expr_view pointer) })) (arguments_view args)) }
{
    let kept = type_in(alloc, names, &callee.ty)?;
    called_with(
        alloc,
        names,
        used,
        ty,
        Called::ByPointer(kept, pointer),
        args,
    )
}

/// What stands in front of the values of a compound literal.
#[tactic(auto, unfolding(crate::specs::Texts::names_of))]
pub fn begun_node(
    alloc: Global,
    names: &NameMap,
    ty: &Ty,
    number: u32,
    puts: &[Put],
    next: u32,
) -> Result<Written, Memory>
    ensures { IfOk result (λ made. text_view made ≡
        nodes.literal_begun (names_of names.now) (view_type ty.now) number (puts_of (map view_put puts.now)) next) }
{
    literal_begun(alloc, names, ty, number, puts, next)
}

/// A value behind its statements is stored at a spot of the object of a number.
#[tactic(auto, unfolding(crate::specs::Texts::names_of))]
pub fn put_node(
    alloc: Global,
    names: &NameMap,
    filled: &Ty,
    number: u32,
    spot: Spot,
    ty: &Ty,
    one: Written,
) -> Result<Written, Memory>
    requires { Fits spot }
    ensures { IfOk result (λ made. text_view made ≡
        stored_text (names_of names.now) (view_type filled.now) number spot (view_type ty.now) (text_view one)) }
{
    let place = object_at(alloc, names, filled, number)?;
    put_in(alloc, names, filled, place, spot, ty, one)
}

/// A binary operator, behind its operands.
#[tactic(auto, unfolding(crate::specs::Texts::names_of))]
pub fn pair_node(
    alloc: Global,
    names: &NameMap,
    op: Op2,
    left: &CoreExpr,
    right: &CoreExpr,
    first: Written,
    second: Written,
) -> Result<Written, Memory>
    ensures { IfOk result (λ made. text_view made ≡
        nodes.binary_node (names_of names.now) op (view_expr left.now) (view_expr right.now) (text_view first) (text_view second)) }
{
    binary_node(alloc, names, op, left, right, first, second)
}

/// `&&` or `||`, behind its operands.
#[tactic(auto, unfolding(crate::specs::Texts::names_of))]
pub fn deciding_node(
    alloc: Global,
    names: &NameMap,
    used: bool,
    which: Deciding,
    left: &CoreExpr,
    right: &CoreExpr,
    first: Written,
    second: Written,
) -> Result<Written, Memory>
    ensures { IfOk result (λ made. text_view made ≡
        nodes.decided_node (names_of names.now) used (deciding_view which) (view_expr left.now) (view_expr right.now) (text_view first) (text_view second)) }
{
    decided_node(alloc, names, used, which, left, right, first, second)
}

/// `?:`, behind its parts.
#[tactic(auto, unfolding(crate::specs::Texts::names_of))]
pub fn choosing_node(
    alloc: Global,
    names: &NameMap,
    used: bool,
    ty: &Ty,
    test: &CoreExpr,
    first: &CoreExpr,
    second: &CoreExpr,
    three: Choice,
) -> Result<Written, Memory>
    ensures { IfOk result (λ made. text_view made ≡
        nodes.chosen_node (names_of names.now) used (view_type ty.now) (view_expr test.now) (view_expr first.now) (view_expr second.now) (choice_view three)) }
{
    chosen_node(alloc, names, used, ty, test, first, second, three)
}

/// A simple assignment, behind its operands.
#[tactic(auto, unfolding(crate::specs::Texts::names_of))]
pub fn assign_node(
    alloc: Global,
    names: &NameMap,
    used: bool,
    ty: &Ty,
    to: &CoreExpr,
    first: Written,
    second: Written,
) -> Result<Written, Memory>
    requires { LvalueFits (view_expr to.now) }
    ensures { IfOk result (λ made. text_view made ≡
        nodes.assigned (names_of names.now) used (view_type ty.now) (view_expr to.now) (text_view first) (text_view second)) }
{
    assigned(alloc, names, used, ty, to, first, second)
}

/// A compound assignment, behind its operands.
#[tactic(auto, unfolding(crate::specs::Texts::names_of))]
pub fn assign_by_node(
    alloc: Global,
    names: &NameMap,
    used: bool,
    ty: &Ty,
    op: Op2,
    computes: &Ty,
    to: &CoreExpr,
    from: &CoreExpr,
    first: Written,
    second: Written,
) -> Result<Written, Memory>
    requires { LvalueFits (view_expr to.now) }
    ensures { IfOk result (λ made. text_view made ≡
        nodes.assigned_by (names_of names.now) used (view_type ty.now) op (view_type computes.now) (view_expr to.now) (view_expr from.now) (text_view first) (text_view second)) }
{
    assigned_by(
        alloc, names, used, ty, op, computes, to, from, first, second,
    )
}

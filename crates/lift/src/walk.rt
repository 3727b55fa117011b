//! The walk over an expression (ISO C99, 6.5). It is refused only for want of memory.

ghost use Rattle.std.specs.Prelude.{◌≡◌, [], map, IfOk};
ghost use Rattle.cx_core.specs.Views.{exprs_of, puts_of, view_expr, view_put, view_type};
ghost use Rattle.lift.specs.Fits.{ArgsFit, FieldsFit, PutFits, PutsFit};
ghost use Rattle.lift.specs.Texts as text;
ghost use Rattle.lift.specs.Texts.{arguments_after, behind_text, lifted_text, names_of, node_text};
ghost use Rattle.lift.specs.Views.{arguments_view, both_view};
ghost use Rattle.lift_exprs.specs.Lifted as spec;
ghost use Rattle.lift_exprs.specs.Objects.{object_at};
ghost use Rattle.lift_nodes.specs.Views.{choice_view, deciding_view};
ghost use Rattle.lift_stores.specs.Names.{lift_names};
ghost use Rattle.lift_stores.specs.Views.{text_view, text_of};
ghost use Rattle.rs_items.specs.Known.{view_names};

use crate::asked::{operand, operand_before, part_of, whole_of};
use crate::nodes::{
    address_node, assign_by_node, assign_node, begun_node, call_by_node, call_node, choosing_node,
    constant_node, convert_node, deciding_node, deref_node, function_node, held_node, literal_node,
    load_node, member_node, null_node, object_node, operator_node, pair_node, put_node, step_node,
    told_behind, with_argument,
};
use cr_base::{Items, Memory};
use cx_core::{CoreExpr, Form, Op2, Put, Ty};
use lift_call_forms::Arguments;
use lift_forms_code::{RGiven, value_of};
use lift_held::{Asked, holds_call, is_void, some_holds_call};
use lift_nodes::{Choice, Deciding};
use lift_stores::{Written, gives};
use rs_items::NameMap;
use std::alloc::Global;

/// What is written for two parts, one behind the other.
#[derive(Drop)]
pub struct Both {
    pub first: Written,
    pub second: Written,
}

// An expression, from a number of a temporary on.
#[cycle(lifting)]
fn whole(
    alloc: Global,
    e: &CoreExpr,
    names: &NameMap,
    asked: Asked,
    next: u32,
) -> Result<Written, Memory>
    requires { FieldsFit (view_expr e.now) }
    ensures { IfOk result (λ made. text_view made ≡ lifted_text (names_of names.now) asked (view_expr e.now) next) }
{
    let one = lifted_form(alloc, e, names, asked, next)?;
    held_node(alloc, names, asked, e, one)
}

// By its form.
#[cycle(lifting)]
fn lifted_form(
    alloc: Global,
    e: &CoreExpr,
    names: &NameMap,
    asked: Asked,
    next: u32,
) -> Result<Written, Memory>
    requires { FieldsFit (view_expr e.now) }
    ensures { IfOk result (λ made. text_view made ≡ node_text (names_of names.now) asked (view_expr e.now) next) }
{
    let ty = &e.ty;
    match &e.form {
        Form::Whole(number) => constant_node(alloc, names, ty, *number, next),
        Form::Null => null_node(alloc, names, ty, next),
        Form::Object(number) => object_node(alloc, names, ty, *number, next),
        Form::Code(number) => function_node(alloc, names, ty, *number, next),
        Form::Load(of) => {
            let one = whole(alloc, of.get(), names, operand(), next)?;
            load_node(alloc, names, ty, of.get(), one)
        }
        Form::Deref(of) => {
            let one = whole(alloc, of.get(), names, operand(), next)?;
            deref_node(alloc, names, of.get(), one)
        }
        Form::Member(of, spot) => {
            let one = whole(alloc, of.get(), names, whole_of(spot.width != 0), next)?;
            member_node(alloc, names, ty, of.get(), *spot, one)
        }
        Form::Address(of) => {
            let one = whole(alloc, of.get(), names, operand(), next)?;
            address_node(alloc, names, ty, of.get(), one)
        }
        Form::Convert(of) => {
            let one = whole(alloc, of.get(), names, part_of(!is_void(ty)), next)?;
            convert_node(alloc, names, ty, of.get(), one)
        }
        Form::Unary(op, of) => {
            let one = whole(alloc, of.get(), names, operand(), next)?;
            operator_node(alloc, names, *op, of.get(), one)
        }
        Form::Step { up, post, on } => {
            let one = whole(alloc, on.get(), names, operand(), next)?;
            step_node(alloc, names, ty, asked.used, *up, *post, on.get(), one)
        }
        Form::Binary(op, left, right) => {
            binary(alloc, left.get(), right.get(), names, *op, next)
        }
        Form::And(left, right) => {
            let which = Deciding::WhereTrue;
            decided(
                alloc,
                left.get(),
                right.get(),
                names,
                asked.used,
                which,
                next,
            )
        }
        Form::Or(left, right) => {
            let which = Deciding::WhereFalse;
            decided(
                alloc,
                left.get(),
                right.get(),
                names,
                asked.used,
                which,
                next,
            )
        }
        Form::Cond(test, first, second) => {
            let used = asked.used;
            chosen(
                alloc,
                test.get(),
                first.get(),
                second.get(),
                names,
                used,
                ty,
                next,
            )
        }
        Form::Assign(to, from) => {
            assignment(alloc, to.get(), from.get(), names, asked.used, ty, next)
        }
        Form::AssignBy(op, computes, to, from) => {
            let used = asked.used;
            assignment_by(
                alloc,
                to.get(),
                from.get(),
                names,
                used,
                ty,
                *op,
                computes.get(),
                next,
            )
        }
        Form::Call(callee, args) => {
            let before = gives(alloc, RGiven::Nothing, next);
            let args = args_behind(alloc, args.as_slice(), names, before)?;
            call_node(alloc, names, asked.used, ty, *callee, args)
        }
        Form::CallBy(callee, args) => {
            let call_behind = some_holds_call(args.as_slice());
            let pointer = whole(
                alloc,
                callee.get(),
                names,
                operand_before(call_behind),
                next,
            )?;
            let Written { body, given, next } = pointer;
            let to = value_of(alloc, given)?;
            let before = Written {
                body,
                given: RGiven::Nothing,
                next,
            };
            let args = args_behind(alloc, args.as_slice(), names, before)?;
            call_by_node(alloc, names, asked.used, ty, callee.get(), to, args)
        }
        Form::Comma(first, second) => {
            comma(alloc, first.get(), second.get(), names, asked.used, next)
        }
        Form::Literal(number, puts) => { filled(alloc, puts.as_slice(), names, ty, *number, next) }
    }
}

// A compound literal.
#[cycle(lifting)]
fn filled(
    alloc: Global,
    puts: &[Put],
    names: &NameMap,
    ty: &Ty,
    number: u32,
    next: u32,
) -> Result<Written, Memory>
    requires { PutsFit (puts_of (map view_put puts.now)) }
    ensures { IfOk result (λ made. text_view made ≡
        text.filled_text (names_of names.now) (view_type ty.now) number (puts_of (map view_put puts.now)) next) }
{
    let before = begun_node(alloc, names, ty, number, puts, next)?;
    let one = puts_behind(alloc, puts, names, ty, number, before)?;
    literal_node(alloc, names, ty, number, one)
}

// An expression behind a part.
#[cycle(lifting)]
fn behind(
    alloc: Global,
    e: &CoreExpr,
    names: &NameMap,
    asked: Asked,
    first: Written,
) -> Result<Both, Memory>
    requires { FieldsFit (view_expr e.now) }
    ensures { IfOk result (λ made. both_view made ≡ behind_text (names_of names.now) asked (view_expr e.now) (text_view first)) }
{
    let second = whole(alloc, e, names, asked, first.next)?;
    Ok(Both { first, second })
}

// A binary operator whose operands are both evaluated.
#[cycle(lifting)]
fn binary(
    alloc: Global,
    left: &CoreExpr,
    right: &CoreExpr,
    names: &NameMap,
    op: Op2,
    next: u32,
) -> Result<Written, Memory>
    requires left { FieldsFit (view_expr left.now) }
    requires right { FieldsFit (view_expr right.now) }
    ensures { IfOk result (λ made. text_view made ≡ text.binary_text (names_of names.now) op (view_expr left.now) (view_expr right.now) next) }
{
    let call_behind = holds_call(right);
    let first = whole(alloc, left, names, operand_before(call_behind), next)?;
    let two = behind(alloc, right, names, operand(), first)?;
    pair_node(alloc, names, op, left, right, two.first, two.second)
}

// `&&` or `||`.
#[cycle(lifting)]
fn decided(
    alloc: Global,
    left: &CoreExpr,
    right: &CoreExpr,
    names: &NameMap,
    used: bool,
    which: Deciding,
    next: u32,
) -> Result<Written, Memory>
    requires left { FieldsFit (view_expr left.now) }
    requires right { FieldsFit (view_expr right.now) }
    ensures { IfOk result (λ made. text_view made ≡
        text.decided_text (names_of names.now) used (deciding_view which) (view_expr left.now) (view_expr right.now) next) }
{
    let first = whole(alloc, left, names, operand(), next)?;
    let two = behind(alloc, right, names, operand(), first)?;
    deciding_node(
        alloc, names, used, which, left, right, two.first, two.second,
    )
}

// A part behind two others.
#[cycle(lifting)]
fn third_behind(
    alloc: Global,
    e: &CoreExpr,
    names: &NameMap,
    asked: Asked,
    two: Both,
) -> Result<Choice, Memory>
    requires { FieldsFit (view_expr e.now) }
    ensures { IfOk result (λ made. choice_view made ≡ text.third_text (names_of names.now) asked (view_expr e.now) (both_view two)) }
{
    let last = whole(alloc, e, names, asked, two.second.next)?;
    Ok(Choice {
        test: two.first,
        first: two.second,
        second: last,
    })
}

// `?:`.
#[cycle(lifting)]
fn chosen(
    alloc: Global,
    test: &CoreExpr,
    first: &CoreExpr,
    second: &CoreExpr,
    names: &NameMap,
    used: bool,
    ty: &Ty,
    next: u32,
) -> Result<Written, Memory>
    requires test { FieldsFit (view_expr test.now) }
    requires first { FieldsFit (view_expr first.now) }
    requires second { FieldsFit (view_expr second.now) }
    ensures { IfOk result (λ made. text_view made ≡
        text.chosen_text (names_of names.now) used (view_type ty.now) (view_expr test.now) (view_expr first.now) (view_expr second.now) next) }
{
    let condition = whole(alloc, test, names, operand(), next)?;
    let two = behind(alloc, first, names, part_of(used), condition)?;
    let three = third_behind(alloc, second, names, part_of(used), two)?;
    choosing_node(alloc, names, used, ty, test, first, second, three)
}

// A simple assignment.
#[cycle(lifting)]
fn assignment(
    alloc: Global,
    to: &CoreExpr,
    from: &CoreExpr,
    names: &NameMap,
    used: bool,
    ty: &Ty,
    next: u32,
) -> Result<Written, Memory>
    requires to { FieldsFit (view_expr to.now) }
    requires from { FieldsFit (view_expr from.now) }
    ensures { IfOk result (λ made. text_view made ≡
        text.assigned_text (names_of names.now) used (view_type ty.now) (view_expr to.now) (view_expr from.now) next) }
{
    let call_behind = holds_call(from);
    let first = whole(alloc, to, names, operand_before(call_behind), next)?;
    let two = behind(alloc, from, names, operand(), first)?;
    assign_node(alloc, names, used, ty, to, two.first, two.second)
}

// A compound assignment.
#[cycle(lifting)]
fn assignment_by(
    alloc: Global,
    to: &CoreExpr,
    from: &CoreExpr,
    names: &NameMap,
    used: bool,
    ty: &Ty,
    op: Op2,
    computes: &Ty,
    next: u32,
) -> Result<Written, Memory>
    requires to { FieldsFit (view_expr to.now) }
    requires from { FieldsFit (view_expr from.now) }
    ensures { IfOk result (λ made. text_view made ≡
        text.assigned_by_text (names_of names.now) used (view_type ty.now) op (view_type computes.now) (view_expr to.now) (view_expr from.now) next) }
{
    let call_behind = holds_call(from);
    let first = whole(alloc, to, names, operand_before(call_behind), next)?;
    let two = behind(alloc, from, names, operand(), first)?;
    assign_by_node(
        alloc, names, used, ty, op, computes, to, from, two.first, two.second,
    )
}

// The comma operator: the value of the first operand isn't used.
#[cycle(lifting)]
fn comma(
    alloc: Global,
    first: &CoreExpr,
    second: &CoreExpr,
    names: &NameMap,
    used: bool,
    next: u32,
) -> Result<Written, Memory>
    requires first { FieldsFit (view_expr first.now) }
    requires second { FieldsFit (view_expr second.now) }
    ensures { IfOk result (λ made. text_view made ≡ text.comma_text (names_of names.now) used (view_expr first.now) (view_expr second.now) next) }
{
    let before = whole(alloc, first, names, part_of(false), next)?;
    let Both { first, second } = behind(alloc, second, names, part_of(used), before)?;
    let mut body = first.body;
    body.append(second.body)?;
    Ok(Written {
        body,
        given: second.given,
        next: second.next,
    })
}

// Arguments, from the left, behind a part.
#[cycle(lifting)]
fn args_behind(
    alloc: Global,
    args: &[CoreExpr],
    names: &NameMap,
    before: Written,
) -> Result<Arguments, Memory>
    requires { ArgsFit (exprs_of (map view_expr args.now)) }
    ensures { IfOk result (λ made. arguments_view made ≡
        text.args_text (names_of names.now) (exprs_of (map view_expr args.now)) (arguments_after (text_view before))) }
{
    let mut made = Arguments {
        written: before,
        list: Items::new(alloc),
    };
    for index in 0..args.len() {
        let call_behind = some_holds_call(&args[index + 1..]);
        made = argument_behind(
            alloc,
            &args[index],
            names,
            operand_before(call_behind),
            made,
        )?;
    }
    Ok(made)
}

// One argument more.
#[cycle(lifting)]
fn argument_behind(
    alloc: Global,
    e: &CoreExpr,
    names: &NameMap,
    asked: Asked,
    before: Arguments,
) -> Result<Arguments, Memory>
    requires { FieldsFit (view_expr e.now) }
    ensures { IfOk result (λ made. arguments_view made ≡
        text.argument_behind (names_of names.now) asked (view_expr e.now) (arguments_view before)) }
{
    let Arguments { written, list } = before;
    let Written { body, given, next } = whole(alloc, e, names, asked, written.next)?;
    let list = with_argument(alloc, names, e, given, list)?;
    let written = told_behind(written.body, body, next)?;
    Ok(Arguments { written, list })
}

// Values that are stored in the object of a number, each before the next is reached, behind a part.
#[cycle(lifting)]
fn puts_behind(
    alloc: Global,
    puts: &[Put],
    names: &NameMap,
    filled: &Ty,
    number: u32,
    before: Written,
) -> Result<Written, Memory>
    requires { PutsFit (puts_of (map view_put puts.now)) }
    ensures { IfOk result (λ made. text_view made ≡
        text.puts_text (names_of names.now) (view_type filled.now) number (puts_of (map view_put puts.now)) (text_view before)) }
{
    let mut made = before;
    for one in puts {
        made = put_behind(alloc, one, names, filled, number, made)?;
    }
    Ok(made)
}

// One value more.
#[cycle(lifting)]
fn put_behind(
    alloc: Global,
    one: &Put,
    names: &NameMap,
    filled: &Ty,
    number: u32,
    before: Written,
) -> Result<Written, Memory>
    requires { PutFits (view_put one.now) }
    ensures { IfOk result (λ made. text_view made ≡
        text.put_text (names_of names.now) (view_type filled.now) number (view_put one.now) (text_view before)) }
{
    let asked = operand_before(one.spot.width > 0);
    let value = whole(alloc, one.value.get(), names, asked, before.next)?;
    let stored = put_node(alloc, names, filled, number, one.spot, &one.ty, value)?;
    told_behind(before.body, stored.body, stored.next)
}

/// What is written for values that are stored in the object of a number, from a number of a temporary on.
#[tactic(auto, using(crate::proofs::Texts::puts_are), unfolding(crate::specs::Texts::names_of))]
pub fn lifted_puts(
    alloc: Global,
    names: &NameMap,
    filled: &Ty,
    number: u32,
    puts: &[Put],
    next: u32,
) -> Result<Written, Memory>
    requires { PutsFit (puts_of (map view_put puts.now)) }
    ensures { IfOk result (λ made. text.told (text_view made) ≡
        text.told (text_of (spec.lifted_puts (lift_names (view_names names.now)) (view_type filled.now)
        (object_at (lift_names (view_names names.now)) (view_type filled.now) number) (puts_of (map view_put puts.now)) next))) }
{
    let before = gives(alloc, RGiven::Nothing, next);
    puts_behind(alloc, puts, names, filled, number, before)
}

/// What is written for an expression, from a number of a temporary on, where its temporaries are kept in `names`. Refused only for want of memory.
#[tactic(auto, using(crate::proofs::Texts::lifted_is), unfolding(crate::specs::Texts::names_of))]
pub fn lifted(
    alloc: Global,
    names: &NameMap,
    asked: Asked,
    e: &CoreExpr,
    next: u32,
) -> Result<Written, Memory>
    requires { FieldsFit (view_expr e.now) }
    ensures { IfOk result (λ made. text_view made ≡ text_of (spec.lifted (lift_names (view_names names.now)) asked (view_expr e.now) next)) }
{
    whole(alloc, e, names, asked, next)
}

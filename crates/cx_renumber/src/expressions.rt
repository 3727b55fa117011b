//! Expressions with the numbers of the program.

ghost use Rattle.std.specs.Prelude.{◌≡◌, map, IfOk};
ghost use Rattle.cx_core.specs.Trees.{expr, whole, object, code, load, deref, member, address, convert, unary, binary, and, or, cond, assign, assign_by, step, call, call_by, comma, literal};
ghost use Rattle.cx_core.specs.Views.{exprs_of, view_expr, view_put, view_puts, view_type};
ghost use Rattle.cx_renumber.specs.Numbers.{type_there, expr_there, exprs_there, put_there, puts_there};
ghost use Rattle.cx_renumber.specs.Views.{retyped, view_numbers};

use crate::numbers::{Numbers, let_go};
use crate::types::type_there;
use cr_base::{Boxed, Int, Items, Memory, Spot};
use cx_core::{CoreExpr, Form, Op1, Op2, Put, Ty};
use std::alloc::Global;

/// An expression (ISO C99, 6.5). Refused only for want of memory.
#[cycle(there)]
pub fn expr_there(
    alloc: Global,
    numbers: &Numbers,
    one: &CoreExpr,
) -> Result<Boxed<CoreExpr>, Memory>
    ensures { IfOk result (λ made. view_expr made ≡ expr_there (view_numbers numbers.now) (view_expr one.now)) }
{
    match &one.form {
        Form::Whole(value) => whole_there(alloc, numbers, one, *value),
        Form::Null => made(alloc, numbers, one, Form::Null),
        Form::Object(number) => named(alloc, numbers, one, *number),
        Form::Code(number) => pointed(alloc, numbers, one, *number),
        Form::Load(of) => load_there(
            alloc,
            numbers,
            one,
            of,
            expr_there(alloc, numbers, of.get()),
        ),
        Form::Deref(of) => deref_there(
            alloc,
            numbers,
            one,
            of,
            expr_there(alloc, numbers, of.get()),
        ),
        Form::Address(of) => address_there(
            alloc,
            numbers,
            one,
            of,
            expr_there(alloc, numbers, of.get()),
        ),
        Form::Convert(of) => convert_there(
            alloc,
            numbers,
            one,
            of,
            expr_there(alloc, numbers, of.get()),
        ),
        Form::Member(of, spot) => member_there(
            alloc,
            numbers,
            one,
            of,
            expr_there(alloc, numbers, of.get()),
            *spot,
        ),
        Form::Unary(op, of) => unary_there(
            alloc,
            numbers,
            one,
            *op,
            of,
            expr_there(alloc, numbers, of.get()),
        ),
        Form::Binary(op, left, right) => binary_there(
            alloc,
            numbers,
            one,
            *op,
            left,
            expr_there(alloc, numbers, left.get()),
            right,
            expr_there(alloc, numbers, right.get()),
        ),
        Form::And(left, right) => and_there(
            alloc,
            numbers,
            one,
            left,
            expr_there(alloc, numbers, left.get()),
            right,
            expr_there(alloc, numbers, right.get()),
        ),
        Form::Or(left, right) => or_there(
            alloc,
            numbers,
            one,
            left,
            expr_there(alloc, numbers, left.get()),
            right,
            expr_there(alloc, numbers, right.get()),
        ),
        Form::Comma(left, right) => comma_there(
            alloc,
            numbers,
            one,
            left,
            expr_there(alloc, numbers, left.get()),
            right,
            expr_there(alloc, numbers, right.get()),
        ),
        Form::Cond(test, first, second) => cond_there(
            alloc,
            numbers,
            one,
            test,
            expr_there(alloc, numbers, test.get()),
            first,
            expr_there(alloc, numbers, first.get()),
            second,
            expr_there(alloc, numbers, second.get()),
        ),
        Form::Assign(target, value) => assign_there(
            alloc,
            numbers,
            one,
            target,
            expr_there(alloc, numbers, target.get()),
            value,
            expr_there(alloc, numbers, value.get()),
        ),
        Form::AssignBy(op, computes, target, value) => assign_by_there(
            alloc,
            numbers,
            one,
            *op,
            computes,
            target,
            expr_there(alloc, numbers, target.get()),
            value,
            expr_there(alloc, numbers, value.get()),
        ),
        Form::Step { up, post, on } => step_there(
            alloc,
            numbers,
            one,
            *up,
            *post,
            on,
            expr_there(alloc, numbers, on.get()),
        ),
        Form::Call(callee, args) => call_there(
            alloc,
            numbers,
            one,
            *callee,
            args,
            exprs_there(alloc, numbers, args.as_slice()),
        ),
        Form::CallBy(callee, args) => call_by_there(
            alloc,
            numbers,
            one,
            callee,
            expr_there(alloc, numbers, callee.get()),
            args,
            exprs_there(alloc, numbers, args.as_slice()),
        ),
        Form::Literal(number, puts) => literal_there(
            alloc,
            numbers,
            one,
            *number,
            puts,
            puts_there(alloc, numbers, puts.as_slice()),
        ),
    }
}

// A node of this form in the place of another, with its type.
fn made(
    alloc: Global,
    numbers: &Numbers,
    one: &CoreExpr,
    form: Form,
) -> Result<Boxed<CoreExpr>, Memory>
    ensures { IfOk result (λ made. view_expr made ≡ retyped (type_there (view_numbers numbers.now).before (view_type one.now.ty))
        (view_expr (record { ty = one.now.ty; place = one.now.place; form = form }))) }
{
    match type_there(alloc, numbers.before, &one.ty) {
        Ok(there) => Boxed::new(
            alloc,
            CoreExpr {
                ty: there.into_inner(),
                place: one.place,
                form,
            },
        ),
        Err(why) => {
            let_go(form);
            Err(why)
        }
    }
}

fn whole_there(
    alloc: Global,
    numbers: &Numbers,
    one: &CoreExpr,
    value: Int,
) -> Result<Boxed<CoreExpr>, Memory>
    ensures { IfOk result (λ made. view_expr made ≡ expr (type_there (view_numbers numbers.now).before (view_type one.now.ty)) one.now.place
        (whole value)) }
{
    made(alloc, numbers, one, Form::Whole(value))
}

fn named(
    alloc: Global,
    numbers: &Numbers,
    one: &CoreExpr,
    number: u32,
) -> Result<Boxed<CoreExpr>, Memory>
    ensures { IfOk result (λ made. view_expr made ≡ expr (type_there (view_numbers numbers.now).before (view_type one.now.ty)) one.now.place
        (object ((view_numbers numbers.now).object_for number))) }
{
    let number = numbers.object_for(number)?;
    made(alloc, numbers, one, Form::Object(number))
}

fn pointed(
    alloc: Global,
    numbers: &Numbers,
    one: &CoreExpr,
    number: u32,
) -> Result<Boxed<CoreExpr>, Memory>
    ensures { IfOk result (λ made. view_expr made ≡ expr (type_there (view_numbers numbers.now).before (view_type one.now.ty)) one.now.place
        (code ((view_numbers numbers.now).function_for number))) }
{
    let number = numbers.function_for(number)?;
    made(alloc, numbers, one, Form::Code(number))
}

fn load_there(
    alloc: Global,
    numbers: &Numbers,
    one: &CoreExpr,
    _of: &Boxed<CoreExpr>,
    of: Result<Boxed<CoreExpr>, Memory>,
) -> Result<Boxed<CoreExpr>, Memory>
    requires of_there { IfOk of (λ there. view_expr there ≡ expr_there (view_numbers numbers.now) (view_expr _of.now)) }
    ensures { IfOk result (λ made. view_expr made ≡ expr (type_there (view_numbers numbers.now).before (view_type one.now.ty)) one.now.place
        (load (expr_there (view_numbers numbers.now) (view_expr _of.now)))) }
{
    let of = of?;
    made(alloc, numbers, one, Form::Load(of))
}

fn deref_there(
    alloc: Global,
    numbers: &Numbers,
    one: &CoreExpr,
    _of: &Boxed<CoreExpr>,
    of: Result<Boxed<CoreExpr>, Memory>,
) -> Result<Boxed<CoreExpr>, Memory>
    requires of_there { IfOk of (λ there. view_expr there ≡ expr_there (view_numbers numbers.now) (view_expr _of.now)) }
    ensures { IfOk result (λ made. view_expr made ≡ expr (type_there (view_numbers numbers.now).before (view_type one.now.ty)) one.now.place
        (deref (expr_there (view_numbers numbers.now) (view_expr _of.now)))) }
{
    let of = of?;
    made(alloc, numbers, one, Form::Deref(of))
}

fn address_there(
    alloc: Global,
    numbers: &Numbers,
    one: &CoreExpr,
    _of: &Boxed<CoreExpr>,
    of: Result<Boxed<CoreExpr>, Memory>,
) -> Result<Boxed<CoreExpr>, Memory>
    requires of_there { IfOk of (λ there. view_expr there ≡ expr_there (view_numbers numbers.now) (view_expr _of.now)) }
    ensures { IfOk result (λ made. view_expr made ≡ expr (type_there (view_numbers numbers.now).before (view_type one.now.ty)) one.now.place
        (address (expr_there (view_numbers numbers.now) (view_expr _of.now)))) }
{
    let of = of?;
    made(alloc, numbers, one, Form::Address(of))
}

fn convert_there(
    alloc: Global,
    numbers: &Numbers,
    one: &CoreExpr,
    _of: &Boxed<CoreExpr>,
    of: Result<Boxed<CoreExpr>, Memory>,
) -> Result<Boxed<CoreExpr>, Memory>
    requires of_there { IfOk of (λ there. view_expr there ≡ expr_there (view_numbers numbers.now) (view_expr _of.now)) }
    ensures { IfOk result (λ made. view_expr made ≡ expr (type_there (view_numbers numbers.now).before (view_type one.now.ty)) one.now.place
        (convert (expr_there (view_numbers numbers.now) (view_expr _of.now)))) }
{
    let of = of?;
    made(alloc, numbers, one, Form::Convert(of))
}

fn member_there(
    alloc: Global,
    numbers: &Numbers,
    one: &CoreExpr,
    _of: &Boxed<CoreExpr>,
    of: Result<Boxed<CoreExpr>, Memory>,
    spot: Spot,
) -> Result<Boxed<CoreExpr>, Memory>
    requires of_there { IfOk of (λ there. view_expr there ≡ expr_there (view_numbers numbers.now) (view_expr _of.now)) }
    ensures { IfOk result (λ made. view_expr made ≡ expr (type_there (view_numbers numbers.now).before (view_type one.now.ty)) one.now.place
        (member (expr_there (view_numbers numbers.now) (view_expr _of.now)) spot)) }
{
    let of = of?;
    made(alloc, numbers, one, Form::Member(of, spot))
}

fn unary_there(
    alloc: Global,
    numbers: &Numbers,
    one: &CoreExpr,
    op: Op1,
    _of: &Boxed<CoreExpr>,
    of: Result<Boxed<CoreExpr>, Memory>,
) -> Result<Boxed<CoreExpr>, Memory>
    requires of_there { IfOk of (λ there. view_expr there ≡ expr_there (view_numbers numbers.now) (view_expr _of.now)) }
    ensures { IfOk result (λ made. view_expr made ≡ expr (type_there (view_numbers numbers.now).before (view_type one.now.ty)) one.now.place
        (unary op (expr_there (view_numbers numbers.now) (view_expr _of.now)))) }
{
    let of = of?;
    made(alloc, numbers, one, Form::Unary(op, of))
}

fn step_there(
    alloc: Global,
    numbers: &Numbers,
    one: &CoreExpr,
    up: bool,
    post: bool,
    _on: &Boxed<CoreExpr>,
    on: Result<Boxed<CoreExpr>, Memory>,
) -> Result<Boxed<CoreExpr>, Memory>
    requires on_there { IfOk on (λ there. view_expr there ≡ expr_there (view_numbers numbers.now) (view_expr _on.now)) }
    ensures { IfOk result (λ made. view_expr made ≡ expr (type_there (view_numbers numbers.now).before (view_type one.now.ty)) one.now.place
        (step up post (expr_there (view_numbers numbers.now) (view_expr _on.now)))) }
{
    let on = on?;
    made(alloc, numbers, one, Form::Step { up, post, on })
}

fn binary_there(
    alloc: Global,
    numbers: &Numbers,
    one: &CoreExpr,
    op: Op2,
    _left: &Boxed<CoreExpr>,
    left: Result<Boxed<CoreExpr>, Memory>,
    _right: &Boxed<CoreExpr>,
    right: Result<Boxed<CoreExpr>, Memory>,
) -> Result<Boxed<CoreExpr>, Memory>
    requires left_there { IfOk left (λ there. view_expr there ≡ expr_there (view_numbers numbers.now) (view_expr _left.now)) }
    requires right_there { IfOk right (λ there. view_expr there ≡ expr_there (view_numbers numbers.now) (view_expr _right.now)) }
    ensures { IfOk result (λ made. view_expr made ≡ expr (type_there (view_numbers numbers.now).before (view_type one.now.ty)) one.now.place
        (binary op (expr_there (view_numbers numbers.now) (view_expr _left.now)) (expr_there (view_numbers numbers.now) (view_expr _right.now)))) }
{
    let left = left?;
    let right = right?;
    made(alloc, numbers, one, Form::Binary(op, left, right))
}

fn and_there(
    alloc: Global,
    numbers: &Numbers,
    one: &CoreExpr,
    _left: &Boxed<CoreExpr>,
    left: Result<Boxed<CoreExpr>, Memory>,
    _right: &Boxed<CoreExpr>,
    right: Result<Boxed<CoreExpr>, Memory>,
) -> Result<Boxed<CoreExpr>, Memory>
    requires left_there { IfOk left (λ there. view_expr there ≡ expr_there (view_numbers numbers.now) (view_expr _left.now)) }
    requires right_there { IfOk right (λ there. view_expr there ≡ expr_there (view_numbers numbers.now) (view_expr _right.now)) }
    ensures { IfOk result (λ made. view_expr made ≡ expr (type_there (view_numbers numbers.now).before (view_type one.now.ty)) one.now.place
        (and (expr_there (view_numbers numbers.now) (view_expr _left.now)) (expr_there (view_numbers numbers.now) (view_expr _right.now)))) }
{
    let left = left?;
    let right = right?;
    made(alloc, numbers, one, Form::And(left, right))
}

fn or_there(
    alloc: Global,
    numbers: &Numbers,
    one: &CoreExpr,
    _left: &Boxed<CoreExpr>,
    left: Result<Boxed<CoreExpr>, Memory>,
    _right: &Boxed<CoreExpr>,
    right: Result<Boxed<CoreExpr>, Memory>,
) -> Result<Boxed<CoreExpr>, Memory>
    requires left_there { IfOk left (λ there. view_expr there ≡ expr_there (view_numbers numbers.now) (view_expr _left.now)) }
    requires right_there { IfOk right (λ there. view_expr there ≡ expr_there (view_numbers numbers.now) (view_expr _right.now)) }
    ensures { IfOk result (λ made. view_expr made ≡ expr (type_there (view_numbers numbers.now).before (view_type one.now.ty)) one.now.place
        (or (expr_there (view_numbers numbers.now) (view_expr _left.now)) (expr_there (view_numbers numbers.now) (view_expr _right.now)))) }
{
    let left = left?;
    let right = right?;
    made(alloc, numbers, one, Form::Or(left, right))
}

fn comma_there(
    alloc: Global,
    numbers: &Numbers,
    one: &CoreExpr,
    _left: &Boxed<CoreExpr>,
    left: Result<Boxed<CoreExpr>, Memory>,
    _right: &Boxed<CoreExpr>,
    right: Result<Boxed<CoreExpr>, Memory>,
) -> Result<Boxed<CoreExpr>, Memory>
    requires left_there { IfOk left (λ there. view_expr there ≡ expr_there (view_numbers numbers.now) (view_expr _left.now)) }
    requires right_there { IfOk right (λ there. view_expr there ≡ expr_there (view_numbers numbers.now) (view_expr _right.now)) }
    ensures { IfOk result (λ made. view_expr made ≡ expr (type_there (view_numbers numbers.now).before (view_type one.now.ty)) one.now.place
        (comma (expr_there (view_numbers numbers.now) (view_expr _left.now)) (expr_there (view_numbers numbers.now) (view_expr _right.now)))) }
{
    let left = left?;
    let right = right?;
    made(alloc, numbers, one, Form::Comma(left, right))
}

fn assign_there(
    alloc: Global,
    numbers: &Numbers,
    one: &CoreExpr,
    _target: &Boxed<CoreExpr>,
    target: Result<Boxed<CoreExpr>, Memory>,
    _value: &Boxed<CoreExpr>,
    value: Result<Boxed<CoreExpr>, Memory>,
) -> Result<Boxed<CoreExpr>, Memory>
    requires target_there { IfOk target (λ there. view_expr there ≡ expr_there (view_numbers numbers.now) (view_expr _target.now)) }
    requires value_there { IfOk value (λ there. view_expr there ≡ expr_there (view_numbers numbers.now) (view_expr _value.now)) }
    ensures { IfOk result (λ made. view_expr made ≡ expr (type_there (view_numbers numbers.now).before (view_type one.now.ty)) one.now.place
        (assign (expr_there (view_numbers numbers.now) (view_expr _target.now)) (expr_there (view_numbers numbers.now) (view_expr _value.now)))) }
{
    let target = target?;
    let value = value?;
    made(alloc, numbers, one, Form::Assign(target, value))
}

fn cond_there(
    alloc: Global,
    numbers: &Numbers,
    one: &CoreExpr,
    _test: &Boxed<CoreExpr>,
    test: Result<Boxed<CoreExpr>, Memory>,
    _first: &Boxed<CoreExpr>,
    first: Result<Boxed<CoreExpr>, Memory>,
    _second: &Boxed<CoreExpr>,
    second: Result<Boxed<CoreExpr>, Memory>,
) -> Result<Boxed<CoreExpr>, Memory>
    requires test_there { IfOk test (λ there. view_expr there ≡ expr_there (view_numbers numbers.now) (view_expr _test.now)) }
    requires first_there { IfOk first (λ there. view_expr there ≡ expr_there (view_numbers numbers.now) (view_expr _first.now)) }
    requires second_there { IfOk second (λ there. view_expr there ≡ expr_there (view_numbers numbers.now) (view_expr _second.now)) }
    ensures { IfOk result (λ made. view_expr made ≡ expr (type_there (view_numbers numbers.now).before (view_type one.now.ty)) one.now.place
        (cond (expr_there (view_numbers numbers.now) (view_expr _test.now)) (expr_there (view_numbers numbers.now) (view_expr _first.now)) (expr_there (view_numbers numbers.now) (view_expr _second.now)))) }
{
    let test = test?;
    let first = first?;
    let second = second?;
    made(alloc, numbers, one, Form::Cond(test, first, second))
}

fn assign_by_there(
    alloc: Global,
    numbers: &Numbers,
    one: &CoreExpr,
    op: Op2,
    computes: &Boxed<Ty>,
    _target: &Boxed<CoreExpr>,
    target: Result<Boxed<CoreExpr>, Memory>,
    _value: &Boxed<CoreExpr>,
    value: Result<Boxed<CoreExpr>, Memory>,
) -> Result<Boxed<CoreExpr>, Memory>
    requires target_there { IfOk target (λ there. view_expr there ≡ expr_there (view_numbers numbers.now) (view_expr _target.now)) }
    requires value_there { IfOk value (λ there. view_expr there ≡ expr_there (view_numbers numbers.now) (view_expr _value.now)) }
    ensures { IfOk result (λ made. view_expr made ≡ expr (type_there (view_numbers numbers.now).before (view_type one.now.ty)) one.now.place
        (assign_by op (type_there (view_numbers numbers.now).before (view_type computes.now)) (expr_there (view_numbers numbers.now) (view_expr _target.now)) (expr_there (view_numbers numbers.now) (view_expr _value.now)))) }
{
    let target = target?;
    let value = value?;
    let computes = type_there(alloc, numbers.before, computes.get())?;
    made(
        alloc,
        numbers,
        one,
        Form::AssignBy(op, computes, target, value),
    )
}

fn call_there(
    alloc: Global,
    numbers: &Numbers,
    one: &CoreExpr,
    callee: u32,
    _args: &Items<CoreExpr>,
    args: Result<Items<CoreExpr>, Memory>,
) -> Result<Boxed<CoreExpr>, Memory>
    requires args_there { IfOk args (λ there. map view_expr there ≡ map (expr_there (view_numbers numbers.now)) (map view_expr _args.now)) }
    ensures { IfOk result (λ made. view_expr made ≡ expr (type_there (view_numbers numbers.now).before (view_type one.now.ty)) one.now.place
        (call ((view_numbers numbers.now).function_for callee) (exprs_there (view_numbers numbers.now) (exprs_of (map view_expr _args.now))))) }
{
    let args = args?;
    let callee = numbers.function_for(callee)?;
    made(alloc, numbers, one, Form::Call(callee, args))
}

fn call_by_there(
    alloc: Global,
    numbers: &Numbers,
    one: &CoreExpr,
    _callee: &Boxed<CoreExpr>,
    callee: Result<Boxed<CoreExpr>, Memory>,
    _args: &Items<CoreExpr>,
    args: Result<Items<CoreExpr>, Memory>,
) -> Result<Boxed<CoreExpr>, Memory>
    requires callee_there { IfOk callee (λ there. view_expr there ≡ expr_there (view_numbers numbers.now) (view_expr _callee.now)) }
    requires args_there { IfOk args (λ there. map view_expr there ≡ map (expr_there (view_numbers numbers.now)) (map view_expr _args.now)) }
    ensures { IfOk result (λ made. view_expr made ≡ expr (type_there (view_numbers numbers.now).before (view_type one.now.ty)) one.now.place
        (call_by (expr_there (view_numbers numbers.now) (view_expr _callee.now)) (exprs_there (view_numbers numbers.now) (exprs_of (map view_expr _args.now))))) }
{
    let callee = callee?;
    let args = args?;
    made(alloc, numbers, one, Form::CallBy(callee, args))
}

fn literal_there(
    alloc: Global,
    numbers: &Numbers,
    one: &CoreExpr,
    number: u32,
    _puts: &Items<Put>,
    puts: Result<Items<Put>, Memory>,
) -> Result<Boxed<CoreExpr>, Memory>
    requires puts_there { IfOk puts (λ there. map view_put there ≡ map (put_there (view_numbers numbers.now)) (map view_put _puts.now)) }
    ensures { IfOk result (λ made. view_expr made ≡ expr (type_there (view_numbers numbers.now).before (view_type one.now.ty)) one.now.place
        (literal ((view_numbers numbers.now).object_for number) (puts_there (view_numbers numbers.now) (view_puts _puts.now)))) }
{
    let puts = puts?;
    let number = numbers.object_for(number)?;
    made(alloc, numbers, one, Form::Literal(number, puts))
}

#[cycle(there)]
fn exprs_there(
    alloc: Global,
    numbers: &Numbers,
    all: &[CoreExpr],
) -> Result<Items<CoreExpr>, Memory>
    ensures { IfOk result (λ made. map view_expr made ≡ map (expr_there (view_numbers numbers.now)) (map view_expr all.now)) }
{
    let mut made = Items::new(alloc);
    for one in all {
        made.push(expr_there(alloc, numbers, one)?.into_inner())?;
    }
    Ok(made)
}

#[cycle(there)]
fn put_there(alloc: Global, numbers: &Numbers, one: &Put) -> Result<Put, Memory>
    ensures { IfOk result (λ made. view_put made ≡ put_there (view_numbers numbers.now) (view_put one.now)) }
{
    let there = type_there(alloc, numbers.before, &one.ty)?;
    let value = expr_there(alloc, numbers, one.value.get())?;
    Ok(Put {
        spot: one.spot,
        ty: there.into_inner(),
        value,
    })
}

/// What an initialiser stores (ISO C99, 6.7.8). Refused only for want of memory.
#[cycle(there)]
pub fn puts_there(alloc: Global, numbers: &Numbers, puts: &[Put]) -> Result<Items<Put>, Memory>
    ensures { IfOk result (λ made. map view_put made ≡ map (put_there (view_numbers numbers.now)) (map view_put puts.now)) }
{
    let mut made = Items::new(alloc);
    for one in puts {
        made.push(put_there(alloc, numbers, one)?)?;
    }
    Ok(made)
}

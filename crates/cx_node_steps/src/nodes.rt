//! Nodes with one or two operands that touch memory alone (ISO C99, 6.5.3, 6.5.5 to 6.5.12).

ghost use Rattle.std.specs.Prelude.{◌≡◌, Ok, Result};
ghost use Rattle.cx_access.specs.Finds.{Finds};
ghost use Rattle.cx_access.specs.Views.{view_setting};
ghost use Rattle.cx_core.specs.Trees.{CTy, type_of};
ghost use Rattle.cx_core.specs.Views.{view_expr, view_type};
ghost use Rattle.cx_mean.specs.Marks.{Marks};
ghost use Rattle.cx_mean.specs.Nodes.{typed_value, unary_done};
ghost use Rattle.cx_mean.specs.Operands.{CValue, CWhy, designates, scalar};
ghost use Rattle.cx_node_steps.specs.Parts.{operated, unary_given, unary_operated};
ghost use Rattle.cx_node_steps.specs.Views.{form_of};
ghost use Rattle.cx_operations.specs.Gives.{given_value};
ghost use Rattle.cx_work.specs.Views.{view_finished, view_typed};
ghost use Rattle.mem_bytes.specs.Access.{and_then};
ghost use Rattle.mem_bytes.specs.declared.value.Value as held;

use crate::members::{deref_value, member_value};
use cx_access::{Setting, Trouble, loaded, place_value, scalar_value};
use cx_core::{CoreExpr, Form, Op1, Op2, Ty};
use cx_operations::{binary_value, converted_value, unary_value};
use cx_work::{Finished, Marks, Objects, OperandTy, Typed};
use mem_bytes::{Store, Value};
use std::alloc::Global;

// A scalar value that was found, as what an operand gives.
fn as_scalar(found: Result<Value, Trouble>) -> Result<Finished, Trouble>
    ensures { (outcome : Result held.Value CWhy) → Finds (λ one. one) found outcome → Finds view_finished result (and_then outcome (λ to. Ok (scalar to))) }
{
    match found {
        Ok(value) => Ok(Finished::Scalar(value)),
        Err(trouble) => Err(trouble),
    }
}

// What a pointer points to, as what an operand gives.
fn as_place(found: Result<Value, Trouble>) -> Result<Finished, Trouble>
    ensures { (outcome : Result CValue CWhy) → Finds designates found outcome → Finds view_finished result outcome }
{
    match found {
        Ok(to) => Ok(Finished::Designates(to)),
        Err(trouble) => Err(trouble),
    }
}

// What a conversion gives, as what an operand does.
fn as_given(found: Result<Option<Value>, Trouble>) -> Result<Finished, Trouble>
    ensures { (outcome : Result CValue CWhy) → Finds given_value found outcome → Finds view_finished result outcome }
{
    match found {
        Ok(Some(value)) => Ok(Finished::Scalar(value)),
        Ok(None) => Ok(Finished::Missing),
        Err(trouble) => Err(trouble),
    }
}

// An operator with one operand.
fn unary_operated<S: Store>(
    store: &S,
    setting: &Setting<'_>,
    op: Op1,
    ty: &Ty,
    value: &Finished,
) -> Result<Value, Trouble>
    ensures { Finds (λ one. one) result (unary_operated (view_setting setting.now) op (view_type ty.now) (S.memory store.now) (view_finished value.now)) }
{
    match scalar_value(value) {
        Ok(given) => unary_value(store, setting, op, OperandTy::Of(ty), given),
        Err(trouble) => Err(trouble),
    }
}

// What a node gives that leaves the accesses of its operand as they are.
fn unary_given<S: Store, O: Objects>(
    alloc: Global,
    store: &S,
    objects: &O,
    setting: &Setting<'_>,
    node: &CoreExpr,
    value: &Finished,
) -> Result<Finished, Trouble>
    ensures { Finds view_finished result (unary_given (view_setting setting.now) (type_of (view_expr node.now)) (form_of (view_expr node.now))
        (O.frame objects.now) (S.memory store.now) (view_finished value.now)) }
{
    match &node.form {
        Form::Deref(_) => as_place(deref_value(value)),
        Form::Member(of, spot) => {
            let holder = &of.get().ty;
            member_value(
                alloc, store, objects, setting, &node.ty, holder, *spot, value,
            )
        }
        Form::Address(_) => as_scalar(place_value(objects, value)),
        Form::Convert(_) => as_given(converted_value(
            store,
            setting,
            OperandTy::Of(&node.ty),
            value,
        )),
        Form::Unary(op, _) => as_scalar(unary_operated(store, setting, *op, &node.ty, value)),
        _ => Err(Trouble::Memory),
    }
}

/// What a node with one operand gives that is finished; what a load reads is marked.
///
/// # Errors
///
/// `Undefined` by the rule that the step breaks.
#[tactic(auto, using(crate::proofs::Given::given_done))]
pub fn unary_done<S: Store, O: Objects>(
    alloc: Global,
    store: &S,
    objects: &O,
    setting: &Setting<'_>,
    node: &CoreExpr,
    value: &Finished,
    marks: &mut Marks,
) -> Result<Finished, Trouble>
    ensures { (type : CTy) (before : Marks) → Finds (λ given. record { value = view_finished given; marks = marks.new; blocks = S.memory store.now }) result
        (unary_done (view_setting setting.now) (type_of (view_expr node.now)) (form_of (view_expr node.now)) (O.frame objects.now) marks.old (S.memory store.now)
        (record { type = type; value = view_finished value.now; marks = before })) }
{
    match &node.form {
        Form::Load(_) => loaded(
            alloc,
            store,
            objects,
            setting,
            OperandTy::Of(&node.ty),
            value,
            marks,
        ),
        Form::Deref(_) => unary_given(alloc, store, objects, setting, node, value),
        Form::Member(_, _) => unary_given(alloc, store, objects, setting, node, value),
        Form::Address(_) => unary_given(alloc, store, objects, setting, node, value),
        Form::Convert(_) => unary_given(alloc, store, objects, setting, node, value),
        Form::Unary(_, _) => unary_given(alloc, store, objects, setting, node, value),
        _ => Err(Trouble::Memory),
    }
}

fn typed_value<'a>(ty: &'a Ty, value: &Finished) -> Result<Typed<'a>, Trouble>
    ensures { (marks : Marks) → Finds view_typed result (typed_value (record { type = view_type ty.now; value = view_finished value.now; marks = marks })) }
{
    match scalar_value(value) {
        Ok(value) => Ok(Typed {
            ty: OperandTy::Of(ty),
            value,
        }),
        Err(trouble) => Err(trouble),
    }
}

/// What an operator with two operands gives.
///
/// # Errors
///
/// `Undefined` by U2, U3 or U4 of numbers, by U5, U11 or U12 of pointers, or by U14.
pub fn operated<S: Store>(
    store: &S,
    setting: &Setting<'_>,
    op: Op2,
    ty: &Ty,
    left_ty: &Ty,
    left: &Finished,
    right_ty: &Ty,
    right: &Finished,
) -> Result<Finished, Trouble>
    ensures { (before after : Marks) → Finds view_finished result (operated (view_setting setting.now) op (view_type ty.now) (S.memory store.now)
        (record { type = view_type left_ty.now; value = view_finished left.now; marks = before })
        (record { type = view_type right_ty.now; value = view_finished right.now; marks = after })) }
{
    let first = match typed_value(left_ty, left) {
        Ok(first) => first,
        Err(trouble) => return Err(trouble),
    };
    let second = match typed_value(right_ty, right) {
        Ok(second) => second,
        Err(trouble) => return Err(trouble),
    };
    match binary_value(store, setting, op, OperandTy::Of(ty), first, second) {
        Ok(value) => Ok(Finished::Scalar(value)),
        Err(trouble) => Err(trouble),
    }
}

//! Nodes whose operands are finished, with the conflicts of these (ISO C99, 6.5p2).

ghost use Rattle.std.specs.Prelude.{◌≡◌, [], ◌∷◌, Ok, IfSome};
ghost use Rattle.cx_access.specs.Finds.{Finds};
ghost use Rattle.cx_access.specs.Views.{view_setting};
ghost use Rattle.cx_core.specs.Conversions.{promoted};
ghost use Rattle.cx_core.specs.Trees.{step, type_of};
ghost use Rattle.cx_core.specs.Typing.{width_of};
ghost use Rattle.cx_core.specs.Views.{view_expr, view_type, view_types};
ghost use Rattle.cx_mean.specs.Marks as meaning;
ghost use Rattle.cx_mean.specs.Nodes.{binary_done, changes, node_done, node_updating, update_loaded};
ghost use Rattle.cx_mean.specs.Operands.{COperand};
ghost use Rattle.cx_node_steps.specs.Changes.{view_change};
ghost use Rattle.cx_node_steps.specs.Dones.{Joins, left_of, right_of, view_done, view_loaded};
ghost use Rattle.cx_node_steps.specs.Views.{form_of};
ghost use Rattle.mem_bytes.specs.Access.{and_then};
ghost use Rattle.cx_work.specs.Views.{view_finished, view_operand, view_operand_ty};

use crate::joins::unite;
use crate::nodes::{operated, unary_done};
use crate::updates::{Change, updating};
use cx_access::{Setting, Trouble, scalar_value, stored};
use cx_core::{CoreExpr, Form, Op2, Ty, basic_of, promoted_basic};
use cx_work::{Finished, Marks, Objects, Operand, OperandTy, Typed, Update};
use mem_bytes::{Store, Value};
use std::alloc::Global;

/// What a step of a node gives, and the accesses up to there.
#[derive(Drop)]
pub struct Done {
    pub value: Finished,
    pub marks: Marks,
}

/// `op=`, `++` or `--` behind its load, and the accesses up to there.
#[derive(Drop)]
pub struct Loaded<'a> {
    pub update: Update<'a>,
    pub marks: Marks,
}

/// What a node with one operand gives.
///
/// # Errors
///
/// `Undefined` by the rule that the step breaks.
#[tactic(auto, using(crate::proofs::Single::united_one))]
pub fn done_by_one<S: Store, O: Objects>(
    alloc: Global,
    store: &S,
    objects: &O,
    setting: &Setting<'_>,
    node: &CoreExpr,
    operand: Operand<'_>,
) -> Result<Done, Trouble>
    ensures { Finds (view_done (S.memory store.now)) result (node_done (view_setting setting.now) (type_of (view_expr node.now)) (form_of (view_expr node.now))
        (O.frame objects.now) (S.memory store.now) (view_operand operand.entry ∷ [])) }
{
    let Operand {
        value,
        mut marks,
        ..
    } = operand;
    match unary_done(alloc, store, objects, setting, node, &value, &mut marks) {
        Ok(value) => Ok(Done { value, marks }),
        Err(trouble) => Err(trouble),
    }
}

// An operator with two operands, or an assignment, once the accesses of both are together.
fn two_done<S: Store, O: Objects>(
    store: &mut S,
    objects: &O,
    setting: &Setting<'_>,
    node: &CoreExpr,
    left_ty: &Ty,
    left: &Finished,
    right_ty: &Ty,
    right: Finished,
    marks: &mut Marks,
) -> Result<Finished, Trouble>
    ensures done { (before after : meaning.Marks) → Finds (λ given. record { value = view_finished given; marks = marks.new; blocks = S.memory store.new }) result
        (binary_done (view_setting setting.now) (type_of (view_expr node.now)) (form_of (view_expr node.now)) (O.frame objects.now) marks.old (S.memory store.old)
        (record { type = view_type left_ty.now; value = view_finished left.now; marks = before })
        (record { type = view_type right_ty.now; value = view_finished right; marks = after })) }
    ensures limit { S.limit store.new ≡ S.limit store.old }
{
    match &node.form {
        Form::Binary(op, _, _) => {
            operated(
                store, setting, *op, &node.ty, left_ty, left, right_ty, &right,
            )
        }
        Form::Assign(_, _) => stored(
            store,
            objects,
            setting,
            OperandTy::Of(&node.ty),
            left,
            right,
            marks,
        ),
        _ => Err(Trouble::Memory),
    }
}

/// Two operands whose accesses are together.
#[derive(Drop)]
pub struct Both<'a> {
    pub left_ty: &'a Ty,
    pub left: Finished,
    pub right_ty: &'a Ty,
    pub right: Finished,
    pub marks: Marks,
}

/// The accesses of two operands together.
///
/// # Errors
///
/// `Undefined(U1)` where two of them conflict.
pub fn joined<'a>(one: Operand<'a>, other: Operand<'a>) -> Result<Both<'a>, Trouble>
    ensures { Joins result (view_operand one.entry) (view_operand other.entry) }
{
    let Operand {
        ty: left_ty,
        value: left,
        mut marks,
    } = one;
    let Operand {
        ty: right_ty,
        value: right,
        marks: more,
    } = other;
    match unite(&mut marks, more) {
        Ok(()) => Ok(Both {
            left_ty,
            left,
            right_ty,
            right,
            marks,
        }),
        Err(trouble) => Err(trouble),
    }
}

/// What a node with two operands gives.
///
/// # Errors
///
/// `Undefined` by the rule that the step breaks.
pub fn done_by_two<S: Store, O: Objects>(
    store: &mut S,
    objects: &O,
    setting: &Setting<'_>,
    node: &CoreExpr,
    both: Both<'_>,
) -> Result<Done, Trouble>
    ensures done { (before after : meaning.Marks) → Finds (view_done (S.memory store.new)) result
        (binary_done (view_setting setting.now) (type_of (view_expr node.now)) (form_of (view_expr node.now)) (O.frame objects.now) both.entry.marks (S.memory store.old)
        (left_of before both.entry) (right_of after both.entry)) }
    ensures limit { S.limit store.new ≡ S.limit store.old }
{
    let Both {
        left_ty,
        left,
        right_ty,
        right,
        mut marks,
    } = both;
    match two_done(
        store, objects, setting, node, left_ty, &left, right_ty, right, &mut marks,
    ) {
        Ok(value) => Ok(Done { value, marks }),
        Err(trouble) => Err(trouble),
    }
}

// The width of a bit-field in bits, or none for another lvalue (6.7.2.1p8).
fn width_of(e: &CoreExpr) -> Option<u32>
    ensures { result ≡ width_of (view_expr e.now) }
{
    match &e.form {
        Form::Member(_, spot) => {
            if spot.width == 0 {
                return None;
            }
            Some(spot.width)
        }
        _ => None,
    }
}

// The type in which `++` and `--` compute (6.3.1.1p2).
fn promoted_ty<'a>(setting: &Setting<'_>, on: &'a CoreExpr) -> OperandTy<'a>
    ensures { view_operand_ty result ≡ promoted (view_types setting.now.program.now.types) (type_of (view_expr on.now)) (width_of (view_expr on.now)) }
{
    match basic_of(&on.ty, &setting.program.types) {
        Some(which) => OperandTy::Basic(promoted_basic(which, width_of(on))),
        None => OperandTy::Unqualified(&on.ty),
    }
}

// What `++` or `--` computes: with 1, an integer in its promoted type.
fn by_one<'a>(setting: &Setting<'_>, up: bool, post: bool, on: &'a CoreExpr) -> Change<'a>
    ensures { (target : COperand) → changes (view_setting setting.now) (step up post (view_expr on.now)) (target ∷ []) ≡ Ok (view_change result target) }
{
    let computes = promoted_ty(setting, on);
    Change {
        op: if up { Op2::Add } else { Op2::Subtract },
        computes,
        right: Typed {
            ty: computes,
            value: Value::Whole(1),
        },
        is_postfix: post,
    }
}

// The parts of `++` or `--`.
#[derive(Clone, Copy)]
struct StepParts<'a> {
    up: bool,
    post: bool,
    on: &'a CoreExpr,
}

fn step_parts(node: &CoreExpr) -> Option<StepParts<'_>>
    ensures { IfSome result (λ parts. form_of (view_expr node.now) ≡ step parts.up parts.post (view_expr parts.on.now)) }
{
    match &node.form {
        Form::Step { up, post, on } => Some(StepParts {
            up: *up,
            post: *post,
            on: on.get(),
        }),
        _ => None,
    }
}

// The load of a target that is changed.
fn loaded_as<'a, S: Store, O: Objects>(
    alloc: Global,
    store: &S,
    objects: &O,
    setting: &Setting<'_>,
    change: Change<'a>,
    operand: Operand<'a>,
) -> Result<Loaded<'a>, Trouble>
    ensures { Finds view_loaded result (update_loaded (view_setting setting.now) (O.frame objects.now) (S.memory store.now) operand.entry.marks
        (view_change change.entry (view_operand operand.entry))) }
{
    let Operand {
        ty,
        value,
        mut marks,
    } = operand;
    match updating(
        alloc, store, objects, setting, change, ty, value, &mut marks,
    ) {
        Ok(update) => Ok(Loaded { update, marks }),
        Err(trouble) => Err(trouble),
    }
}

/// The load of `++` or `--`.
///
/// # Errors
///
/// `Undefined` by the rules of a load.
pub fn step_loaded<'a, S: Store, O: Objects>(
    alloc: Global,
    store: &S,
    objects: &O,
    setting: &Setting<'_>,
    node: &'a CoreExpr,
    operand: Operand<'a>,
) -> Result<Loaded<'a>, Trouble>
    ensures { Finds view_loaded result (node_updating (view_setting setting.now) (form_of (view_expr node.now)) (O.frame objects.now) (S.memory store.now) (view_operand operand.entry ∷ [])) }
{
    let Some(parts) = step_parts(node) else {
        return Err(Trouble::Memory);
    };
    let change = by_one(setting, parts.up, parts.post, parts.on);
    loaded_as(alloc, store, objects, setting, change, operand)
}

// What `op=` of a node computes with its right operand.
fn change_of<'a>(
    setting: &Setting<'_>,
    node: &'a CoreExpr,
    ty: &'a Ty,
    value: Finished,
) -> Result<Change<'a>, Trouble>
    ensures { (target : COperand) (marks : meaning.Marks) → Finds (λ change. view_change change target) result
        (changes (view_setting setting.now) (form_of (view_expr node.now)) (target ∷ record { type = view_type ty.now; value = view_finished value; marks = marks } ∷ [])) }
{
    let Form::AssignBy(op, computes, _, _) = &node.form else {
        return Err(Trouble::Memory);
    };
    match scalar_value(&value) {
        Ok(value) => Ok(Change {
            op: *op,
            computes: OperandTy::Of(computes.get()),
            right: Typed {
                ty: OperandTy::Of(ty),
                value,
            },
            is_postfix: false,
        }),
        Err(trouble) => Err(trouble),
    }
}

/// The load of `op=`.
///
/// # Errors
///
/// `Undefined` by U14, or by the rules of a load.
pub fn assign_loaded<'a, S: Store, O: Objects>(
    alloc: Global,
    store: &S,
    objects: &O,
    setting: &Setting<'_>,
    node: &'a CoreExpr,
    both: Both<'a>,
) -> Result<Loaded<'a>, Trouble>
    ensures { (before after : meaning.Marks) → Finds view_loaded result (and_then (changes (view_setting setting.now) (form_of (view_expr node.now))
        (left_of before both.entry ∷ right_of after both.entry ∷ []))
        (update_loaded (view_setting setting.now) (O.frame objects.now) (S.memory store.now) both.entry.marks)) }
{
    let Both {
        left_ty,
        left,
        right_ty,
        right,
        mut marks,
    } = both;
    let change = match change_of(setting, node, right_ty, right) {
        Ok(change) => change,
        Err(trouble) => return Err(trouble),
    };
    match updating(
        alloc, store, objects, setting, change, left_ty, left, &mut marks,
    ) {
        Ok(update) => Ok(Loaded { update, marks }),
        Err(trouble) => Err(trouble),
    }
}
